//! What holds of all bytes.

ghost use Rattle.limbo_bytes.specs.Bytes.{BytesAreRead};

/// Bytes become a string as `inf_text` reads bytes that may be ill-formed: a byte that begins no character is U+FFFD.
pub fn bytes_are_read()
    ensures { BytesAreRead }
{}
