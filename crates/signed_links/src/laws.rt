//! What holds of the numbers.

ghost use Rattle.signed_links.specs.Signed.{ImportsSigned, LinksSigned};

/// Each function of `Sys` that an object imports has the signature of its type.
pub fn imports_signed()
    ensures imports { ImportsSigned }
{}

/// So has `init`, which it offers.
pub fn links_signed()
    ensures links { LinksSigned }
{}
