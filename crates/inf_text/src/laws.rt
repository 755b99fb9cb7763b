ghost use Rattle.std.specs.Prelude.{◌≡◌, List, ℕ, true, encode_utf8_all};
ghost use Rattle.std.specs.Str.{IsUtf8, all_scalars};

/// Two texts with one spelling are one text, so what `from_utf8` gives is the only text that the bytes spell.
pub fn one_spelling()
    ensures { (s t : List ℕ) → encode_utf8_all s ≡ encode_utf8_all t → s ≡ t }
{}

/// The spelling of a text is well formed, so `from_utf8` takes back what `to_utf8` gives.
pub fn read_back()
    ensures { (s : List ℕ) → all_scalars s ≡ true → IsUtf8 (encode_utf8_all s) }
{}
