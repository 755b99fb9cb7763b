ghost use Rattle.std.specs.Prelude.{◌≡◌, ◌↔◌, ◌++◌, ◌∷◌, [], true, IsTrue, length, IfOk, IfErr, OnErr, IsUtf8, encode_utf8_all};
ghost use Rattle.std.specs.Str.{all_scalars};
ghost use Rattle.std.specs.Fmt.{signed_decimal};
ghost use Rattle.inf_text.specs.Utf8.{IsFirstBadPlace};

use std::alloc::{AllocError, Global};
use std::cmp::Ordering;
use std::marker::Model;
use std::str;

/// A list of Unicode characters. A contract sees the list of their codes.
#[derive(Drop, Debug)]
pub struct Text {
    chars: Vec<char>,
}

impl Model for Text {
    ghost use Rattle.std.specs.Prelude.{List, ℕ};

    ghost Value = { List ℕ };

    ghost view = { λ t. t.chars.items };
}

/// Why bytes are no text.
#[derive(Clone, Copy, PartialEq, Eq, Debug)]
pub enum TextFault {
    /// Want of memory.
    NoMemory,
    /// Refusal 1: the bytes aren't well-formed UTF-8. The first sequence that isn't begins at `at`.
    BadUtf8 { at: usize },
}

impl From<AllocError> for TextFault {
    ghost use Rattle.std.specs.Prelude.{◌≡◌};
    ghost use Rattle.inf_text.specs.declared.text.TextFault.TheVariants.{NoMemory};

    ghost from_gives = { λ _ e. e ≡ NoMemory };

    fn from(_error: AllocError) -> TextFault {
        TextFault::NoMemory
    }
}

impl Text {
    /// The text without characters.
    pub fn new(alloc: Global) -> Text
        ensures { result ≡ [] }
    {
        Text {
            chars: Vec::new(alloc),
        }
    }

    /// The text of these characters. It takes no memory.
    pub fn from_vec(chars: Vec<char>) -> Text
        ensures { result ≡ chars.items }
    {
        Text { chars }
    }

    /// The characters themselves. It takes no memory.
    pub fn into_vec(self) -> Vec<char>
        ensures { result.items ≡ self }
    {
        let Text { chars } = self;
        chars
    }

    /// The text that well-formed UTF-8 spells (RFC 3629, section 3).
    ///
    /// # Errors
    /// `BadUtf8` exactly where the bytes aren't well formed, with the first bad place; `NoMemory`.
    pub fn from_utf8(alloc: Global, bytes: &[u8]) -> Result<Text, TextFault>
        ensures spelled { IfOk result (λ t. encode_utf8_all t ≡ bytes.now) }
        ensures characters { IfOk result (λ t. all_scalars t ≡ true) }
        ensures refused { IfErr result (λ e. IsFirstBadPlace bytes.now e) }
    {
        match str::from_utf8(bytes) {
            Ok(text) => {
                let chars: Vec<char> = text.chars().collect(alloc)?;
                Ok(Text { chars })
            }
            Err(error) => Err(TextFault::BadUtf8 {
                at: error.valid_up_to(),
            }),
        }
    }

    /// The UTF-8 spelling of the text (RFC 3629, section 3).
    ///
    /// # Errors
    /// Want of memory.
    pub fn to_utf8(&self, alloc: Global) -> Result<Vec<u8>, AllocError>
        ensures spelled { IfOk result (λ bytes. bytes.items ≡ encode_utf8_all self.now) }
        ensures well_formed { IfOk result (λ bytes. IsUtf8 bytes.items) }
    {
        let spelling: String = self.chars.iter().copied().collect(alloc)?;
        Ok(spelling.into_bytes())
    }

    /// How many characters the text has.
    pub fn len(&self) -> usize
        ensures { result ≡ length self.now }
    {
        self.chars.len()
    }

    /// The characters.
    pub fn as_slice(&self) -> &[char]
        ensures { result.now ≡ self.now }
    {
        self.chars.as_slice()
    }

    /// Adds a character at the end.
    ///
    /// # Errors
    /// Want of memory, which changes nothing.
    pub fn push(&mut self, c: char) -> Result<(), AllocError>
        ensures ok { IfOk result (λ _. self.new ≡ self.old ++ c ∷ []) }
        ensures err { OnErr result (self.new ≡ self.old) }
    {
        self.chars.push(c)?;
        Ok(())
    }

    /// Adds characters at the end.
    ///
    /// # Errors
    /// Want of memory, which changes nothing.
    pub fn push_all(&mut self, more: &[char]) -> Result<(), AllocError>
        ensures ok { IfOk result (λ _. self.new ≡ self.old ++ more.now) }
        ensures err { OnErr result (self.new ≡ self.old) }
    {
        self.chars.extend_from_slice(more)?;
        Ok(())
    }
}

impl PartialEq for Text {
    ghost use Rattle.std.specs.Prelude.{nat_eq};
    ghost use Rattle.std.specs.Cmp.{partial_equiv_from_equiv};
    ghost use Rattle.std.specs.Cmp.Lexicographic.{pointwise, nat_list_eq_equiv};

    ghost eq = { pointwise nat_eq };

    ghost laws = { partial_equiv_from_equiv nat_list_eq_equiv };

    fn eq(&self, other: &Self) -> bool {
        self.chars == other.chars
    }
}

impl Eq for Text {
    ghost use Rattle.std.specs.Cmp.Lexicographic.{nat_list_eq_equiv};

    ghost laws = { nat_list_eq_equiv };
}

impl PartialOrd for Text {
    ghost use Rattle.std.specs.Prelude.{Some};
    ghost use Rattle.std.specs.Ordering.{nat_cmp};
    ghost use Rattle.std.specs.Cmp.Lexicographic.{slice_cmp, texts_po};

    ghost partial_cmp = { λ x y. Some (slice_cmp nat_cmp x y) };

    ghost laws = { texts_po };

    fn partial_cmp(&self, other: &Self) -> Option<Ordering> {
        Some(self.cmp(other))
    }
}

impl Ord for Text {
    ghost use Rattle.std.specs.Prelude.{refl};
    ghost use Rattle.std.specs.Ordering.{nat_cmp};
    ghost use Rattle.std.specs.Cmp.Lexicographic.{slice_cmp, nat_list_cmp_total, texts_ties};

    ghost cmp = { slice_cmp nat_cmp };

    ghost total = { nat_list_cmp_total };

    ghost matches_partial_cmp = { λ x y. refl };

    ghost matches_eq = { texts_ties };

    fn cmp(&self, other: &Self) -> Ordering {
        self.chars.cmp(&other.chars)
    }
}

impl Clone for Text {
    ghost is_clone = { λ s t. t ≡ s };

    fn clone(&self) -> Result<Self, AllocError> {
        Ok(Text {
            chars: self.chars.clone()?,
        })
    }
}

/// Whether characters have this spelling.
pub fn is_spelled(text: &[char], spelling: &str) -> bool
    ensures { IsTrue result ↔ (text.now ≡ spelling.now) }
{
    let bytes = spelling.as_bytes();
    if text.len() != bytes.len() {
        return false;
    }
    text.iter().zip(bytes).all(|(c, b)| *c == char::from(*b))
}

/// The decimal spelling of a number: a minus sign where it is below 0, then its digits without leading zeros.
///
/// # Errors
/// Want of memory.
pub fn decimal(alloc: Global, v: i64) -> Result<Text, AllocError>
    ensures { IfOk result (λ t. t ≡ signed_decimal v) }
{
    let digits = format!(in alloc; "{v}")?;
    let chars: Vec<char> = digits.as_str().chars().collect(alloc)?;
    Ok(Text { chars })
}
