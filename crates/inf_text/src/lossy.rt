ghost use Rattle.std.specs.Prelude.{◌≡◌, ◌++◌, ℕ, List, IfOk, IsUtf8, encode_utf8_all, true};
ghost use Rattle.std.specs.Str.{all_scalars};
ghost use Rattle.inf_text.specs.Lossy.{ReadsLossy, AddsSpelled};

use crate::text::Text;
use std::alloc::{AllocError, Global};
use std::str;

/// Adds the characters that well-formed bytes spell.
fn push_utf8(alloc: Global, text: &mut Text, bytes: &[u8]) -> Result<(), AllocError>
    requires { IsUtf8 bytes.now }
    ensures { IfOk result (λ _. AddsSpelled text.old text.new bytes.now) }
{
    match str::from_utf8(bytes) {
        Ok(spelling) => {
            let chars: Vec<char> = spelling.chars().collect(alloc)?;
            text.push_all(chars.as_slice())
        }
        Err(_) => unreachable!(),
    }
}

impl Text {
    /// The text that bytes spell in UTF-8, with U+FFFD for each byte that begins no well-formed sequence.
    ///
    /// # Errors
    /// Want of memory.
    pub fn from_utf8_lossy(alloc: Global, bytes: &[u8]) -> Result<Text, AllocError>
        ensures { IfOk result (λ text. ReadsLossy bytes.now text) }
    {
        let mut text = Text::new(alloc);
        let mut rest = bytes;
        while let Err(error) = str::from_utf8(rest) {
            let (front, behind) = rest.split_at(error.valid_up_to());
            push_utf8(alloc, &mut text, front)?;
            text.push(char::REPLACEMENT_CHARACTER)?;
            rest = &behind[1..];
        }
        push_utf8(alloc, &mut text, rest)?;
        Ok(text)
    }
}
