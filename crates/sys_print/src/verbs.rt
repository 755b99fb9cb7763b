//! How numbers are told by the verbs of a format (Inferno manual, sys-print(2)).

ghost use Rattle.std.specs.Prelude.{◌≡◌, IfOk};
ghost use Rattle.system_model.specs.Verbs as meaning;

use inf_text::Text;
use std::alloc::{AllocError, Global};

/// The character of a code. A code that no character has is U+FFFD.
pub fn character(code: i32) -> char
    ensures { result ≡ meaning.character code }
{
    match u32::try_from(code) {
        Ok(code) => char::from_u32(code).unwrap_or(char::REPLACEMENT_CHARACTER),
        Err(_) => char::REPLACEMENT_CHARACTER,
    }
}

/// The digits of an int's 32 bits to the base 16, without leading zeros.
///
/// # Errors
/// Want of memory.
pub fn hexadecimal(alloc: Global, n: i32) -> Result<Text, AllocError>
    ensures { IfOk result (λ t. t ≡ meaning.hexadecimal n) }
{
    let digits = format!(in alloc; "{:x}", n.cast_unsigned())?;
    let chars: Vec<char> = digits.as_str().chars().collect(alloc)?;
    Ok(Text::from_vec(chars))
}
