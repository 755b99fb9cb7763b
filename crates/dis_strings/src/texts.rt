//! What operations make of strings, apart from memory (Limbo Language Reference, strings).

ghost use Rattle.std.specs.Prelude.{◌≡◌, ◌++◌, ◌≤◌, IfOk, length, suc, ℕ};
ghost use Rattle.limbo_values.specs.Texts.{index_in, slice_in};
ghost use Rattle.dis_meaning.specs.Words as words;
ghost use Rattle.dis_memory.specs.Raising.{unless_raised};
ghost use Rattle.dis_memory.specs.Strings.{not_longer, with_character};
ghost use Rattle.dis_results.specs.Going.{told};
ghost use Rattle.dis_strings.specs.Telling.{told_text};

use dis_places::Raise;
use limbo_values::{Raised, bounds_in, index_in};
use std::alloc::{AllocError, Global};
// How many characters a string has at most.
const LONGEST: usize = 16_777_216;

/// The characters of one string, and those of another behind them.
pub(crate) fn joined(alloc: Global, left: &[u32], right: &[u32]) -> Result<Vec<u32>, AllocError>
    ensures { IfOk result (λ text. text.items ≡ left.now ++ right.now) }
{
    let mut text = Vec::from_slice(alloc, left)?;
    text.extend_from_slice(right)?;
    Ok(text)
}

/// The characters of a string from one on, before another, or that there are none such.
pub(crate) fn sliced(
    alloc: Global,
    text: &[u32],
    from: i32,
    to: i32,
) -> Result<Result<Vec<u32>, Raise>, AllocError>
    ensures { IfOk result (λ outcome. told_text outcome ≡ unless_raised (slice_in text.now from to)) }
{
    match bounds_in(text.len(), from, to) {
        Ok((from, to)) => {
            let part = Vec::from_slice(alloc, &text[from..to])?;
            Ok(Ok(part))
        }
        Err(raised) => Ok(Err(Raise::Value(raised))),
    }
}

/// A string with another character at an index, or with one more at its end.
pub(crate) fn with_character(
    alloc: Global,
    text: &[u32],
    at: usize,
    code: u32,
) -> Result<Vec<u32>, AllocError>
    requires { at ≤ length text.now }
    ensures { IfOk result (λ changed. changed.items ≡ with_character text.now at code) }
{
    let mut changed = Vec::from_slice(alloc, text)?;
    if at == text.len() {
        changed.push(code)?;
    } else {
        changed[at] = code;
    }
    Ok(changed)
}

/// The index in a string at which another character may come, or behind its last one; or that there is no such index, or that the string
/// would be too long.
pub(crate) fn place_in(text: &[u32], at: i32) -> Result<usize, Raise>
    ensures told { (c : ℕ) → told (λ k. with_character text.now k c) result
        ≡ words.◌>>=◌ (unless_raised (index_in (suc (length text.now)) at))
        (λ k. unless_raised (not_longer (with_character text.now k c))) }
    ensures within { IfOk result (λ k. k ≤ length text.now) }
{
    match index_in(text.len() + 1, at) {
        Ok(k) => {
            let count = if k == text.len() {
                text.len() + 1
            } else {
                text.len()
            };
            if count > LONGEST {
                Err(Raise::Value(Raised::StringTooLong))
            } else {
                Ok(k)
            }
        }
        Err(raised) => Err(Raise::Value(raised)),
    }
}
