ghost use Rattle.std.specs.Prelude.{◌≡◌, ◌≤◌, pos, length};
ghost use Rattle.std.specs.Result.{result_map_both};
ghost use Rattle.inf_text.specs.Steps.{Gives};
ghost use Rattle.limbo_values.specs.Texts.{longest, index_in, bounds_in, character_in, slice_in, joined, joined_count, text_compared, raised_in};

use crate::operator::Comparison;
use crate::raised::{JoinFault, Raised};
use inf_text::Text;
use std::alloc::Global;

/// How many characters a string has at most.
const LONGEST: usize = 16_777_216;

/// The place that an index names in an array or a string with so many elements.
///
/// # Errors
/// `ArrayBounds` exactly where the index isn't from 0 on and below the length.
pub fn index_in(count: usize, i: i32) -> Result<usize, Raised>
    ensures { result ≡ index_in count i }
{
    if i < 0 {
        return Err(Raised::ArrayBounds);
    }
    let index = i as usize;
    if index < count {
        Ok(index)
    } else {
        Err(Raised::ArrayBounds)
    }
}

/// The places from which on and before which a slice takes elements of an array or a string with so many.
///
/// # Errors
/// `ArrayBounds` exactly where the bounds aren't from 0 to the length or fall.
pub fn bounds_in(count: usize, from: i32, to: i32) -> Result<(usize, usize), Raised>
    ensures { result ≡ bounds_in count from to }
{
    if from < 0 || to < 0 {
        return Err(Raised::ArrayBounds);
    }
    let (from, to) = (from as usize, to as usize);
    if from <= to && to <= count {
        Ok((from, to))
    } else {
        Err(Raised::ArrayBounds)
    }
}

/// How many characters two strings of so many have together.
///
/// # Errors
/// `StringTooLong` exactly where these are more than 16,777,216.
pub fn joined_len(a: usize, b: usize) -> Result<usize, Raised>
    ensures { result ≡ joined_count a b }
{
    match a.checked_add(b) {
        Some(count) if count <= LONGEST => Ok(count),
        _ => Err(Raised::StringTooLong),
    }
}

/// `len s`: how many characters a string has.
pub fn text_len(text: &[char]) -> i32
    requires { length text.now ≤ longest }
    ensures { result ≡ pos (length text.now) }
{
    text.len() as i32
}

/// `s[i]`: the code of a character.
///
/// # Errors
/// `ArrayBounds` exactly where the index isn't from 0 on and below the length.
pub fn character_in(text: &[char], i: i32) -> Result<i32, Raised>
    ensures { result ≡ character_in text.now i }
{
    let index = index_in(text.len(), i)?;
    Ok(text[index] as i32)
}

/// `s[i:j]`: the characters from i on, before j.
///
/// # Errors
/// `ArrayBounds` exactly where the bounds aren't from 0 to the length or fall.
pub fn slice_in(text: &[char], from: i32, to: i32) -> Result<&[char], Raised>
    ensures { result_map_both (λ part. part.now) (λ e. e) result ≡ slice_in text.now from to }
{
    let (from, to) = bounds_in(text.len(), from, to)?;
    Ok(&text[from..to])
}

/// `s + t`: the characters of one string behind those of the other.
///
/// # Errors
/// `Raises(StringTooLong)` exactly where these are more than 16,777,216; `NoMemory`.
pub fn join(alloc: Global, a: &[char], b: &[char]) -> Result<Text, JoinFault>
    ensures { Gives raised_in (λ text. text) result (joined a.now b.now) }
{
    match joined_len(a.len(), b.len()) {
        Ok(count) => {
            let mut chars = Vec::with_capacity(alloc, count)?;
            chars.extend_from_slice(a)?;
            chars.extend_from_slice(b)?;
            Ok(Text::from_vec(chars))
        }
        Err(raised) => Err(JoinFault::Raises(raised)),
    }
}

/// Whether a comparison holds of two strings.
pub fn compare_texts(comparison: Comparison, a: &[char], b: &[char]) -> bool
    ensures { result ≡ text_compared comparison a.now b.now }
{
    comparison.is_met(a.cmp(b))
}
