//! The base name of a file.

ghost use Rattle.std.specs.Prelude.{◌≡◌, ◌≤◌, ◌↔◌, length, IsTrue, IfOk, encode_utf8_all};
ghost use Rattle.inferno_command.specs.Base.{last_name, without_ending, base_name, has_short_name};

use inf_text::Text;
use std::alloc::{AllocError, Global};

/// How many bytes of UTF-8 the base name of a file may take.
const BASE_NAME_BYTES: usize = 250;

/// What follows the last `/` of a path, or all of it.
fn last_name(path: &[char]) -> &[char]
    ensures { result.now ≡ last_name path.now }
{
    let mut start = path.len();
    while start > 0 && path[start - 1] != '/' {
        start -= 1;
    }
    &path[start..]
}

/// A file's name without a last `.b` or `.dis`.
fn without_ending(name: &[char]) -> &[char]
    ensures { result.now ≡ without_ending name.now }
{
    if let Some(stem) = name.strip_suffix(&['.', 'b']) {
        return stem;
    }
    name.strip_suffix(&['.', 'd', 'i', 's']).unwrap_or(name)
}

/// The base name of a file: what follows its last `/`, without a last `.b` or `.dis`.
///
/// # Errors
/// Want of memory.
pub fn base_name(alloc: Global, path: &Text) -> Result<Text, AllocError>
    ensures { IfOk result (λ name. name ≡ base_name path.now) }
{
    let mut name = Text::new(alloc);
    name.push_all(without_ending(last_name(path.as_slice())))?;
    Ok(name)
}

/// Whether the characters take at most so many bytes of UTF-8.
fn fits_in(chars: &[char], bytes: usize) -> bool
    ensures { IsTrue result ↔ (length (encode_utf8_all chars.now) ≤ bytes) }
{
    let mut left = bytes;
    for c in chars {
        let taken = c.len_utf8();
        if taken > left {
            return false;
        }
        left -= taken;
    }
    true
}

/// Whether the base name of a file isn't too long.
pub(crate) fn has_short_name(path: &Text) -> bool
    ensures { result ≡ has_short_name path.now }
{
    fits_in(without_ending(last_name(path.as_slice())), BASE_NAME_BYTES)
}
