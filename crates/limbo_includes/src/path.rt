//! The path of the text that an include names.

ghost use Rattle.std.specs.Prelude.{◌≡◌, ◌≤◌, length, take, IfOk};
ghost use Rattle.limbo_includes.specs.Includes as includes;

use inf_text::{Text, is_spelled};
use std::alloc::{AllocError, Global};

// Whether a name is that of a built-in text.
fn is_built_in(name: &Text) -> bool
    ensures { result ≡ includes.is_built_in name.now }
{
    is_spelled(name.as_slice(), "sys.m") || is_spelled(name.as_slice(), "draw.m")
}

// How many characters of a path stand up to and with its last slash.
fn folder_len(path: &[char]) -> usize
    ensures within { result ≤ length path.now }
    ensures folder { take result path.now ≡ includes.folder_of path.now }
{
    let mut end = path.len();
    while end > 0 && path[end - 1] != '/' {
        end -= 1;
    }
    end
}

/// The path of the text that an include names, from the path of the text in which it stands: the name alone for the built-in
/// texts `sys.m` and `draw.m`, and else the including text's folder and the name, not cleaned (Limbo Language Reference,
/// include).
///
/// # Errors
/// Want of memory.
pub fn target(alloc: Global, including: &Text, written: &Text) -> Result<Text, AllocError>
    ensures { IfOk result (λ path. path ≡ includes.target including.now written.now) }
{
    if is_built_in(written) {
        return written.clone();
    }
    let folder = folder_len(including.as_slice());
    let mut path = Text::new(alloc);
    path.push_all(&including.as_slice()[..folder])?;
    path.push_all(written.as_slice())?;
    Ok(path)
}
