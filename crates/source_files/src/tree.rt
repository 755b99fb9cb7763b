//! The tree of the text at a path.

ghost use Rattle.std.specs.Prelude.{◌≡◌, ◌≤◌, IfOk, IfErr, IfSome, IfNone};
ghost use Rattle.limbo_tree.specs.View.{view_source};
ghost use Rattle.source_files.specs.Files.{AtPath, IsMissing, IsSpelled, IsRefusal, IsRefusalOf};

use crate::fault::FilesFault;
use crate::opening::bytes_at;
use crate::text::{TextFault, read_text};
use inf_ports::HostTree;
use inf_text::Text;
use limbo_tree::Source;
use std::alloc::Global;

// The refusal of the text at a path.
fn refusal(path: &Text, fault: TextFault) -> FilesFault
    ensures refused { IsRefusalOf path.now fault result }
    ensures own { AtPath (λ p. p ≡ path.now) result }
{
    let Ok(path) = path.clone() else {
        return FilesFault::NoMemory;
    };
    match fault {
        TextFault::NoMemory => FilesFault::NoMemory,
        TextFault::Lex(fault) => FilesFault::Lex { path, fault },
        TextFault::Parse(fault, span) => FilesFault::Parse { path, fault, span },
    }
}

/// The tree of the included text at a path, if one is there: of a built-in text under its name, and else of the file.
///
/// # Errors
/// `Failed` where the file's read failed; `Lex` and `Parse` where the text is no included text; want of memory.
pub fn tree_at<H: HostTree>(
    alloc: Global,
    path: &Text,
    files: &mut H,
) -> Result<Option<Source>, FilesFault>
    ensures found { IfOk result (λ o. IfSome o (λ tree. IsSpelled (H.told files.old) path.now (view_source tree))) }
    ensures missing { IfOk result (λ o. IfNone o (IsMissing (H.told files.old) path.now)) }
    ensures refused { IfErr result (λ e. IsRefusal (H.told files.old) (H.faults files.old) (H.faults files.new) e) }
    ensures own { IfErr result (AtPath (λ p. p ≡ path.now)) }
    ensures kept { H.told files.new ≡ H.told files.old }
    ensures later { H.faults files.old ≤ H.faults files.new }
{
    let Some(bytes) = bytes_at(alloc, path, files)? else {
        return Ok(None);
    };
    match read_text(alloc, bytes.as_slice()) {
        Ok(tree) => Ok(Some(tree)),
        Err(fault) => Err(refusal(path, fault)),
    }
}
