//! The bytes at a path.

ghost use Rattle.std.specs.Prelude.{◌≡◌, ◌≤◌, IfOk, IfErr, IfSome, IfNone};
ghost use Rattle.source_files.specs.Files.{Gives, AtPath, IsMissing, IsRefusal};

use crate::built_in::built_in;
use crate::fault::FilesFault;
use inf_ports::{HostFault, HostTree};
use inf_text::Text;
use std::alloc::Global;

/// The bytes of the text at a path, if one is there: a built-in text under its name, and else the file's.
///
/// # Errors
/// `Failed` where the read failed; want of memory.
pub(crate) fn bytes_at<H: HostTree>(
    alloc: Global,
    path: &Text,
    files: &mut H,
) -> Result<Option<Vec<u8>>, FilesFault>
    ensures found { IfOk result (λ o. IfSome o (λ bytes. Gives (H.told files.old) path.now bytes.items)) }
    ensures missing { IfOk result (λ o. IfNone o (IsMissing (H.told files.old) path.now)) }
    ensures failed { IfErr result (λ e. IsRefusal (H.told files.old) (H.faults files.old) (H.faults files.new) e) }
    ensures own { IfErr result (AtPath (λ p. p ≡ path.now)) }
    ensures kept { H.told files.new ≡ H.told files.old }
    ensures later { H.faults files.old ≤ H.faults files.new }
{
    if let Some(text) = built_in(path) {
        return Ok(Some(Vec::from_slice(alloc, text.as_bytes())?));
    }
    match files.read_file(alloc, path) {
        Ok(bytes) => Ok(Some(bytes)),
        Err(HostFault::NoMemory) => Err(FilesFault::NoMemory),
        Err(HostFault::NoFile) => Ok(None),
        Err(HostFault::Failed) => Err(FilesFault::Failed {
            path: path.clone()?,
        }),
    }
}
