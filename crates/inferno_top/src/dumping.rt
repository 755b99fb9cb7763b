//! What a dump is told as.

ghost use Rattle.std.specs.Prelude.{◌≡◌, ◌⊎◌};
ghost use Rattle.inferno_top.specs.Dumping.{dump_cause};

use crate::cause::Cause;
use crate::reading::unread;
use dis_dump::DumpEnd;
use dis_format::FileFault;
use inf_text::Text;

/// The bytes at the path are no object.
fn bad_object(path: &Text, fault: FileFault) -> Cause
    ensures { (result ≡ Cause.BadObject path.now fault) ⊎ (result ≡ Cause.NoMemory) }
{
    match path.clone() {
        Ok(file) => Cause::BadObject { file, fault },
        Err(_) => Cause::NoMemory,
    }
}

/// What an end of a dump of the file at the path is told as, unless memory runs out for its name.
pub fn dump_cause(path: &Text, end: DumpEnd) -> Cause
    ensures { (result ≡ dump_cause path.now end) ⊎ (result ≡ Cause.NoMemory) }
{
    match end {
        DumpEnd::Done => Cause::Done,
        DumpEnd::BadObject { fault } => bad_object(path, fault),
        DumpEnd::Unread { missing } => unread(path, missing),
        DumpEnd::SinkFault { out, err } => Cause::SinkFault { out, err },
        DumpEnd::NoMemory => Cause::NoMemory,
    }
}
