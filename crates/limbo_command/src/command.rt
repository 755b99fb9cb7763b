ghost use Rattle.std.specs.Prelude.{◌≡◌, ◌≤◌};
ghost use Rattle.dis_format.specs.Objects.{IsValid, written_form};
ghost use Rattle.limbo_command.specs.Write.{IsLeft, unwritten};

use dis_file::Object;
use inf_ports::{HostFault, HostTree};
use inf_text::Text;
use object_bytes::bytes_of;
use std::alloc::Global;

/// How a write ended.
#[derive(Clone, Copy)]
pub enum WriteEnd {
    /// All bytes were written.
    Done,
    /// The write failed.
    Failed,
    /// Want of memory.
    NoMemory,
}

/// What a write that was refused ends as.
fn refused(fault: HostFault) -> WriteEnd
    ensures { result ≡ unwritten fault }
{
    match fault {
        HostFault::NoMemory => WriteEnd::NoMemory,
        HostFault::NoFile | HostFault::Failed => WriteEnd::Failed,
    }
}

/// Makes the written form of a valid object the bytes of the file at the path, and says how that ended.
pub fn write_at<H: HostTree>(alloc: Global, path: &Text, object: &Object, files: &mut H) -> WriteEnd
    requires valid { IsValid object.now }
    ensures left { IsLeft (H.told files.old) (H.told files.new) path.now (written_form object.now)
        (H.faults files.old) (H.faults files.new) result }
    ensures later { H.faults files.old ≤ H.faults files.new }
{
    let Ok(bytes) = bytes_of(alloc, object) else {
        return WriteEnd::NoMemory;
    };
    match files.write_file(alloc, path, bytes.as_slice()) {
        Ok(()) => WriteEnd::Done,
        Err(fault) => refused(fault),
    }
}
