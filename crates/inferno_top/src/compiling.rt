//! Compiles a source to an object file.

ghost use Rattle.std.specs.Prelude.{◌≡◌, ◌≤◌, ◌⊎◌};
ghost use Rattle.inferno_top.specs.Compiling.{IsLeft, write_cause};

use crate::cause::{Aim, Cause};
use crate::reading::{read_source, unread};
use inf_ports::HostTree;
use inf_text::Text;
use limbo_command::{WriteEnd, write_at};
use std::alloc::Global;

/// What an end of a write at the path is told as, unless memory runs out for its name.
fn write_cause(out: &Text, end: WriteEnd) -> Cause
    ensures { (result ≡ write_cause out.now end) ⊎ (result ≡ Cause.NoMemory) }
{
    match end {
        WriteEnd::Done => Cause::Done,
        WriteEnd::Failed => unread(out, false),
        WriteEnd::NoMemory => Cause::NoMemory,
    }
}

/// Compiles the file at the path, and writes its object to the other one, where there is no cause not to.
pub fn compile_file<H: HostTree>(alloc: Global, path: &Text, out: &Text, files: &mut H) -> Cause
    ensures left { IsLeft (H.told files.old) (H.told files.new) path.now out.now (H.faults files.old) (H.faults files.new) result }
    ensures later { H.faults files.old ≤ H.faults files.new }
{
    match read_source(alloc, Aim::Write, path, files) {
        Ok(object) => write_cause(out, write_at(alloc, out, &object, files)),
        Err(cause) => cause,
    }
}
