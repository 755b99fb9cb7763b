ghost use Rattle.std.specs.Prelude.{◌≡◌, ◌≤◌, ◌↔◌, IfOk, IfErr, IsTrue};
ghost use Rattle.inf_ports.specs.Outside.{Has, Rose};
ghost use Rattle.dis_file.specs.declared.object.Object.{Object};
ghost use Rattle.dis_text.specs.Listing.{listing_of};
ghost use Rattle.dis_dump.specs.Dump.{IsObjectAt, IsShown, IsUnlisted, IsDump, unlisted};

use crate::listing::list_bytes;
use dis_format::FileFault;
use inf_ports::{HostFault, HostTree, Sink, write_whole};
use inf_text::Text;
use std::alloc::Global;

/// How a dump ended.
#[derive(Clone, Copy)]
pub enum DumpEnd {
    /// The whole listing was written.
    Done,
    /// The file's bytes are no object.
    BadObject { fault: FileFault },
    /// The file could not be read: it is missing, or the read failed.
    Unread { missing: bool },
    /// A write of output failed. The counts are those of `out` and `err`.
    SinkFault { out: u64, err: u64 },
    /// Want of memory.
    NoMemory,
}

/// The bytes of the file at the path.
///
/// # Errors
/// The file can't be read, or want of memory.
fn read_bytes<H: HostTree>(alloc: Global, path: &Text, files: &mut H) -> Result<Vec<u8>, DumpEnd>
    ensures read { IfOk result (λ bytes. Has (H.told files.old) path.now bytes.items) }
    ensures unread { IfErr result (IsUnlisted (H.told files.old) path.now (H.faults files.old) (H.faults files.new)) }
    ensures kept { H.told files.new ≡ H.told files.old }
    ensures later { H.faults files.old ≤ H.faults files.new }
{
    match files.read_file(alloc, path) {
        Ok(bytes) => Ok(bytes),
        Err(HostFault::NoMemory) => Err(DumpEnd::NoMemory),
        Err(HostFault::NoFile) => Err(DumpEnd::Unread { missing: true }),
        Err(HostFault::Failed) => Err(DumpEnd::Unread { missing: false }),
    }
}

/// What a dump of refused bytes ends as.
fn refused(fault: FileFault) -> DumpEnd
    ensures { result ≡ unlisted fault }
{
    match fault {
        FileFault::NoMemory => DumpEnd::NoMemory,
        fault => DumpEnd::BadObject { fault },
    }
}

/// The listing of the object in the file at the path.
///
/// # Errors
/// The file can't be read, its bytes are no object, or want of memory.
fn read_listing<H: HostTree>(alloc: Global, path: &Text, files: &mut H) -> Result<Vec<u8>, DumpEnd>
    ensures read { IfOk result (λ text. (o : Object) × IsObjectAt (H.told files.old) path.now o × (text.items ≡ listing_of o)) }
    ensures unread { IfErr result (IsUnlisted (H.told files.old) path.now (H.faults files.old) (H.faults files.new)) }
    ensures kept { H.told files.new ≡ H.told files.old }
    ensures later { H.faults files.old ≤ H.faults files.new }
{
    let bytes = match read_bytes(alloc, path, files) {
        Ok(bytes) => bytes,
        Err(end) => return Err(end),
    };
    match list_bytes(alloc, bytes.as_slice()) {
        Ok(text) => Ok(text),
        Err(fault) => Err(refused(fault)),
    }
}

/// Whether a count of faults has risen.
fn has_risen(before: u64, now: u64) -> bool
    ensures { IsTrue result ↔ Rose before now }
{
    before.saturating_add(1) <= now
}

/// Writes a text on `out`, and says how that ended.
fn show<K: Sink, E: Sink>(text: &[u8], out: &mut K, err: &E) -> DumpEnd
    ensures shown { IsShown (record {
      old = K.held out.old;
      new = K.held out.new;
      out_before = K.faults out.old;
      out_after = K.faults out.new;
      err_before = E.faults err.now;
      err_after = E.faults err.now;
    }) text.now result }
    ensures later { K.faults out.old ≤ K.faults out.new }
{
    let out_before = out.faults();
    let err_before = err.faults();
    let _ = write_whole(out, text);
    let out_now = out.faults();
    let err_now = err.faults();
    if has_risen(out_before, out_now) || has_risen(err_before, err_now) {
        return DumpEnd::SinkFault {
            out: out_now,
            err: err_now,
        };
    }
    DumpEnd::Done
}

/// Lists the object in the file at the path on `out`, and says how that ended. `err` is looked at and not written on.
pub fn dump_file<H: HostTree, K: Sink, E: Sink>(
    alloc: Global,
    path: &Text,
    files: &mut H,
    out: &mut K,
    err: &E,
) -> DumpEnd
    ensures dumped { IsDump (H.told files.old) path.now (H.faults files.old) (H.faults files.new) (record {
      old = K.held out.old;
      new = K.held out.new;
      out_before = K.faults out.old;
      out_after = K.faults out.new;
      err_before = E.faults err.now;
      err_after = E.faults err.now;
    }) result }
    ensures kept { H.told files.new ≡ H.told files.old }
    ensures later { (H.faults files.old ≤ H.faults files.new) × (K.faults out.old ≤ K.faults out.new) }
{
    match read_listing(alloc, path, files) {
        Ok(text) => show(text.as_slice(), out, err),
        Err(end) => end,
    }
}
