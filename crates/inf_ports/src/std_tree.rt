ghost use Rattle.std.specs.Prelude.{◌≡◌, ◌≢◌, ◌≤◌, IfOk, IfSome, IsErrOf, vec_len, string_bytes, encode_utf8_all};
ghost use Rattle.std.specs.IoError.{error_kind};

use crate::host_tree::{HostFault, HostTree};
use inf_text::Text;
use std::alloc::{AllocError, Global};
use std::fs;
use std::io::{Error, ErrorKind, Read};
use std::rt::Files;

/// How many bytes of a file are read at most: 1 GiB.
const MOST_BYTES: usize = 1_073_741_824;

/// The real files of a runtime. It tells no content.
#[derive(Drop)]
pub struct StdTree<R> {
    rt: R,
    faults: u64,
}

impl<R: Files> StdTree<R> {
    /// The files of this runtime, with no fault yet.
    pub fn new(rt: R) -> StdTree<R>
        ensures unused { result.faults ≡ 0 }
        ensures over { result.rt ≡ rt }
    {
        StdTree { rt, faults: 0 }
    }
}

/// Want of memory, or any other error of a read or a write.
fn fault_of(error: &Error) -> HostFault
    ensures memory { error_kind error.now ≡ ErrorKind.OutOfMemory → result ≡ HostFault.NoMemory }
    ensures failed { error_kind error.now ≢ ErrorKind.OutOfMemory → result ≡ HostFault.Failed }
{
    match error.kind() {
        ErrorKind::OutOfMemory => HostFault::NoMemory,
        _ => HostFault::Failed,
    }
}

/// All bytes that a reader has left, if they are no more than `MOST_BYTES`.
fn read_bounded<F: Read + Drop>(alloc: Global, file: F) -> Result<Vec<u8>, HostFault>
    ensures whole { IfOk result (λ bytes. IfSome (F.remaining file) (λ left. bytes.items ≡ left)) }
    ensures bounded { IfOk result (λ bytes. vec_len bytes ≤ MOST_BYTES) }
    ensures opened { ¬ IsErrOf result HostFault.NoFile }
{
    let mut bytes = Vec::new(alloc);
    let mut first = file.take(MOST_BYTES as u64 + 1);
    match first.read_to_end(&mut bytes) {
        Ok(count) if count <= MOST_BYTES => Ok(bytes),
        Ok(_) => Err(HostFault::Failed),
        Err(error) => Err(fault_of(&error)),
    }
}

/// The name of a file: the UTF-8 spelling of its path.
fn name_of(alloc: Global, path: &Text) -> Result<String, AllocError>
    ensures { IfOk result (λ name. string_bytes name ≡ encode_utf8_all path.now) }
{
    path.as_slice().iter().copied().collect(alloc)
}

/// The bytes of a file of the runtime.
fn read_from<R: Files>(rt: &R, alloc: Global, path: &Text) -> Result<Vec<u8>, HostFault>
    ensures { IfOk result (λ bytes. vec_len bytes ≤ MOST_BYTES) }
{
    let name = name_of(alloc, path)?;
    match fs::open(rt, name.as_str()) {
        Ok(file) => read_bounded(alloc, file),
        Err(error) => match error.kind() {
            ErrorKind::NotFound => Err(HostFault::NoFile),
            _ => Err(fault_of(&error)),
        },
    }
}

/// Makes these the bytes of a file of the runtime.
fn write_to<R: Files>(rt: &R, alloc: Global, path: &Text, bytes: &[u8]) -> Result<(), HostFault>
    ensures { ¬ IsErrOf result HostFault.NoFile }
{
    let name = name_of(alloc, path)?;
    match fs::write(rt, name.as_str(), bytes) {
        Ok(()) => Ok(()),
        Err(error) => Err(fault_of(&error)),
    }
}

impl<R: Files> HostTree for StdTree<R> {
    ghost use Rattle.std.specs.Prelude.{None, ◌⊎◌};
    ghost use Rattle.inf_ports.specs.Outside.{Rose};

    ghost told = { λ _. None };

    ghost faults = { λ tree. tree.faults };

    fn faults(&self) -> u64 {
        self.faults
    }

    // The trait's clauses, and the bound on what is read.
    fn read_file(&mut self, alloc: Global, path: &Text) -> Result<Vec<u8>, HostFault>
        ensures bounded { IfOk result (λ bytes. vec_len bytes ≤ MOST_BYTES) }
        ensures failed { IsErrOf result HostFault.Failed → Rose self.old.faults self.new.faults }
        ensures quiet { IsErrOf result HostFault.Failed ⊎ (self.new.faults ≡ self.old.faults) }
        ensures later { self.old.faults ≤ self.new.faults }
    {
        let read = read_from(&self.rt, alloc, path);
        if matches!(read, Err(HostFault::Failed)) {
            self.faults = self.faults.saturating_add(1);
        }
        read
    }

    // The trait's clauses.
    fn write_file(&mut self, alloc: Global, path: &Text, bytes: &[u8]) -> Result<(), HostFault>
        ensures unsought { ¬ IsErrOf result HostFault.NoFile }
        ensures failed { IsErrOf result HostFault.Failed → Rose self.old.faults self.new.faults }
        ensures quiet { IsErrOf result HostFault.Failed ⊎ (self.new.faults ≡ self.old.faults) }
        ensures later { self.old.faults ≤ self.new.faults }
    {
        let written = write_to(&self.rt, alloc, path, bytes);
        if matches!(written, Err(HostFault::Failed)) {
            self.faults = self.faults.saturating_add(1);
        }
        written
    }
}
