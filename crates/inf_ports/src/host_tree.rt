ghost use Rattle.std.specs.Prelude.{◌≡◌, ◌≤◌, ℕ, Some, IfOk, OnOk, OnErr, IsErrOf};
ghost use Rattle.inf_ports.specs.Outside.{Told, Has, Lacks, Stands, AnythingStands, Rose};

use inf_text::Text;
use std::alloc::{AllocError, Global};

/// Why a file was not read or not written.
#[derive(Clone, Copy, PartialEq, Eq, Debug)]
pub enum HostFault {
    /// Want of memory.
    NoMemory,
    /// No file is at the path. Only a read answers it.
    NoFile,
    /// The read or the write failed, and the tree's count of faults rose.
    Failed,
}

impl From<AllocError> for HostFault {
    ghost use Rattle.std.specs.Prelude.{◌≡◌};
    ghost use Rattle.inf_ports.specs.declared.host_tree.HostFault.TheVariants.{NoMemory};

    ghost from_gives = { λ _ e. e ≡ NoMemory };

    fn from(_error: AllocError) -> HostFault {
        HostFault::NoMemory
    }
}

/// A tree of files, each named by its path.
pub trait HostTree {
    /// The bytes at each path, where the tree tells them.
    ghost told: { Self → Told };

    /// How many calls have failed.
    ghost faults: { Self → ℕ };

    /// How many calls have failed. The count never falls, and stays at `u64::MAX` once it is there.
    fn faults(&self) -> u64
        ensures { result ≡ faults self.now };

    /// All bytes of the file at the path.
    ///
    /// # Errors
    /// `NoFile` where no file is there; `Failed`, for which the count rises; `NoMemory`.
    fn read_file(&mut self, alloc: Global, path: &Text) -> Result<Vec<u8>, HostFault>
        ensures found { IfOk result (λ bytes. Has (told self.old) path.now bytes.items) }
        ensures missing { IsErrOf result HostFault.NoFile → Lacks (told self.old) path.now }
        ensures failed { IsErrOf result HostFault.Failed → Rose (faults self.old) (faults self.new) }
        ensures later { faults self.old ≤ faults self.new }
        ensures kept { told self.new ≡ told self.old };

    /// Makes these the bytes of the file at the path, whether a file is there or not.
    ///
    /// # Errors
    /// `Failed`, for which the count rises; `NoMemory`. Then any bytes stand at the path, or no file.
    fn write_file(&mut self, alloc: Global, path: &Text, bytes: &[u8]) -> Result<(), HostFault>
        ensures written { OnOk result (Stands (told self.old) (told self.new) path.now (Some bytes.now)) }
        ensures unwritten { OnErr result (AnythingStands (told self.old) (told self.new) path.now) }
        ensures unsought { ¬ IsErrOf result HostFault.NoFile }
        ensures failed { IsErrOf result HostFault.Failed → Rose (faults self.old) (faults self.new) }
        ensures later { faults self.old ≤ faults self.new };
}
