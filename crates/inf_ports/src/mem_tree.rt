ghost use Rattle.std.specs.Prelude.{◌≡◌, option_copied};
ghost use Rattle.inf_ports.specs.Memory.{bytes_at};

use crate::host_tree::{HostFault, HostTree};
use crate::plan::Plan;
use inf_text::{Seq, Text};
use std::alloc::Global;

/// Files in memory, which tell what they hold, with a list of calls that fail.
#[derive(Drop)]
pub struct MemTree {
    files: Vec<(Text, Seq<u8>)>,
    plan: Plan,
}

impl MemTree {
    ghost use Rattle.std.specs.Prelude.{Some};
    ghost use Rattle.inf_ports.specs.Memory.{IsFresh};

    /// A tree with these files; of two with one path the first counts. Reads and writes whose numbers are listed fail,
    /// counted together from 0. It takes no memory.
    pub fn new(files: Vec<(Text, Seq<u8>)>, failing: Vec<u64>) -> MemTree
        ensures told { ⟦<MemTree as HostTree>⟧.told result ≡ Some (bytes_at files.items) }
        ensures unused { ⟦<MemTree as HostTree>⟧.faults result ≡ 0 }
        ensures planned { IsFresh result.plan failing.items }
    {
        MemTree {
            files,
            plan: Plan::new(failing),
        }
    }
}

/// The bytes of the first of these files whose path this is.
fn find<'a>(files: &'a Vec<(Text, Seq<u8>)>, path: &Text) -> Option<&'a [u8]>
    ensures { option_copied result ≡ bytes_at files.now.items path.now }
{
    files
        .iter()
        .find(|(name, _)| name == path)
        .map(|(_, bytes)| bytes.as_slice())
}

impl HostTree for MemTree {
    ghost use Rattle.std.specs.Prelude.{Some, None, IfOk, OnOk, OnErr, IsErrOf, ◌↔◌, ◌≤◌, ◌⊎◌, ◌∷◌};
    ghost use Rattle.inf_ports.specs.Outside.{Rose};
    ghost use Rattle.inf_ports.specs.Memory.{Called, FailsNext};

    ghost told = { λ tree. Some (bytes_at tree.files.items) };

    ghost faults = { λ tree. tree.plan.faults };

    fn faults(&self) -> u64 {
        self.plan.faults()
    }

    // The trait's clauses at what this tree tells, and that a call fails exactly where it is listed.
    fn read_file(&mut self, alloc: Global, path: &Text) -> Result<Vec<u8>, HostFault>
        ensures found { IfOk result (λ bytes. bytes_at self.old.files.items path.now ≡ Some bytes.items) }
        ensures missing { IsErrOf result HostFault.NoFile → bytes_at self.old.files.items path.now ≡ None }
        ensures listed { IsErrOf result HostFault.Failed ↔ FailsNext self.old.plan }
        ensures failed { IsErrOf result HostFault.Failed → Rose self.old.plan.faults self.new.plan.faults }
        ensures quiet { IsErrOf result HostFault.Failed ⊎ (self.new.plan.faults ≡ self.old.plan.faults) }
        ensures later { self.old.plan.faults ≤ self.new.plan.faults }
        ensures kept { self.new.files ≡ self.old.files }
        ensures called { Called self.old.plan self.new.plan }
    {
        if self.plan.is_next_failing() {
            self.plan.fault();
            return Err(HostFault::Failed);
        }
        let Some(bytes) = find(&self.files, path) else {
            return Err(HostFault::NoFile);
        };
        Ok(Vec::from_slice(alloc, bytes)?)
    }

    // The trait's clauses at what this tree tells: the file stands before all others, of which one with its path counts no more. A call
    // fails exactly where it is listed, and what is refused leaves the files as they were.
    fn write_file(&mut self, alloc: Global, path: &Text, bytes: &[u8]) -> Result<(), HostFault>
        ensures first { OnOk result (self.new.files.items ≡ (path.now, bytes.now) ∷ self.old.files.items) }
        ensures refused { OnErr result (self.new.files.items ≡ self.old.files.items) }
        ensures unsought { ¬ IsErrOf result HostFault.NoFile }
        ensures listed { IsErrOf result HostFault.Failed ↔ FailsNext self.old.plan }
        ensures failed { IsErrOf result HostFault.Failed → Rose self.old.plan.faults self.new.plan.faults }
        ensures quiet { IsErrOf result HostFault.Failed ⊎ (self.new.plan.faults ≡ self.old.plan.faults) }
        ensures later { self.old.plan.faults ≤ self.new.plan.faults }
        ensures called { Called self.old.plan self.new.plan }
    {
        if self.plan.is_next_failing() {
            self.plan.fault();
            Err(HostFault::Failed)
        } else {
            let bytes = Seq::from_vec(Vec::from_slice(alloc, bytes)?);
            let path = path.clone()?;
            match self.files.insert(0, (path, bytes)) {
                Ok(()) => Ok(()),
                Err(_) => Err(HostFault::NoMemory),
            }
        }
    }
}
