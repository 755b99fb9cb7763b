//! What processes told, as far as it is kept.

ghost use Rattle.std.specs.Prelude.{◌≡◌, ◌++◌, map, None, ℕ, OnOk};
ghost use Rattle.std.specs.Option.{option_map};
ghost use Rattle.dis_machine.specs.Journal.{fault_in};
ghost use Rattle.dis_machine.specs.Running.{told_by};
ghost use Rattle.dis_machine.specs.Frames.{requests};
ghost use Rattle.dis_machine.specs.Ends.{breaches};
ghost use Rattle.dis_machine.specs.Kept.{view_broken, view_fault, frames_on};

use crate::running::Turn;
use inf_text::Text;
use std::alloc::AllocError;
use sys_print::Request;

/// A process that broke: its number, and with what text.
#[derive(Drop)]
pub struct Broken {
    pub pid: u32,
    pub text: Text,
}

/// Where a process came to a wrong instruction: the number of the fault, and the place in its code.
#[derive(Clone, Copy, PartialEq, Eq, Debug)]
pub struct Faulted {
    pub number: u32,
    pub pc: u64,
}

/// What is kept of what was told.
#[derive(Drop)]
pub struct Outcome {
    /// The requests that weren't handed over yet, the oldest first.
    pub outbox: Vec<Request>,
    /// The processes that broke, in order.
    pub broken: Vec<Broken>,
    /// The wrong instruction that ended the run, if one did.
    pub fault: Option<Faulted>,
}

impl Outcome {
    ghost use Rattle.dis_machine.specs.Kept.{HasRoom, SameOutcome};

    /// Makes room for what one quantum or reply may tell: a request, and a process that broke.
    pub(crate) fn make_room(&mut self) -> Result<(), AllocError>
        ensures room { OnOk result (HasRoom self.new) }
        ensures same { SameOutcome self.old self.new }
    {
        self.outbox.reserve(1)?;
        self.broken.reserve(1)?;
        Ok(())
    }

    /// Keeps what an instruction of the process told. There is room for it.
    pub(crate) fn tell(&mut self, last: Turn)
        requires room { HasRoom self.old }
        requires sound { self.old.fault ≡ None }
        ensures asked { (link : ℕ)
            → frames_on link self.new.outbox.items ≡ frames_on link self.old.outbox.items ++ requests link (told_by last) }
        ensures broke { map view_broken self.new.broken.items ≡ map view_broken self.old.broken.items ++ breaches (told_by last) }
        ensures faulted { option_map view_fault self.new.fault ≡ fault_in (told_by last) }
    {
        match last {
            Turn::Went => {}
            Turn::Asked(request) => self.outbox.push_reserved(request),
            Turn::Ended => {}
            Turn::Broken(text) => self.broken.push_reserved(Broken { pid: 1, text }),
            Turn::Fault { number, pc } => self.fault = Some(Faulted { number, pc }),
            Turn::NoMemory => {}
        }
    }
}
