//! The machine, and its quanta.

ghost use Rattle.std.specs.Prelude.{◌≡◌, ◌+◌, ◌-◌, ◌<◌, ◌≤◌, ℕ, false, None, OnOk, OnErr, IfOk, IfErr, is_err, length, []};
ghost use Rattle.std.specs.Vec.{vec_len, vec_capacity};
ghost use Rattle.dis_steps.specs.Codes.{objects_of};
ghost use Rattle.dis_machine.specs.Kept as kept;
ghost use Rattle.dis_machine.specs.Kept.{IsKept};
ghost use Rattle.dis_machine.specs.Loaded.{HaveAll, have_all_once};
ghost use Rattle.dis_machine.specs.Sets.{kept_once};

use crate::doing::Doing;
use crate::event::Event;
use crate::outcome::Outcome;
use crate::reply::ReplyFault;
use crate::running::{Turn, Turns};
use crate::state::Running;
use dis_code::Code;
use dis_file::Object;
use dis_loading::{Loaded, load};
use dis_opening::{Opened, StartFault, open};
use inf_text::{Seq, Text};
use std::alloc::{AllocError, Global};

/// The machine: a process of the first of its objects, what it asks, and the journal of what happened, which leads to the state that
/// the machine is in. The journal has at most as many quanta as the limit.
#[derive(Drop)]
pub struct Machine {
    /// The objects, each with its numbers in the tables of memory.
    pub codes: Vec<(Text, Code)>,
    /// Room for the objects, which are handed back in the end.
    pub back: Vec<(Text, Object)>,
    pub limit: u64,
    pub running: Running,
    pub outcome: Outcome,
    pub journal: Vec<Event>,
    /// How many quanta the journal has.
    pub entered: u64,
    /// How many instructions the last quantum had, where want of memory cut it short.
    pub cut: Option<u32>,
    /// Memory ran out. Nothing happens any more.
    pub lacks: bool,
    ghost kept: { IsKept (objects_of codes.items) limit journal.items entered cut lacks running outcome } by { kept_once (objects_of codes.items) limit journal.items entered cut lacks running outcome },
    ghost loaded: { HaveAll running.memory.tables codes.items } by { have_all_once running.memory.tables codes.items },
    // The entry of a quantum takes no memory, nor does what is handed back in the end.
    ghost room: { vec_len journal + (limit - entered) ≤ vec_capacity journal },
    ghost empty: { back.items ≡ [] },
    ghost enough: { vec_len codes ≤ vec_capacity back },
}

/// What a machine is started with: objects by their base names, the first of which it runs, and how many quanta it may have.
#[derive(Drop)]
pub struct Setup {
    pub objects: Vec<(Text, Object)>,
    pub limit: u64,
}

/// A quantum that had so many instructions when memory ran out. One that had none isn't entered.
fn cut_of(count: u32) -> Option<u32>
    ensures { result ≡ kept.cut_of count }
{
    if count == 0 { None } else { Some(count) }
}

impl Machine {
    ghost use Rattle.dis_machine.specs.Standing.{HasBegun, CanGo, Entered, Stopped, Unchanged, IsRefused, wants_memory, SameOthers, Asks};
    ghost use Rattle.dis_machine.specs.Journal.{codes_of, start_of};
    ghost use Rattle.dis_machine.specs.Kept.{HasRoom, SameOutcome};

    /// A machine that is about to run the first of its objects.
    ///
    /// # Errors
    /// `Malformed` exactly where no machine of the object can begin; `NoMemory`.
    pub fn start(alloc: Global, setup: Setup) -> Result<Machine, StartFault>
        requires some { 0 < length setup.objects.items }
        requires limit { (1 ≤ setup.limit) × (setup.limit ≤ 10000000) }
        ensures begun { IfOk result (HasBegun setup.objects.items setup.limit) }
        ensures refused { result ≡ Err StartFault.Malformed → start_of (codes_of setup.objects.items) ≡ None }
    {
        let Setup { objects, limit } = setup;
        let back = Vec::with_capacity(alloc, objects.len())?;
        let Loaded { tables, codes } = load(alloc, objects)?;
        let Opened { memory, process } = match open(alloc, tables, &codes[0].1) {
            Ok(opened) => opened,
            Err(fault) => return Err(fault),
        };
        let journal = Vec::with_capacity(alloc, limit as usize)?;
        Ok(Machine {
            codes,
            back,
            limit,
            running: Running {
                process,
                doing: Doing::Ready,
                memory,
            },
            outcome: Outcome {
                outbox: Vec::new(alloc),
                broken: Vec::new(alloc),
                fault: None,
            },
            journal,
            entered: 0,
            cut: None,
            lacks: false,
        })
    }

    /// Runs a process that is ready until it isn't, or has had 2,048 instructions, and enters that.
    ///
    /// # Errors
    /// Want of memory. Then nothing happens any more. The instructions that there were before count as a quantum that was cut short.
    pub fn quantum(&mut self, alloc: Global, pid: u32) -> Result<(), AllocError>
        requires able { self.old.lacks ≡ false }
        requires ready { CanGo self.old pid }
        requires left { self.old.entered < self.old.limit }
        ensures went { OnOk result ((count : ℕ) × Entered self.old self.new (Event.Quantum pid count)) }
        ensures asks { OnOk result (Asks self.old self.new) }
        ensures stopped { OnErr result (Stopped self.old self.new) }
        ensures lacks { self.new.lacks ≡ is_err result }
    {
        let Ok(()) = self.outcome.make_room() else {
            self.lacks = true;
            return Err(AllocError);
        };
        let Turns { count, last } = self.running.run(alloc, &self.codes);
        match last {
            Turn::NoMemory => {
                self.cut = cut_of(count);
                self.lacks = true;
                Err(AllocError)
            }
            last => {
                self.outcome.tell(last);
                self.journal.push_reserved(Event::Quantum { pid, count });
                self.entered += 1;
                Ok(())
            }
        }
    }

    /// Makes room for what a reply may tell, and for its entry beside those of the quanta that are left.
    fn make_room(&mut self) -> Result<(), AllocError>
        ensures room { OnOk result (HasRoom self.new.outcome) }
        ensures entry { OnOk result (vec_len self.new.journal + (self.new.limit - self.new.entered) < vec_capacity self.new.journal) }
        ensures same { SameOutcome self.old.outcome self.new.outcome }
        ensures journal { self.new.journal.items ≡ self.old.journal.items }
        ensures others { SameOthers self.old self.new }
    {
        self.outcome.make_room()?;
        let quanta = (self.limit - self.entered) as usize;
        self.journal.reserve(quanta + 1)?;
        Ok(())
    }

    /// Enters a reply of a link, and lets the process hear it that waits for it.
    ///
    /// # Errors
    /// `Refused` exactly where no event happens by it; then nothing changes. `NoMemory`, after which nothing happens any more.
    pub fn take_reply(&mut self, alloc: Global, link: u32, frame: Vec<u8>) -> Result<(), ReplyFault>
        requires able { self.old.lacks ≡ false }
        ensures entered { OnOk result (Entered self.old self.new (Event.Reply link frame.items)) }
        ensures asks { OnOk result (Asks self.old self.new) }
        ensures unchanged { OnErr result (Unchanged self.old self.new) }
        ensures refused { IfErr result (IsRefused self.old link frame.items) }
        ensures lacks { self.new.lacks ≡ wants_memory result }
    {
        let Ok(reply) = self.running.reply_on(alloc, link, &frame) else {
            self.lacks = true;
            return Err(ReplyFault::NoMemory);
        };
        let Some(reply) = reply else {
            return Err(ReplyFault::Refused { frame });
        };
        let Ok(()) = self.make_room() else {
            self.lacks = true;
            return Err(ReplyFault::NoMemory);
        };
        let Some(heard) = self.running.hear(alloc, &reply) else {
            return Err(ReplyFault::Refused { frame });
        };
        match heard {
            Turn::NoMemory => {
                self.lacks = true;
                Err(ReplyFault::NoMemory)
            }
            heard => {
                self.outcome.tell(heard);
                let frame = Seq::from_vec(frame);
                self.journal.push_reserved(Event::Reply { link, frame });
                Ok(())
            }
        }
    }
}
