//! Where a machine stands, what it hands over, and what is left of it.

ghost use Rattle.std.specs.Prelude.{◌≡◌, ◌≢◌, ◌↔◌, ◌++◌, ◌∷◌, [], ℕ, false, map, IsTrue, MatchOption};
ghost use Rattle.dis_meaning.specs.Process.{Process};
ghost use Rattle.std.specs.Prelude.{◌≤◌};
ghost use Rattle.std.specs.Vec.{vec_len, vec_capacity};
ghost use Rattle.dis_machine.specs.Kept.{frames_on, IsOldest};
ghost use Rattle.dis_machine.specs.Standing.{objects_in};

use crate::doing::Doing;
use crate::end::End;
use crate::event::{Event, Journal};
use crate::machine::Machine;
use crate::outcome::Broken;
use crate::state::Running;
use dis_code::Code;
use dis_file::Object;
use inf_text::{Seq, Text};
use sys_print::Request;

/// What is left of a machine: its journal, the objects that it ran, and the processes that broke, in order.
#[derive(Drop)]
pub struct Parts {
    pub journal: Journal,
    pub objects: Vec<(Text, Object)>,
    pub broken: Vec<Broken>,
}

impl Running {
    ghost use Rattle.dis_machine.specs.Doings.{view_doing};
    ghost use Rattle.dis_machine.specs.Ends.{is_live};

    /// Whether the process isn't over.
    fn is_live(&self) -> bool
        ensures { (p : Process) → result ≡ is_live (view_doing self.now.doing p) }
    {
        match self.doing {
            Doing::Ready | Doing::Asking => true,
            Doing::Gone => false,
        }
    }
}

/// The place of the oldest request of a link.
fn oldest(requests: &[Request], link: u32) -> Option<usize>
    ensures { MatchOption result (frames_on link requests.now ≡ []) (IsOldest link requests.now) }
{
    for place in 0..requests.len() {
        if requests[place].link == link {
            return Some(place);
        }
    }
    None
}

// The objects, without their numbers in the tables. There is room for them.
fn handed_back(codes: Vec<(Text, Code)>, back: Vec<(Text, Object)>) -> Vec<(Text, Object)>
    requires empty { back.items ≡ [] }
    requires enough { vec_len codes ≤ vec_capacity back }
    ensures { result.items ≡ objects_in codes.items }
{
    let mut back = back;
    for (name, code) in codes {
        back.push_reserved((name, code.object));
    }
    back
}

impl Machine {
    ghost use Rattle.dis_machine.specs.Journal.{cut_events, quanta, IsSound};
    ghost use Rattle.dis_machine.specs.Ends.{breaches, end_of};
    ghost use Rattle.dis_machine.specs.Kept.{view_broken};
    ghost use Rattle.dis_machine.specs.Standing.{CanGo, codes, objects, told, state, waiting, OnlyOutbox};

    /// The number of a process that can go on, or `None` where there is none.
    pub fn ready(&self) -> Option<u32>
        ensures { MatchOption result ((pid : ℕ) → CanGo self.now pid → ⊥) (CanGo self.now) }
    {
        match self.running.doing {
            Doing::Ready => Some(1),
            Doing::Asking | Doing::Gone => None,
        }
    }

    /// Whether a process of this number can go on.
    pub fn is_ready(&self, pid: u32) -> bool
        ensures { IsTrue result ↔ CanGo self.now pid }
    {
        pid == 1 && self.running.doing == Doing::Ready
    }

    /// How the run has ended, or `None` where it goes on.
    pub fn ended(&self) -> Option<End>
        ensures { result ≡ end_of self.now.lacks self.now.limit (quanta self.now.journal.items) (state self.now) }
    {
        if self.lacks {
            return Some(End::NoMemory);
        }
        let live = self.running.is_live();
        if live && self.entered >= self.limit {
            return Some(End::Limit);
        }
        if let Some(fault) = self.outcome.fault {
            return Some(End::Faulted {
                number: fault.number,
                pc: fault.pc,
            });
        }
        if live {
            return None;
        }
        if self.outcome.broken.is_empty() {
            Some(End::Done)
        } else {
            Some(End::Broke)
        }
    }

    /// The processes that broke, in order.
    pub fn broken(&self) -> &[Broken]
        ensures { map view_broken result.now ≡ breaches (told self.now) }
    {
        &self.outcome.broken
    }

    /// The oldest request of a link that wasn't handed over yet, or `None` where there is none.
    pub fn next_frame(&mut self, link: u32) -> Option<Vec<u8>>
        ensures frame { MatchOption result ((waiting self.old link ≡ []) × (waiting self.new link ≡ []))
            (λ f. waiting self.old link ≡ f.items ∷ waiting self.new link) }
        ensures others { (other : ℕ) → other ≢ link → waiting self.new other ≡ waiting self.old other }
        ensures kept { OnlyOutbox self.old self.new }
    {
        let place = oldest(&self.outcome.outbox, link)?;
        let request = self.outcome.outbox.remove(place);
        Some(request.frame)
    }

    /// What is left of the machine.
    pub fn into_parts(self) -> Parts
        ensures journal { result.journal.events ≡ self.journal.items ++ cut_events self.cut }
        ensures objects { result.objects.items ≡ objects self }
        ensures broken { map view_broken result.broken.items ≡ breaches (told self) }
        ensures sound { self.lacks ≡ false → IsSound (codes self) self.limit result.journal.events (state self) }
    {
        let Machine {
            codes,
            back,
            limit: _,
            running,
            outcome,
            mut journal,
            entered: _,
            cut,
            lacks: _,
        } = self;
        drop(running);
        let objects = handed_back(codes, back);
        if let Some(count) = cut {
            journal.push_reserved(Event::Quantum { pid: 1, count });
        }
        Parts {
            journal: Journal {
                events: Seq::from_vec(journal),
            },
            objects,
            broken: outcome.broken,
        }
    }
}
