//! Instructions of the process that runs, and replies to it.

ghost use Rattle.std.specs.Prelude.{◌≡◌, ◌<◌, ◌≤◌, List, IfSome, MatchOption};
ghost use Rattle.dis_file.specs.declared.object.Object.{Object};
ghost use Rattle.dis_steps.specs.Codes.{objects_of};
ghost use Rattle.dis_steps.specs.Stepping.{AreLoaded};
ghost use Rattle.dis_machine.specs.Running.{stands_after, stands_heard, IsTurn, HadTurns, IsHeard, NotHeard, Sent};

use crate::doing::Doing;
use crate::state::Running;
use dis_code::Code;
use dis_prints::Heard;
use dis_steps::{Stepped, hear, step};
use inf_text::Text;
use std::alloc::Global;
use styx_msg::Rmsg;
use sys_print::Request;

/// How many frames a process may have.
const FRAMES_LIMIT: usize = 10_000;

/// How many instructions the longest quantum has.
const LONGEST: u32 = 2048;

/// What an instruction came to.
#[derive(Drop)]
pub(crate) enum Turn {
    Went,
    Asked(Request),
    Ended,
    Broken(Text),
    Fault { number: u32, pc: u64 },
    NoMemory,
}

/// What a row of instructions came to: how many they were, and what the last one did.
#[derive(Drop)]
pub(crate) struct Turns {
    pub count: u32,
    pub last: Turn,
}

impl Running {
    /// Runs the next instruction of a process that is ready.
    #[inline(always)]
    fn turn(&mut self, alloc: Global, codes: &[(Text, Code)]) -> Turn
        requires ready { self.old.doing ≡ Doing.Ready }
        requires loaded { AreLoaded self.old.memory.tables codes.now }
        ensures turn { IsTurn (objects_of codes.now) self.old self.new result }
        ensures stands { self.new.doing ≡ stands_after result }
        ensures sent { Sent result self.new.process.printing }
        ensures tables { self.new.memory.tables ≡ self.old.memory.tables }
    {
        let pc = self.process.frame.pc;
        match step(
            alloc,
            FRAMES_LIMIT,
            codes,
            &mut self.memory,
            &mut self.process,
        ) {
            Stepped::Went => Turn::Went,
            Stepped::Asked(request) => {
                self.doing = Doing::Asking;
                Turn::Asked(request)
            }
            Stepped::Ended => {
                self.doing = Doing::Gone;
                Turn::Ended
            }
            Stepped::Broken(text) => {
                self.doing = Doing::Gone;
                Turn::Broken(text)
            }
            Stepped::Fault(fault) => {
                self.doing = Doing::Gone;
                Turn::Fault {
                    number: fault.number(),
                    pc: pc as u64,
                }
            }
            Stepped::NoMemory => Turn::NoMemory,
        }
    }

    /// Runs a process that is ready until it isn't, has had the longest quantum, or is refused memory.
    pub(crate) fn run(&mut self, alloc: Global, codes: &[(Text, Code)]) -> Turns
        requires ready { self.old.doing ≡ Doing.Ready }
        requires loaded { AreLoaded self.old.memory.tables codes.now }
        ensures turns { HadTurns (objects_of codes.now) self.old self.new result.count result.last }
        ensures few { result.count ≤ 2048 }
        ensures some { result.count ≡ 0 → result.last ≡ Turn.NoMemory }
        ensures longest { result.last ≡ Turn.Went → result.count ≡ 2048 }
        ensures stands { self.new.doing ≡ stands_after result.last }
        ensures sent { Sent result.last self.new.process.printing }
        ensures tables { self.new.memory.tables ≡ self.old.memory.tables }
    {
        let mut count = 0;
        while count < LONGEST {
            let last = self.turn(alloc, codes);
            match last {
                Turn::Went => count += 1,
                Turn::NoMemory => return Turns { count, last },
                Turn::Asked(_) | Turn::Ended | Turn::Broken(_) | Turn::Fault { .. } => {
                    return Turns {
                        count: count + 1,
                        last,
                    };
                }
            }
        }
        Turns {
            count,
            last: Turn::Went,
        }
    }

    /// What a reply does to a process that waits for one, or `None` where it is none to the process's request.
    pub(crate) fn hear(&mut self, alloc: Global, reply: &Rmsg) -> Option<Turn>
        requires { self.old.doing ≡ Doing.Asking }
        ensures heard { (objects : List Object)
            → MatchOption result (NotHeard objects reply.now self.old self.new) (IsHeard objects reply.now self.old self.new) }
        ensures stands { IfSome result (λ t. self.new.doing ≡ stands_heard t) }
        ensures sent { IfSome result (λ t. Sent t self.new.process.printing) }
        ensures tables { self.new.memory.tables ≡ self.old.memory.tables }
    {
        let pc = self.process.frame.pc;
        match hear(alloc, reply, &mut self.memory, &mut self.process) {
            Heard::Went => {
                self.doing = Doing::Ready;
                Some(Turn::Went)
            }
            Heard::Asked(request) => Some(Turn::Asked(request)),
            Heard::Fault(fault) => {
                self.doing = Doing::Gone;
                Some(Turn::Fault {
                    number: fault.number(),
                    pc: pc as u64,
                })
            }
            Heard::Refused => None,
            Heard::NoMemory => Some(Turn::NoMemory),
        }
    }
}
