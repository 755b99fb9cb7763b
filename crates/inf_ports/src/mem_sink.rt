ghost use Rattle.std.specs.Prelude.{◌≡◌, ◌≤◌, vec_len, vec_capacity};

use crate::plan::Plan;
use crate::sink::{Failed, Sink};
use std::alloc::{AllocError, Global};

/// A sink in memory, which tells the bytes that it has taken, with room for a stated number of them and a list of
/// calls that fail.
#[derive(Drop)]
pub struct MemSink {
    bytes: Vec<u8>,
    room: usize,
    plan: Plan,
    ghost reserved: { room ≤ vec_capacity bytes },
    ghost fits: { vec_len bytes ≤ room },
}

impl MemSink {
    ghost use Rattle.std.specs.Prelude.{IfOk, Some, []};
    ghost use Rattle.inf_ports.specs.Memory.{IsFresh};

    /// A sink without bytes that takes `room` of them. Writes whose numbers are listed fail, counted from 0.
    ///
    /// # Errors
    /// Want of memory.
    pub fn new(alloc: Global, room: usize, failing: Vec<u64>) -> Result<MemSink, AllocError>
        ensures empty { IfOk result (λ sink. ⟦<MemSink as Sink>⟧.held sink ≡ Some []) }
        ensures unused { IfOk result (λ sink. ⟦<MemSink as Sink>⟧.faults sink ≡ 0) }
        ensures roomy { IfOk result (λ sink. sink.room ≡ room) }
        ensures planned { IfOk result (λ sink. IsFresh sink.plan failing.items) }
    {
        let bytes = Vec::with_capacity(alloc, room)?;
        Ok(MemSink {
            bytes,
            room,
            plan: Plan::new(failing),
        })
    }

    /// The bytes that were taken.
    pub fn as_slice(&self) -> &[u8]
        ensures { ⟦<MemSink as Sink>⟧.held self.now ≡ Some result.now }
    {
        self.bytes.as_slice()
    }
}

impl Sink for MemSink {
    ghost use Rattle.std.specs.Prelude.{◌+◌, ◌-◌, ◌<◌, ◌++◌, ◌⊎◌, min, take, length, Some, IfOk, IsErr, OnErr};
    ghost use Rattle.inf_ports.specs.Outside.{Rose};
    ghost use Rattle.inf_ports.specs.Memory.{Called, FailsNext};

    ghost held = { λ sink. Some sink.bytes.items };

    ghost faults = { λ sink. sink.plan.faults };

    fn faults(&self) -> u64 {
        self.plan.faults()
    }

    // The trait's clauses at what this sink tells, and that a call fails only where it is listed or finds no room.
    fn write_some(&mut self, piece: &[u8]) -> Result<usize, Failed>
        ensures fits { IfOk result (λ n. n ≡ min (self.old.room - vec_len self.old.bytes) (length piece.now)) }
        ensures progress { IfOk result (λ n. 0 < length piece.now → 0 < n) }
        ensures taken { IfOk result (λ n. self.new.bytes.items ≡ self.old.bytes.items ++ take n piece.now) }
        ensures kept { OnErr result (self.new.bytes.items ≡ self.old.bytes.items) }
        ensures listed { FailsNext self.old.plan → IsErr result }
        ensures cause { OnErr result (FailsNext self.old.plan ⊎ (vec_len self.old.bytes ≡ self.old.room)) }
        ensures failed { OnErr result (Rose self.old.plan.faults self.new.plan.faults) }
        ensures later { self.old.plan.faults ≤ self.new.plan.faults }
        ensures same_room { self.new.room ≡ self.old.room }
        ensures called { Called self.old.plan self.new.plan }
    {
        let free = self.room - self.bytes.len();
        let is_full = free == 0 && !piece.is_empty();
        if self.plan.is_next_failing() || is_full {
            self.plan.fault();
            return Err(Failed);
        }
        let count = free.min(piece.len());
        self.bytes.extend_from_slice(&piece[..count]).unwrap();
        Ok(count)
    }
}
