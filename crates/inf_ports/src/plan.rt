ghost use Rattle.std.specs.Prelude.{◌≡◌, ◌+◌, ◌-◌, ◌^◌, ◌≤◌, ◌↔◌, min, IsTrue};
ghost use Rattle.inf_ports.specs.Memory.{FailsNext, IsFresh};

/// Which calls of a form in memory fail: those whose numbers, counted from 0, are listed.
#[derive(Drop)]
pub struct Plan {
    failing: Vec<u64>,
    calls: u64,
    faults: u64,
}

impl Plan {
    /// No call was made yet. It takes no memory.
    pub fn new(failing: Vec<u64>) -> Plan
        ensures { IsFresh result failing.items }
    {
        Plan {
            failing,
            calls: 0,
            faults: 0,
        }
    }

    /// How many calls have failed.
    pub fn faults(&self) -> u64
        ensures { result ≡ self.now.faults }
    {
        self.faults
    }

    /// Counts a fault. The count stays at `u64::MAX` once it is there.
    pub fn fault(&mut self)
        ensures counted { self.new ≡ record self.old { faults = min (self.old.faults + 1) (2 ^ 64 - 1) } }
        ensures later { self.old.faults ≤ self.new.faults }
    {
        self.faults = self.faults.saturating_add(1);
    }

    /// Counts a call, and tells whether it is to fail.
    pub fn is_next_failing(&mut self) -> bool
        ensures listed { IsTrue result ↔ FailsNext self.old }
        ensures counted { self.new ≡ record self.old { calls = min (self.old.calls + 1) (2 ^ 64 - 1) } }
    {
        let call = self.calls;
        self.calls = self.calls.saturating_add(1);
        self.failing.contains(&call)
    }
}
