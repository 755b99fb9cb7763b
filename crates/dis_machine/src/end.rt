/// How a run has ended.
#[derive(Clone, Copy, PartialEq, Eq, Debug)]
pub enum End {
    /// Each process has returned.
    Done,
    /// No process is live, and one broke.
    Broke,
    /// Each live process waits for another. No process waits for another yet, so this isn't answered.
    Stuck,
    /// There were as many quanta as the limit, and a process is live.
    Limit,
    /// A block or a reference past the limits of the heap was needed. No such limit can be met yet, so this isn't answered.
    HeapFull,
    /// A process came to a wrong instruction, at this place of its code; the number says what is wrong with it.
    Faulted { number: u32, pc: u64 },
    /// Memory ran out.
    NoMemory,
}
