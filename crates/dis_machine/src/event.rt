use inf_ports::Why;
use inf_text::Seq;

/// What happened to a machine.
#[derive(Drop, Debug, PartialEq, Eq)]
pub enum Event {
    /// A process ran so many instructions.
    Quantum { pid: u32, count: u32 },
    /// A reply came on a link.
    Reply { link: u32, frame: Seq<u8> },
    /// A link went down.
    Down { link: u32, why: Why },
}

/// What happened to a machine, in the order in which it did.
#[derive(Drop, Debug, PartialEq, Eq)]
pub struct Journal {
    pub events: Seq<Event>,
}
