use inf_text::Seq;

/// Why a link went down.
#[derive(Drop, Debug, PartialEq, Eq)]
pub enum Why {
    /// A read or a write on the link failed. `count` is the link's count of faults then.
    Faulted { count: u64 },
    /// The link's input ended, behind these bytes of an unfinished message.
    Ended { rest: Seq<u8> },
    /// The link brought these bytes, which aren't a message that was due.
    Bad { frame: Seq<u8> },
}
