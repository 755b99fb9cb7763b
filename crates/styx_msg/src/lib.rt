//! The messages of Styx (9P2000) (Inferno Programmer's Manual, section 5).
//!
//! `specs/Styx` is the grammar: `t_row` and `r_row` give each message's type and fields, and `spelling` their one spelling; `Answers`
//! says what a call that writes or reads messages answers. `styx_encoding` writes messages and `styx_decoding` reads them, exact in both
//! directions. What requests, servers and links send stands on these.
#![tactic(auto)]

mod fault;
mod message;

pub use fault::StyxFault;
pub use message::{
    Decoded, MESSAGE_MAX, MESSAGE_MIN, NOFID, NOTAG, Qid, Rmsg, Stat, TEXT_MAX, Tmsg, WALK_MAX,
};
