//! How far a machine with memory stays from the ends of its counts: how many blocks a run makes, and how many references to one block it
//! comes to have. The code counts each in 64 bits, and the laws say that no run which the command can have needs more, with room for what
//! an instruction holds on its way. No code stands here, only definitions and laws.
//!
//! `specs/` has one page, `Limits`.
//!
//! In `proofs/` `Lengths` says that stores keep how many words there are, `Fitting` what a world and a process have, at most, where it is
//! left open how many words a block or a frame may have. `Walking` goes through the instructions once: each makes at most one block and
//! one frame, each with words that fit. `Running` takes that over runs, `Beginning` says it of what a machine begins with. `Blocks` has
//! the law of blocks, where any number of words fits, and `References` that of references, where 2^27 words do: references to a block are
//! no more than there are words and frames.
#![tactic(auto)]

mod laws;

pub use laws::{blocks_stay_few, limits_stay_far};
