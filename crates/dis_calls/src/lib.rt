//! Frames, calls and jumps of the machine with memory, as a program beside the definition of dis_memory.
//!
//! A frame that is made refers to the instance of the one that runs (`make_frame`); a call lets it run, and the one that calls waits
//! below it (`call`); a return lets go of all that the frame refers to (`give_back`). What an instruction may come to beside going on,
//! `Does` says. `Comes` of `specs/` is the form of contract: the definition's effect, and memory that stands as after it and its cut.
//!
//! In the order of reading: `outcome`, `letting` (frames that go), `jumps`, `calls`, `making`. The crates of modules and of the whole
//! machine stand on it.
#![tactic(auto)]

mod calls;
mod jumps;
mod letting;
mod making;
mod outcome;

pub use calls::{call, give_back, made_at};
pub use jumps::jmp;
pub use letting::let_go;
pub use making::make_frame;
pub use outcome::Does;
