//! The machine of numbers and the machine with memory do the same, wherever what the first does isn't a fault. No code stands here,
//! only definitions and laws: what is proved of programs over the first machine is to hold over the second by them.
//!
//! `specs/` in the order of reading: `Agreement` (when two states agree for a process, and when both machines did the same), `Laws` (that
//! an instruction and a reply do), `Runs` (when whole machines agree, that openings, instructions and journals keep them so, and back),
//! `Faultless` (when today's machine never faults).
//!
//! In `proofs/` an access to one memory follows an access to another (`Following`): `Blocks`, `Reading` and `Storing` say so of what
//! operands name, `Formatting` of prints, `Moving` of moved words, `Controlling` of calls, modules and prints; `Steps` goes through the
//! instructions, `Answers` through replies. `Traces` and `Together` say what one effect does to all processes, `Runs` puts these together,
//! `Returning` goes back from the machine with memory, `Openings` is how both begin, and `Faultless` takes journals one instruction at a
//! time. `Examples` works out an instruction each, where both machines do the same and where today's faults.
#![tactic(auto)]

mod laws;

pub use laws::{
    answers_agree, openings_agree, programs_run_alike, right_never_faults, runs_agree, runs_return,
    steps_agree, turns_agree,
};
