//! All that the command `inferno` does, as one call over words, a tree of files and two sinks.
//!
//! `inferno` is that call. Its contract cites `specs/Running.antt` (what a run is, and what it means), `specs/Outcome.antt` (where
//! each cause comes), `specs/Compiling.antt` (what a compiled file leaves), `specs/Dumping.antt` (what a dump leaves),
//! `specs/Closing.antt` (the status and the closing lines), `specs/Built.antt` (which programs are built) and `specs/Faults.antt` (why a
//! source is refused). What the words ask for is said in `inferno_command`, and what a run took in `inferno_stats`. The program
//! `inferno_tool` hands it the real files and streams.
//!
//! Read `cause`, `reading`, `running`, `compiling`, `dumping`, `closing`, `top`.
#![tactic(auto)]

mod cause;
mod closing;
mod compiling;
mod dumping;
mod reading;
mod running;
mod top;

pub use cause::{Aim, Cause, Ended, Place, SourceFault};
pub use closing::close;
pub use top::inferno;
