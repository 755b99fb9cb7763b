//! Sources, checked whole, by what the files tell (Limbo Language Reference, modules, include and declarations).
//!
//! `specs/Checked.antt` says which typed module a source is, with the texts that it includes: names and types hold of all of them.
//! `specs/Failing.antt` says why it is none, under which number. `check_source` gives of a source and the texts that were read for it
//! its typed module, and whether that can be a program's first one. `laws` says that there is one typed module at most, and none where a
//! refusal holds.
//!
//! Read `fault`, `checking`, `laws`.
#![tactic(auto)]

mod checking;
mod fault;
mod laws;

pub use checking::{Checked, check_source};
pub use fault::ModuleFault;
pub use laws::{fails_or_checked, one_checked};
