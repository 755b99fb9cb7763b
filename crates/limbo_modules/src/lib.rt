//! The typed module of a whole source (Limbo Language Reference, modules).
//!
//! `check_module` puts the crates below together: what is known around the functions of a source (`limbo_source_context`), whether the
//! types that it declares are permitted (`limbo_declared_types`), which definition defines each function (`limbo_bodies`), the typed
//! function that each is (`limbo_functions`), and what the module declares for others. `specs/Modules.antt` says which typed module that
//! is, and `specs/Failing.antt` why there is none. `laws` says that there is one at most, and none where something fails.
//!
//! `declares_init` says whether the module can be a program's first one.
//!
//! Read `fault`, `finding`, `declared`, `copying`, `refusing`, `known`, `checking`, `first`, `laws`.
#![tactic(auto)]

mod checking;
mod copying;
mod declared;
mod fault;
mod finding;
mod first;
mod known;
mod laws;
mod refusing;

pub use checking::check_module;
pub use fault::ModuleFault;
pub use first::declares_init;
pub use laws::{fails_or_module, one_module};
