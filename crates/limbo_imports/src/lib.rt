//! The names that a source imports from modules (Limbo Language Reference, import).
//!
//! An imported name is a member of a module: `specs/Imports.antt` says of which module type, what it means among its members, and whether
//! it comes through a variable of the module. `laws` says that a name's number leads to it.
//!
//! Read `imports`, `laws`.
#![tactic(auto)]

mod fault;
mod imports;
mod laws;

pub use fault::ImportFault;
pub use imports::list_imports;
pub use laws::import_of_a_number;
