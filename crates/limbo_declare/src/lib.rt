//! What a source declares, with the texts that it includes (Limbo Language Reference, declarations, modules and scope).
//!
//! `specs/Declares.antt` puts the definitions of the crates below together: the top level (`limbo_top`), the scopes inside declarations
//! (`limbo_declarations`), the functions that must be defined (`limbo_defined`), the numbered table of all declarations
//! (`limbo_entries`), the names that they write (`limbo_naming`, `limbo_unknown`) and the values of constants
//! (`limbo_constant_values`). `Fails` says what each refusal means.
//!
//! Read `fault`, `stages`, `meanings`, `declaring`, `laws`.
#![tactic(auto)]

mod declaring;
mod fault;
mod laws;
mod meanings;
mod stages;

pub use declaring::{Declarations, declare};
pub use fault::NameFault;
pub use laws::{one_scope, refused_declares_nothing};
