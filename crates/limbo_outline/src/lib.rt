//! The lists to which the names of a source lead in the bodies of its functions (Limbo Language Reference, declarations and scope).
//!
//! A name means a kind and a number (`limbo_meanings`). `specs/Outline.antt` says of each kind what is told of its declarations: the list
//! of a kind has one thing for each, in the order of the table of all declarations. `laws` says that a name's number leads to what is
//! told of the declaration that has the name.
//!
//! Read `constants`, `types`, `functions`, `globals`, `exceptions`, `members`, `laws`.
#![tactic(auto)]

mod constants;
mod exceptions;
mod fault;
mod functions;
mod globals;
mod laws;
mod members;
mod types;

pub use constants::{list_constants, type_of, value_of};
pub use exceptions::list_exceptions;
pub use fault::OutlineFault;
pub use functions::list_functions;
pub use globals::list_globals;
pub use laws::{
    adts_by_number, constant_of_a_number, exception_of_a_number, function_of_a_number,
    global_of_a_number, modules_by_number, scope_of_a_number, type_of_a_number,
};
pub use members::list_scopes;
pub use types::list_types;
