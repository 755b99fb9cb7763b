//! The module types of a source, and the scopes of the members of module types and adts (Limbo Language Reference, modules and adts).
//!
//! `specs/Members.antt` says what is told of each module type: its name and its functions. `laws` says that a member's number leads to the
//! function that has the name. A scope of members is that of `limbo_outline`, by what the names mean.
//!
//! Read `interfaces`, `scoping`, `laws`.
#![tactic(auto)]

mod interfaces;
mod laws;
mod scoping;

pub use interfaces::list_interfaces;
pub use laws::{interface_of_a_number, print_of_a_number, signature_of_a_number};
pub use scoping::scopes_of;
