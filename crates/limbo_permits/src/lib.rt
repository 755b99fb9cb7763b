//! What may stand anywhere in a function's body (Limbo Language Reference, types and assignment; Sys).
//!
//! Values may have a type that is allowed, and that written out has at most 4,096 nodes; an expression may stand anywhere whose type values
//! may have, and that stores nothing where it may not. `specs/Permits.antt` says so, and which refusal holds of what may not stand. The
//! checker of expressions asks it of each expression that it makes.
//!
//! Read `counting`, `permitting`, `answering`, `laws`.
#![tactic(auto)]

mod answering;
mod counting;
mod laws;
mod permitting;

pub use answering::{has_answer, is_settled};
pub use laws::forbidden_or_permitted;
pub use permitting::{permit, permit_type};
