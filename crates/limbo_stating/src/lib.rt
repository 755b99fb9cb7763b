//! Which typed statements statements are, where the checking of a body has come to (Limbo Language Reference, statements).
//!
//! `specs/Stating.antt` says which typed statement a statement is, by a clause for each form, and `specs/FailsToState.antt` why it is none,
//! by a rule for each part that fails and for each way in which parts don't fit. `specs/Around.antt` has what stands around a statement,
//! and the expressions in it; `Cases`, `Alts`, `Picks` and `Handlers` have the heads of arms, `Raising` what is raised, `Reasons` the
//! reasons with their numbers. `specs/Functions.antt` says which function a definition is, and which those of a module are. The laws say
//! that each is one at most, and that what fails is none. The checker of statements stands on these definitions.
//!
//! Read `laws`.
#![tactic(auto)]

mod laws;

pub use laws::{fails_or_states, one_statement};
