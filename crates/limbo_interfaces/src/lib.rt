//! Module types that bodies declare, and one call for any declaration (Limbo Language Reference, declarations, modules and scope).
//!
//! `declare_module` gives the statement that a module type is there where a body has come to, and `declare` that of any declaration;
//! `limbo_local` says by rules what each is, and why there is none. The functions of a module type are numbered in the order of their
//! declaration; its variables are known to the module alone that implements it. What it exports is told member by member, so that each
//! member sees those before it through the module's name too. The checker of statements stands on it.
//!
//! Read `opening`, `functions`, `adding`, `modules`, `declaring`.
#![tactic(auto)]

mod adding;
mod declaring;
mod functions;
mod modules;
mod opening;

pub use declaring::declare;
pub use limbo_members;
pub use modules::declare_module;
