//! What names name (Limbo Language Reference, scope, modules and adts).
//!
//! A name is looked for from its scope outwards; behind `->` stands a member of a module, behind `.` a part of an adt. Imported names,
//! names of types and variables are followed to a module, an adt, or whatever stands for itself: `specs/Naming.antt` says so as two
//! relations, what a declaration leads to and what a written name names. Names that go in a circle name nothing, and a name that isn't
//! there is told apart from one that names nothing. `specs/Direct.antt` has what a name names that isn't followed itself.
//!
//! Read `written`, `state`, `sight`, `search`, `naming`, `laws`.
#![tactic(auto)]

mod laws;
mod naming;
mod search;
mod sight;
mod state;
mod written;

pub use laws::{
    lacks_or_declares, lacks_or_names, names_by_declared, one_declared, one_lead, one_named,
};
pub use naming::{Named, Naming};
