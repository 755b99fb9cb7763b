//! Every store in a typed expression is allowed (Limbo Language Reference, assignment; Sys).
//!
//! The rules of expressions ask of each typed tree that it stores nothing where it may not, as soon as the tree is made. The laws say that
//! this holds of each node in the tree that comes of an expression, however deep it stands, and so of each store that a checked function
//! makes: no value comes to hold the object into which it is stored, and no store makes a ring of values. `specs/Nodes.antt` says what the
//! nodes in a tree are, and `specs/Stored.antt` what holds of each. What is made of checked expressions rests on it.
//!
//! Read `laws`.
#![tactic(auto)]

mod laws;

pub use laws::{no_rings_are_made, nothing_holds_itself, stores_stand};
