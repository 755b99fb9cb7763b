//! The object of three-address code follows it.
#![tactic(auto)]

mod laws;

pub use laws::object_follows;
