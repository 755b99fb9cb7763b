//! Calls of every kind, as they are made of typed parts (Limbo Language Reference, expressions).
//!
//! A call of the module's own function, one through a module's value, a value of an adt from its fields, and a print with its format:
//! `specs/Calls.antt` and `specs/Prints.antt` say which expression each is, and `specs/Refusing.antt` when there is none. An argument is
//! what it is where its parameter's type is asked for. The checker of expressions stands on it.
//!
//! Read `calling`, `printing`, `laws`.
#![tactic(auto)]

mod calling;
mod laws;
mod printing;

pub use calling::{call, call_through, construct};
pub use laws::{calls_are_sound, one_call};
pub use printing::{Output, print};
