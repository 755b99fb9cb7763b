//! The types of what a source declares (Limbo Language Reference, declarations): of variables, of the fields of adts and of their
//! variants, of functions and of exceptions.
//!
//! `specs/Headers.antt` says what is told of each declaration, by what its written types mean (`limbo_type_names`) in the scope in which
//! it stands. A function takes an argument for each name of a parameter, and answers `Nothing` where no type is written; whether its
//! first parameter is `self` is told beside its type.
//!
//! Read `header`, `functions`, `headings`.
#![tactic(auto)]

mod functions;
mod header;
mod headings;

pub use functions::function_header;
pub use header::{Header, Heading};
pub use headings::head_all;
