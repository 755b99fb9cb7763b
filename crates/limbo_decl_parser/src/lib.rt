//! Reads declarations: parameters and function types, members of modules and adts, and whole declarations.
//!
//! `specs/Decls.antt` has the readers that the contracts cite: functions on lists of tokens that choose by the next tokens
//! and give a tree or the first fault. `proofs/Laws.antt` says that what is spelled by the grammar is read, that what is read
//! is so spelled, and where a fault of depth stands. The reader of statements and sources stands on it.
#![tactic(auto)]

mod decl;
mod members;
mod params;

pub use decl::decl_at;
pub use params::fn_at;
