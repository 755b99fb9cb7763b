//! Whether the types that declarations write are types that values may have (Limbo Language Reference, types and declarations; Sys).
//!
//! In bodies each written type is asked where it stands (`limbo_written`). `specs/Permitted.antt` says the same of what the top level of a
//! source declares, and what its modules and adts and included texts do: of the types of variables, fields and exceptions' values, of what
//! functions take and answer, of what names by `type` stand for, and of an adt's parts together. It says too which refusal holds of a
//! declaration that writes another. `permit_all` asks it of a table of declarations.
//!
//! Read `fault`, `asking`, `permitting`, `laws`.
#![tactic(auto)]

mod asking;
mod fault;
mod laws;
mod permitting;

pub use fault::Forbidden;
pub use laws::forbidden_or_all_permitted;
pub use permitting::permit_all;
