//! What a source declares, with the texts that it includes, by what the files tell (Limbo Language Reference, include and declarations).
//!
//! `specs/Included.antt` says which texts a source includes and what row of declarations it flattens to, by what stands in the files;
//! `specs/Declares.antt` what it declares, and what each refusal of names and includes says. `names_of` gives that, with the row, for a
//! source and the texts that were read for it (`source_files`), by `limbo_includes` and `limbo_declare`. `laws` says that there is one
//! answer.
//!
//! Read `refusal`, `names`, `laws`.
#![tactic(auto)]

mod laws;
mod names;
mod refusal;

pub use laws::{no_text_declares_nothing, one_scope, refused_declares_nothing};
pub use names::{Named, names_of};
pub use refusal::{NamesFault, Refusal};
