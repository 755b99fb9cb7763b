//! Adts that bodies declare (Limbo Language Reference, declarations, adts and scope).
//!
//! `header` gives what a function takes and answers, as its declaration writes it where a body has come to; `declare_adt` gives the
//! statement that an adt is there, and `whole_adt` is an adt among the members of a module. `limbo_local` says by rules what each is, and
//! why there is none. An adt that is open stands in the table of adts without its fields; they are known behind the adt that stands in no
//! other. How modules begin, and how rows show the names of members, is public too: module types that bodies declare stand on it.
//!
//! Read `headers`, `fields`, `copying`, `naming`, `tables`, `opening`, `given`, `showing`, `adding`, `closing`, `adts`.
#![tactic(auto)]

mod adding;
mod adts;
mod closing;
mod copying;
mod fields;
mod given;
mod headers;
mod naming;
mod opening;
mod showing;
mod tables;

pub use adts::{declare_adt, is_new, whole_adt};
pub use closing::allow_def;
pub use headers::header;
pub use opening::{enter_named, name_module};
pub use showing::{show_adt, show_names, untold};
