//! A source and the texts that it includes, one in the other, as one row of declarations (Limbo Language Reference, include).
//!
//! `specs/Includes.antt` says what path an include names (`target`), which texts includes lead to (`Leads`), which are too deep
//! (`IsTooDeep`) or lack a text (`LacksAt`), and what a text flattens to (`Flattens`): its declarations, in the place of each
//! include what the text that it names flattens to. `flatten` gives that row, with the path of each declaration's text, and
//! `laws` says that there is one row, and one for each source that isn't refused. A text is walked once, however often it is
//! included, and its includes are looked up in an ordered map, so that time and memory grow with the sizes of the texts.
//! The declarations' checker stands on it.
//!
//! Read `included`, `fault`, `path`, `shelf`, `links`, `nesting`, `row`, `flat`, `laws`.
#![tactic(auto)]

mod fault;
mod flat;
mod included;
mod laws;
mod links;
mod nesting;
mod path;
mod row;
mod shelf;

pub use fault::IncludeFault;
pub use flat::flatten;
pub use included::{Included, Standing};
pub use laws::{one_row, whole_has_row};
pub use path::target;
