//! All declarations of the top level, and of what stands inside them, by numbers (Limbo Language Reference, declarations and scope).
//!
//! `specs/Entries.antt` says what such a table is, and what a name is in a scope. A table has the declarations of the top level first;
//! then, declaration by declaration, what stands inside it. Each scope has an index of its names.
//!
//! Read `entry`, `scope`, `filling`, `table`, `laws`.
#![tactic(auto)]

mod entry;
mod filling;
mod laws;
mod scope;
mod table;

pub use entry::Entry;
pub use laws::{all_are_there, once_is_not_twice, one_found, one_table, within_is_less};
pub use table::Table;
