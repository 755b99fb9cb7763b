//! What the names of a scope are declared as (Limbo Language Reference, declarations and scope).
//!
//! A declaration or a member declares names; each is a `Row`: the name, and the part of the tree that says what it is. The scope of a
//! module, of an adt and of a variant is a list of rows (`specs/Rows.antt`), in the order in which they are written.
//!
//! `Names` is a scope in which each name is declared once, and finds a name's row.
//!
//! Read `row`, `rows`, `names`. The reading of names and the checkers of bodies stand on it.
#![tactic(auto)]

mod names;
mod row;
mod rows;
mod scopes;

pub use names::{Names, NamesFault, RowsFault, index, look_up};
pub use row::{Declared, Row};
pub use rows::{adt_rows, field_rows, module_rows, push_decl, push_members};
pub use scopes::{OnceFault, decl_once, fn_once};
