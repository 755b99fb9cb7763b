//! What values of a module's types take: how many bytes they have, how many references, and whether they have any.
//!
//! The definitions go by rounds, as many as there are adts; `Extents` is a table of the adts that is made once a module, by as many
//! rounds, and answers of each type by its parts alone. Every call gives what the definitions say, of every type: `refers` of
//! `limbo_meaning`, `size_of` of the same, `count_of` and `count_all` of `core_code`. Bytes and references are counted to one more than
//! the 65,536 bytes that a type may take, so that no sum grows past a word however adts lie in one another.
//!
//! In the order of reading: `specs/Extent` (the table that the code makes), `specs/Parts` and `specs/Laws` (the references of parts),
//! `extents` (the calls), `extent` (one value), `table` (the rounds), `parts` (the first parts of a type), `laws`. The file `Rounds` of
//! `proofs` shows that the table is what the definitions give.
#![tactic(auto)]

mod extent;
mod extents;
mod laws;
mod parts;
mod table;

pub use extents::{Extents, PartReferences};
pub use laws::parts_make_wholes;
