//! Rooms of types, by the adts of a module: how many bytes values take, where in them their parts are and which of their words refer.
//!
//! The definitions go by rounds, as many as there are adts; `Rooms` has a table of the adts that is made once a module, by as many
//! rounds, and answers of each type by its parts alone. Every call gives what the definitions of `value_frames` say, of every type:
//! `room_for`, `row_of`, `within_row`, `within`, `type_within`, `names_at`, `box_bytes`, `form_of`. What takes more than the 65,536 bytes
//! that a type may take is told only so far, and no answer is given of it.
//!
//! In the order of reading: `specs/Cut`, `specs/Tables` and `specs/Names` (what the code's tables have), `room` (a room as it grows),
//! `parts` (the parts of adts), `table` and `names` (the rounds), `rooms` (the calls), `form`, `laws`. The files `Rounds` and `Naming` of
//! `proofs` show that the tables are what the definitions give.
#![tactic(auto)]

mod form;
mod laws;
mod names;
mod parts;
mod room;
mod rooms;
mod table;

pub use form::{Form, form_of};
pub use laws::names_lie_inside;
pub use room::{LIMIT, Room};
pub use rooms::Rooms;
