//! The object of three-address code, as a definition, and what it has beside its instructions.
//!
//! `room_of` says where things stand in a function's frame, `Making` what is being made ready while a code is walked through;
//! `variable_place`, `global_place` and `argument_place` say where variables and arguments stand. `data_of` makes the module's data,
//! `types_of` the types with their maps, `links_of` what other modules call and `imports_of_sys` what this one calls; `find_init` and
//! `entry_length` say where it begins, `fits_source` and `fits_middle` which numbers an instruction holds itself. dis_generation writes
//! the instructions, and joins them to these tables.
//!
//! `specs/` in the order of reading: `Frames` (places in a frame), `Code` (the instructions of each instruction), `Objects` (the whole
//! object: its entry, code, types, data and links), `Proper` (what code can be made), `Words` and `Sites` (what is small, and the tables),
//! `Growing` and `Spelled` (the data as they are filled, and their strings).
#![tactic(auto)]

mod filling;
mod formats;
mod immediates;
mod layout;
mod links;
mod module_data;
mod places;
mod ready;
mod room;
mod types;

pub use filling::{data_of, operand_kind, spot_kind, zeros_bytes};
pub use immediates::{fits_middle, fits_source};
pub use links::{entry_length, find_init, imports_of_sys, links_of};
pub use module_data::Data;
pub use places::{data_place, global_place, variable_place};
pub use ready::{Callee, Making, argument_bytes, argument_place, first_place};
pub use room::{Room, room_of};
pub use types::types_of;
