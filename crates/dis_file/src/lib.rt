//! Object files of the Dis machine as values: code, types, data, links, imports and handlers, in the words of the
//! manual page dis(6).
//!
//! Code generation makes an `Object`, and the machine runs one. Counts and offsets are in bytes and words in 4 bytes
//! where a field says nothing else; a pc is the number of an instruction, from 0.
#![tactic(auto)]

mod object;
mod types;

pub use object::{Catch, CatchArm, Import, Item, LinkEntry, Object};
pub use types::TypeDesc;
