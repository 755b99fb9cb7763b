//! What an object file of the Dis machine is: which bytes spell an `Object` (dis(6)), its shortest spelling, and the
//! order in which a reader meets the fields.
//!
//! `specs/Operands.antt` has the three forms of an operand, `specs/Parts.antt` the table of the format, one case for
//! each part, `specs/Loading.antt` where an item of the initial data may stand, `specs/Objects.antt` the objects that
//! bytes spell, `specs/Reading.antt` the fields in the order of the bytes with the fault of each, and
//! `specs/Writing.antt` the parts written one after the other. `laws` says how these belong together. The reader and
//! the writer stand on this crate.
#![tactic(auto)]

mod fault;
mod header;
mod kind;
pub mod laws;
mod loading;

pub use fault::{Cause, FileFault, ReadFault, Refusal};
pub use header::Header;
pub use kind::{ItemKind, item_kind};
pub use loading::{Block, Place, Standing};
