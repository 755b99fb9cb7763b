//! Code of the Dis machine with memory as it is loaded: an object with the numbers that its types and the names of its import tables have
//! in the tables of memory (`Code`), and the operands of its instructions that are immediates: types, tables, places in the code.
//!
//! `IsLoaded` of `specs/` says that tables have what an object asks for. The contracts of `operands` cite dis_memory's `Operands`; the
//! crates of instructions stand on it.
#![tactic(auto)]

mod code;
mod operands;

pub use code::Code;
pub use operands::{
    immediate, jump_to, middle_immediate, middle_type, source_type, target, type_at,
};
