//! The instructions of the Dis machine, as the Dis Virtual Machine Specification names and numbers them: operations,
//! operands, and the table of opcodes (`specs/Opcodes.antt`), which the contracts cite.
//!
//! Object files, code generation and the machine stand on this crate.
#![tactic(auto)]

mod inst;
pub mod laws;
mod op;

pub use inst::{Inst, Middle, Operand};
pub use op::{Op, code_of, op_of};
