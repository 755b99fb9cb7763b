//! The second pass of the compiler: from three-address code to objects of the Dis machine.
//!
//! `generate` makes the object of a module, or refuses one with too many instructions. `sizes` counts them and says where the code of
//! each function and of each instruction begins, so that jumps and calls are looked up; `bytes` says how much data an instruction has;
//! `operands`, `site` and `insts` write operands and rows of instructions, `emit` the code of an instruction, with what is being made
//! ready there, `functions` that of all; `object` joins it to the tables. What the object is, and the tables of data, types and links,
//! are in dis_objects.
//!
//! `specs/Site` says where code is written. In `proofs/`, `Emission` has sizes and tables of places, `Amounts` how much data there are,
//! `Ready` what is small where code is made, and `Assembly` the object from its parts.
#![tactic(auto)]

mod bytes;
mod emit;
mod fault;
mod functions;
mod insts;
mod object;
mod operands;
mod site;
mod sizes;

pub use fault::GenFault;
pub use object::generate;
