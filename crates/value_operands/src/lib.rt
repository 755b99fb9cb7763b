//! Where things stand in the frame of a function, and the operands of the machine for its slots and variables.
//!
//! A `Scene` is made once a function, of the rooms of the module's adts and the types of the variables of both. Its calls give what the
//! definitions of `value_frames` and of `value_code` say of that scene: places in the frame, the words of it that refer, and operands. A
//! slot's number is to be less than 2 ^ 27, which a frame of 65,536 bytes has many less than, so that each offset is one of the machine's.
#![tactic(auto)]

mod scene;

pub use scene::Scene;
