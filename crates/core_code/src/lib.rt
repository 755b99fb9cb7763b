//! Three-address code over whole values, between the compiler's two passes: what one process of it does, and the code of a program.
//! No code stands here, only definitions and laws. The command doesn't use them yet. That the code keeps the meaning of its program is
//! said in `core_follows`.
//!
//! A slot has the whole value of a node. The operands of a tuple, an adt, a call and a print come one by one, each right behind its own
//! code, to the slot in which they are put together. What a statement of the program holds stands in the slots of its nodes, and each
//! reference of it goes by a `Drop` at the statement's end, in the order in which it was got; a test of what was decided passes over the
//! drops of what wasn't evaluated, and what the turns of an initialiser held comes back from a chain, turn by turn.
//!
//! `specs/` in the order of reading: `Slots`, `Code`, `Machine`, `Terms` (the code of expressions), `Statements` (of statements, functions
//! and programs). `Control`, `Using`, `Standing`, `Naming`, `Nodes`, `Sizes`, `Frames`, `Rooms` and `Whole` say the laws.
//!
//! In `proofs/`, `Examples` and `Programs` compute that the code of programs tells what the programs tell, to the values of the heap that
//! go and when. `Closed`, `Used`, `Counts`, `Typed`, `Slotted`, `Names`, `Rounds`, `Whole` and `Stepping` show the laws.
#![tactic(auto)]

mod laws;

pub use laws::{
    code_is_not_left, eight_a_node, four_a_tree_node, functions_are_closed, references_go_so,
    rounds_give_rooms, slots_are_there, three_slots_a_node, values_are_whole,
};
