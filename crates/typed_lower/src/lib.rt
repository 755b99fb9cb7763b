//! The first pass of the compiler: three-address code of a checked module, as a definition, and what it keeps of the module's meaning.
//!
//! `specs/` in the order of reading: `Kinds` (of which kind values are, and what trees may change), `Terms` (the code of expressions),
//! `Statements` (that of statements, functions and modules), `Stands` (when a process of the code stands for one of the program), `Keeps`
//! (what the code keeps).
//!
//! The relation is by what happens: at each instruction of a frame it tells each way that this may go, in whatever world, the steps of the
//! program that it stands for, and that what follows is so again. So the proof of a form takes what is behind it as given, and the forms
//! are joined as their code is. In `proofs/`, `Contexts` has where a part of a tree is evaluated, `Places` code at its place, `Operands`,
//! `Parts`, `Values`, `Conditions`, `Connected`, `Arguments` and `Calls` the forms of expressions, `Expressions` all of them; `Begins`,
//! `Bodies`, `Loops` and `Begun` statements; `Follows` and `Simulation` the steps of both sides; `Pauses` and `Quiet` how few instructions
//! stand for no step; `Examples` whole programs whose code computes the same.
#![tactic(auto)]

mod laws;
mod taking;

pub use laws::code_keeps;
pub use taking::Taking;
