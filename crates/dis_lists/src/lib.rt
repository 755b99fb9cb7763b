//! Instructions of the Dis machine that put a new cell in front of a list.
//!
//! A cell is made of the reference to its rest and of the words of its element, all of whose references are held before; a reference to it
//! takes the place of the one to the list (`fronts`). `conses` has the instructions by their names. dis_copies has how many words are held
//! at once, dis_blocks how a block is made.
#![tactic(auto)]

mod cells;
mod conses;
mod fronts;

pub use conses::{cons_number, consp};
pub use fronts::cons;
