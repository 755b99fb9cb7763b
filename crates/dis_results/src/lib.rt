//! Results of instructions of the Dis machine that make no block, and the process that then goes on.
//!
//! A number is stored over one of its kind (`store_number`): an int is a word, a byte one of the four of its word, a big two words. A
//! destination is looked at before anything is raised, and then the result is stored and the process comes to its next instruction
//! (`give_number`, `give_plain`, `give_reference`). dis_places has what operands name, dis_stores how words are stored.
//!
//! Instructions that only read and give stand here too, each under its name: `data` has those that move a word, `lengths` those that
//! count, `heads` those on the first cell of a list, `characters` the one on a string,
//! `indexes` those that give the address of an element.
#![tactic(auto)]

mod characters;
mod data;
mod giving;
mod heads;
mod indexes;
mod lengths;
mod numbers;
mod operands;
mod words;

pub use characters::{given_int, indc};
pub use data::{lea, movp, movw};
pub use giving::{
    advance, finish_number, finish_reference, give_number, give_plain, give_reference,
    has_reference,
};
pub use heads::{head_number, headp, source_cell, tail};
pub use indexes::{index_of_size, indx, size_of, source_elements, source_int};
pub use lengths::{lena, lenc, lenl};
pub use numbers::{put_number, store_number};
pub use operands::{natural_to, number_to, reference_to, source_reference};
pub use words::{high_part, low_part, with_byte};
