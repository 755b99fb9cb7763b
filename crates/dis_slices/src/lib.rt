//! The instruction of the Dis machine that copies elements of one array over those of another.
//!
//! Both have to be of one type (`kinds`), and what is copied stays within (`bounds`): words with their references where an element refers
//! to anything, bytes where none does (`slices`). dis_moves has how they go over others.
#![tactic(auto)]

mod bounds;
mod kinds;
mod slices;

pub use slices::slicela;
