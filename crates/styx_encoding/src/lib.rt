//! Messages of Styx (9P2000) as bytes (Inferno Programmer's Manual, section 5).
//!
//! `encode_t` and `encode_r` give the one spelling that a message has by the grammar of `styx_msg`, or `TooLong` where it has none.
//! `specs/Writing` is how fields are written one behind another.
#![tactic(auto)]

mod encoding;
mod r_writing;
mod t_writing;
mod writing;

pub use encoding::{encode_r, encode_t};
