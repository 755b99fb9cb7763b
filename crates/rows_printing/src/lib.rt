//! That rows of prints go: the machine loads Sys, fills a frame with the format and its arguments, and calls its print.
//!
//! `specs/`: `Rows` (which prints these are).
#![tactic(auto)]

mod laws;

pub use laws::{plain_prints_go, prints_go};
