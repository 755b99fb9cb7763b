//! Processes of a machine that are on their way: one instruction of the other side is several of theirs. No code stands here, only
//! definitions and a law.
//!
//! `process_model`'s `Follows` relates a process of the source and one of the machine after each instruction of the machine. Where one
//! instruction of a source's code is several of a machine's, they stand alike before the first and behind the last, and between them
//! the machine's process is on its way. What holds of it there must hold whatever other processes do meanwhile. `Way` says so once
//! for all: a process is so many instructions in front of a place where the two stand alike, if each of these instructions leads to
//! where it is one less, from whatever the other processes left. So a compiler shows of each instruction of the source's code that
//! the machine's process has a way from where they stand alike to where they do again, and the law of many processes holds.
//!
//! `specs/` in the order of reading: `Ways` (what a way is, and the two sides where processes stand alike also on their way), `Laws`.
//!
//! In `proofs/` what a compiler's proof takes is `On` (one instruction on the way, silent or with a step of the source, and what holds
//! before it whatever others do) and `Follows` (the law, for types of specs too). `Twice` is an example that computes: a language that
//! adds 2 in one step, and a machine that adds 1 twice.
#![tactic(auto)]

mod laws;

pub use laws::{OnTheirWay, ways_follow};
