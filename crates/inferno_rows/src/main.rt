//! Rows of the command: a test of `inferno` over files and sinks in memory, whose table is data.
//!
//! The input is cases, one after the other. A case has lines that say what it begins with, and then commands, which run one after the
//! other over its files:
//!
//! - `file PATH TEXT`: at PATH stands TEXT, in which `¶` is a newline and `→` a tab;
//! - `bytes PATH DIGITS`: at PATH stand these bytes, in hexadecimal;
//! - `many PATH COUNT TEXT`: at PATH stands TEXT so many times, with the number of the time, counted from 0, for a `§` in it;
//! - `program FUNCTIONS ~ STATEMENTS`: at hello.b stands a program with these functions and these statements in its `init`;
//! - `declares COUNT TEXT`: at hello.b stands a program whose `init` has TEXT so many times, as in `many`;
//! - `fails PORT CALL`: the call of this number fails, counted from 0, of `files`, `out` or `err`;
//! - `room COUNT`: `out` takes so many bytes; `bytewise`: it takes one byte at a time; `journal`: the journal is told too;
//! - `$ WORDS`: the command.
//!
//! Of each command the program prints its words, the status, the bytes on `out` and those on `err`, where there are any, `¶` for a
//! newline; of more than 1,000 bytes the number and the last ones; and the events of the journal, where these are told.
#![tactic(auto)]

mod case;
mod command;
mod one_byte;
mod shown;

use crate::case::Case;
use std::io;

fn main(rt: HostRuntime) -> io::Result<()> {
    let mut case = Case::new(rt.alloc());
    for line in rt.lines(rt.alloc()) {
        if let Some(told) = case.take(rt.alloc(), line?.as_str())? {
            println!(rt; "{told}")?;
        }
    }
    Ok(())
}
