//! Rows of sources: a test of what they declare, whose answers are data.
//!
//! Each line of the input is what stands behind `implement T;` in a source, and behind each `@` the name of an included text and the text.
//! Each line of the output is the constants with their values, as they are numbered, or the number of the refusal and where it stands.
#![tactic(auto)]

mod answers;
mod texts;

use crate::answers::answer;
use std::io;

fn main(rt: HostRuntime) -> io::Result<()> {
    for line in rt.lines(rt.alloc()) {
        let answer = answer(rt.alloc(), line?.as_str())?;
        println!(rt; "{answer}")?;
    }
    Ok(())
}
