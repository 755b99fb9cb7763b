//! Rows of sources: a test of what is told of them, whose answers are data.
//!
//! Each line of the input is a source, or declarations and the body of `init`, with ` ~ ` between them, to which `source` adds the
//! rest. Each line of the output is the number of the first refusal, 45 of a module that can't be a first one, 25 of one that doesn't
//! run yet, or `ok`.
#![tactic(auto)]

mod answers;
mod source;

use crate::answers::answer;
use std::io;

fn main(rt: HostRuntime) -> io::Result<()> {
    for line in rt.lines(rt.alloc()) {
        let answer = answer(rt.alloc(), line?.as_str())?;
        println!(rt; "{answer}")?;
    }
    Ok(())
}
