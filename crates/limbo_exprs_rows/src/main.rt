//! Rows of expressions: a test of their types and refusals, whose answers are data.
//!
//! Each line of the input is what stands in the body of a function, some expressions one behind the other. Each line of the output is the
//! type of the last one, or the number of the first refusal. What names there are the declarations of `source` tell.
#![tactic(auto)]

mod answers;
mod shown;
mod source;

use crate::answers::answer;
use std::io;

fn main(rt: HostRuntime) -> io::Result<()> {
    for line in rt.lines(rt.alloc()) {
        let answer = answer(rt.alloc(), line?.as_str())?;
        println!(rt; "{answer}")?;
    }
    Ok(())
}
