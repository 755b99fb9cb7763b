//! A command over memory.

use crate::one_byte::OneByte;
use crate::shown;
use inf_ports::{MemSink, MemTree};
use inf_text::Text;
use inferno_top::{Ended, inferno};
use std::alloc::{AllocError, Global};
use std::mem::forget;

/// How the sinks behave, and what is told.
#[derive(Clone, Copy)]
pub struct Plan {
    /// Which call of `out` fails, and of `err`.
    pub out_fails: Option<u64>,
    pub err_fails: Option<u64>,
    /// How many bytes `out` takes, and whether one at a time.
    pub room: usize,
    pub is_bytewise: bool,
    pub has_journal: bool,
}

/// The calls that fail.
///
/// # Errors
/// Want of memory.
pub fn calls(alloc: Global, failing: Option<u64>) -> Result<Vec<u64>, AllocError> {
    let mut list = Vec::new(alloc);
    if let Some(call) = failing {
        list.push(call)?;
    }
    Ok(list)
}

/// The text of a spelling.
///
/// # Errors
/// Want of memory.
pub fn text(alloc: Global, spelling: &str) -> Result<Text, AllocError> {
    let mut chars = Vec::new(alloc);
    for c in spelling.chars() {
        chars.push(c)?;
    }
    Ok(Text::from_vec(chars))
}

// The words of a line, with a blank between them.
fn words_of(alloc: Global, line: &str) -> Result<Vec<Text>, AllocError> {
    let mut words = Vec::new(alloc);
    for word in line.split(' ') {
        if !word.is_empty() {
            words.push(text(alloc, word)?)?;
        }
    }
    Ok(words)
}

// Runs the command, and tells how it ended. What it leaves isn't let go, as the program ends soon.
fn told(
    alloc: Global,
    ended: Ended,
    out: &[u8],
    err: &MemSink,
    plan: Plan,
) -> Result<String, AllocError> {
    let told = shown::ended(alloc, &ended, out, err.as_slice(), plan.has_journal);
    forget(ended);
    told
}

/// Runs the command that a line has over these files, and tells how it ended.
///
/// # Errors
/// Want of memory.
pub fn run(
    alloc: Global,
    line: &str,
    files: &mut MemTree,
    plan: Plan,
) -> Result<String, AllocError> {
    let words = words_of(alloc, line)?;
    let mut out = MemSink::new(alloc, plan.room, calls(alloc, plan.out_fails)?)?;
    let mut err = MemSink::new(alloc, 1000, calls(alloc, plan.err_fails)?)?;
    if plan.is_bytewise {
        let mut slow = OneByte { inner: out };
        let ended = inferno(alloc, &words, files, &mut slow, &mut err);
        return told(alloc, ended, slow.inner.as_slice(), &err, plan);
    }
    let ended = inferno(alloc, &words, files, &mut out, &mut err);
    told(alloc, ended, out.as_slice(), &err, plan)
}
