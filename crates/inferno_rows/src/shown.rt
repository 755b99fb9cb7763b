//! What is printed of a command's end.

use dis_machine::{Event, Journal};
use inferno_top::Ended;
use std::alloc::{AllocError, Global};

// Of more bytes than these the last are shown.
const MOST: usize = 1000;

// How many are shown then.
const LAST: usize = 13;

// A text with `¶` for each newline.
fn in_one_line(alloc: Global, bytes: &[u8]) -> Result<String, AllocError> {
    let mut line = String::new(alloc);
    match str::from_utf8(bytes) {
        Ok(text) => {
            for c in text.chars() {
                line.push(if c == '\n' { '¶' } else { c })?;
            }
        }
        Err(_) => line.push_str(hex::encode(alloc, bytes)?.as_str())?,
    }
    Ok(line)
}

/// The bytes that a port took, behind its name and the newline before it; nothing where there are none.
///
/// # Errors
/// Want of memory.
pub fn taken(alloc: Global, port: &str, bytes: &[u8]) -> Result<String, AllocError> {
    if bytes.is_empty() {
        return Ok(String::new(alloc));
    }
    if bytes.len() > MOST {
        let last = in_one_line(alloc, &bytes[bytes.len() - LAST..])?;
        return format!(in alloc; "\n{port} {} bytes, the last {last}", bytes.len());
    }
    let line = in_one_line(alloc, bytes)?;
    format!(in alloc; "\n{port} {line}")
}

// An event of a journal.
fn event(alloc: Global, event: &Event) -> Result<String, AllocError> {
    match event {
        Event::Quantum { pid, count } => {
            format!(in alloc; "\nprocess {pid} ran {count} instructions")
        }
        Event::Reply { link, frame } => {
            let bytes = hex::encode(alloc, frame.as_slice())?;
            format!(in alloc; "\nlink {link} replied {bytes}")
        }
        Event::Down { link, .. } => format!(in alloc; "\nlink {link} went down"),
    }
}

/// The events of a journal, each behind a newline.
///
/// # Errors
/// Want of memory.
pub fn events(alloc: Global, journal: &Option<Journal>) -> Result<String, AllocError> {
    let mut lines = String::new(alloc);
    if let Some(journal) = journal {
        for one in journal.events.as_slice() {
            lines.push_str(event(alloc, one)?.as_str())?;
        }
    }
    Ok(lines)
}

/// The status, what the sinks took, and the journal's events, where they are told.
///
/// # Errors
/// Want of memory.
pub fn ended(
    alloc: Global,
    ended: &Ended,
    out: &[u8],
    err: &[u8],
    has_journal: bool,
) -> Result<String, AllocError> {
    let out = taken(alloc, "out", out)?;
    let err = taken(alloc, "err", err)?;
    let journal = if has_journal {
        events(alloc, &ended.journal)?
    } else {
        String::new(alloc)
    };
    format!(in alloc; "status {}{out}{err}{journal}", ended.status)
}
