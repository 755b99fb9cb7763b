//! What bytes are as messages of Styx, for rows that are written out by hand: a test of `styx_msg` whose table is data.
//!
//! Each line of the input is `t` or `r` and bytes in hexadecimal, and the program prints what `decode_t` or `decode_r`
//! says of them; or it is `walk N`, and the program prints what `encode_t` says of a walk of N names.
#![tactic(auto)]

ghost use Rattle.std.specs.Prelude.{◌≡◌, ◌≤◌, ◌↔◌, IsTrue, length, take};

use inf_text::{Seq, Text};
use std::alloc::{AllocError, Global};
use std::io;
use styx_decoding::{decode_r, decode_t};
use styx_encoding::{encode_r, encode_t};
use styx_msg::{Decoded, StyxFault, Tmsg};

/// Whether the first `used` bytes are the spelling.
fn is_spelling(bytes: &[u8], used: usize, spelling: &[u8]) -> bool
    ensures { IsTrue result ↔ ((used ≤ length bytes.now) × (take used bytes.now ≡ spelling.now)) }
{
    used <= bytes.len() && &bytes[..used] == spelling
}

/// Whether a message was spelled, as the first `used` bytes.
fn is_again(bytes: &[u8], used: usize, spelled: Result<Vec<u8>, StyxFault>) -> bool {
    spelled.is_ok_and(|spelling| is_spelling(bytes, used, spelling.as_slice()))
}

/// The number of a refusal, or want of memory.
fn refusal(alloc: Global, fault: StyxFault) -> Result<String, AllocError> {
    match fault.number() {
        Some(number) => format!(in alloc; "fault {number}"),
        None => format!(in alloc; "no memory"),
    }
}

/// What bytes are as a request.
fn request(alloc: Global, bytes: &[u8]) -> Result<String, AllocError> {
    match decode_t(alloc, bytes) {
        Ok(Decoded::Whole { tag, message, used }) => {
            let same = is_again(bytes, used, encode_t(alloc, tag, &message));
            format!(in alloc; "{tag} {message:?} {used} {same}")
        }
        Ok(Decoded::Short) => format!(in alloc; "short"),
        Err(fault) => refusal(alloc, fault),
    }
}

/// What bytes are as a reply.
fn reply(alloc: Global, bytes: &[u8]) -> Result<String, AllocError> {
    match decode_r(alloc, bytes) {
        Ok(Decoded::Whole { tag, message, used }) => {
            let same = is_again(bytes, used, encode_r(alloc, tag, &message));
            format!(in alloc; "{tag} {message:?} {used} {same}")
        }
        Ok(Decoded::Short) => format!(in alloc; "short"),
        Err(fault) => refusal(alloc, fault),
    }
}

/// What encoding says of a walk of so many names.
fn walk(alloc: Global, count: usize) -> Result<String, AllocError> {
    let mut names = Vec::new(alloc);
    for _ in 0..count {
        names.push(Text::from_vec(vec![in alloc; 'a']?))?;
    }
    let message = Tmsg::Walk {
        fid: 0,
        newfid: 4,
        wname: Seq::from_vec(names),
    };
    match encode_t(alloc, 1, &message) {
        Ok(bytes) => format!(in alloc; "{} bytes", bytes.len()),
        Err(fault) => refusal(alloc, fault),
    }
}

/// What a line asks for.
fn answer(alloc: Global, line: &str) -> Result<String, AllocError> {
    let Some((kind, rest)) = line.split_once(' ') else {
        return format!(in alloc; "no row");
    };
    if kind == "walk" {
        return walk(alloc, rest.parse::<usize>().unwrap_or(0));
    }
    let Ok(bytes) = hex::decode(alloc, rest) else {
        return format!(in alloc; "no bytes");
    };
    if kind == "t" {
        request(alloc, bytes.as_slice())
    } else {
        reply(alloc, bytes.as_slice())
    }
}

fn main(rt: HostRuntime) -> io::Result<()> {
    for line in rt.lines(rt.alloc()) {
        let told = answer(rt.alloc(), line?.as_str())?;
        println!(rt; "{told}")?;
    }
    Ok(())
}
