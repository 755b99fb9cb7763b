//! Runs over an output, as the console has them.

use crate::machines::go_on;
use dis_machine::{Broken, End, Machine};
use inf_ports::{MemSink, write_whole};
use std::alloc::Global;
use std::process::Abort;
use std::test::Fail;
use styx_decoding::decode_t;
use styx_msg::{Decoded, Tmsg};

/// How a run has ended, and the processes that broke.
#[derive(Drop)]
pub(crate) struct Ran {
    pub end: End,
    pub broken: Vec<Broken>,
}

// Writes what a request asks for, and gives the reply that it was written.
fn answer(
    rt: &impl Abort,
    alloc: Global,
    frame: &[u8],
    out: &mut MemSink,
) -> Result<Vec<u8>, Fail> {
    let Decoded::Whole { tag, message, .. } = decode_t(alloc, frame)? else {
        panic!(rt; "a request");
    };
    let Tmsg::Write { piece, .. } = message else {
        panic!(rt; "a write");
    };
    assert!(rt; write_whole(out, piece.as_slice()).is_ok());
    let count = u32::try_from(piece.len()).unwrap_or(0);
    let mut reply = Vec::from_slice(alloc, b"\x0B\0\0\0\x77")?;
    reply.extend_from_slice(&tag.to_le_bytes())?;
    reply.extend_from_slice(&count.to_le_bytes())?;
    Ok(reply)
}

/// Runs a machine until it has ended, of at most a hundred events.
pub(crate) fn run_machine(
    rt: &impl Abort,
    alloc: Global,
    machine: Machine,
    out: &mut MemSink,
) -> Result<Ran, Fail> {
    let mut machine = machine;
    for _ in 0..100 {
        if let Some(frame) = machine.next_frame(1) {
            let reply = answer(rt, alloc, &frame, out)?;
            assert!(rt; !machine.lacks);
            machine.take_reply(alloc, 1, reply)?;
        } else if machine.ended().is_none() {
            go_on(rt, alloc, &mut machine)?;
        } else {
            break;
        }
    }
    let end = machine.ended().expect(rt, "an end");
    let broken = machine.into_parts().broken;
    Ok(Ran { end, broken })
}
