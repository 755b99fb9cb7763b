//! Runs of small objects: their events, their requests and how they end.

use crate::machines::{go_on, start};
use crate::objects::{greeting, inst, object, seq};
use dis_isa::{Inst, Middle, Op, Operand};
use dis_machine::{End, Event, Machine, ReplyFault, StartFault};
use inf_text::Seq;
use std::alloc::{AllocError, Global};
use std::process::Abort;
use std::test::Fail;
use styx_decoding::decode_t;
use styx_msg::{Decoded, Tmsg};

// A reply that is none to the request comes back.
fn expect_refused(
    rt: &impl Abort,
    alloc: Global,
    machine: &mut Machine,
    link: u32,
    reply: &[u8],
) -> Result<(), AllocError> {
    assert!(rt; !machine.lacks);
    match machine.take_reply(alloc, link, Vec::from_slice(alloc, reply)?) {
        Err(ReplyFault::Refused { frame }) => assert_eq!(rt; frame.as_slice(), reply),
        other => assert!(rt; false, "{other:?}"),
    }
    Ok(())
}

fn expect_events(rt: &impl Abort, machine: Machine, events: &[Event]) {
    let parts = machine.into_parts();
    assert_eq!(rt; parts.journal.events.as_slice(), events);
}

// The message that `hi!` be written, the reply that it was, and what is no such reply: one too many bytes, another tag, another link, and
// a byte behind it.
fn expect_print(rt: &impl Abort, alloc: Global) -> Result<(), Fail> {
    let mut machine = start(alloc, greeting(alloc)?)?;
    go_on(rt, alloc, &mut machine)?;
    let frame = machine.next_frame(1).expect(rt, "a request");
    let (fid, offset, piece) = (2, 0, seq(alloc, b"hi!")?);
    let message = Tmsg::Write { fid, offset, piece };
    let (tag, used) = (0, frame.len());
    assert!(rt; decode_t(alloc, &frame)? == Decoded::Whole { tag, message, used });
    assert!(rt; machine.next_frame(1).is_none() && machine.ended().is_none());
    let reply = b"\x0B\0\0\0\x77\0\0\x03\0\0\0".as_slice();
    for (link, wrong) in [
        (1, b"\x0B\0\0\0\x77\0\0\x04\0\0\0".as_slice()),
        (1, b"\x0B\0\0\0\x77\x01\0\x03\0\0\0".as_slice()),
        (2, reply),
        (1, b"\x0B\0\0\0\x77\0\0\x03\0\0\0\0".as_slice()),
    ] {
        expect_refused(rt, alloc, &mut machine, link, wrong)?;
    }
    assert!(rt; !machine.lacks);
    machine.take_reply(alloc, 1, Vec::from_slice(alloc, reply)?)?;
    go_on(rt, alloc, &mut machine)?;
    assert_eq!(rt; machine.ended(), Some(End::Done));
    let frame = seq(alloc, reply)?;
    let (pid, link) = (1, 1);
    let events = [
        Event::Quantum { pid, count: 5 },
        Event::Reply { link, frame },
        Event::Quantum { pid, count: 1 },
    ];
    expect_events(rt, machine, &events);
    Ok(())
}

// Quanta of so many instructions of process 1.
fn quanta(alloc: Global, counts: &[u32]) -> Result<Vec<Event>, AllocError> {
    let mut events = Vec::new(alloc);
    for count in counts {
        events.push(Event::Quantum {
            pid: 1,
            count: *count,
        })?;
    }
    Ok(events)
}

// A code of one instruction runs such quanta, and ends so behind the last.
fn expect_run(
    rt: &impl Abort,
    alloc: Global,
    code: Inst,
    counts: &[u32],
    end: End,
) -> Result<(), Fail> {
    let mut machine = start(alloc, object(alloc, &[code])?)?;
    for _ in counts {
        assert_eq!(rt; machine.ended(), None);
        go_on(rt, alloc, &mut machine)?;
    }
    assert_eq!(rt; machine.ended(), Some(end));
    expect_events(rt, machine, &quanta(alloc, counts)?);
    Ok(())
}

/// An endless loop, an operation that is none of this part, a return at once, one print, and an object that lacks its types.
#[test]
fn runs_objects(rt: HostRuntime) -> Result<(), Fail> {
    let alloc = rt.alloc();
    let none = Operand::None;
    let jmp = inst(Op::Jmp, none, Middle::None, Operand::Imm(0));
    let send = inst(Op::Send, Operand::Fp(32), Middle::None, Operand::Fp(32));
    let ret = inst(Op::Ret, none, Middle::None, none);
    let (number, pc) = (110, 0);
    for (code, counts, end) in [
        (jmp, [2048, 2048, 2048].as_slice(), End::Limit),
        (send, [1].as_slice(), End::Faulted { number, pc }),
        (ret, [1].as_slice(), End::Done),
    ] {
        expect_run(&rt, alloc, code, counts, end)?;
    }
    expect_print(&rt, alloc)?;
    let mut bare = object(alloc, &[ret])?;
    bare.types = Seq::new(alloc);
    assert_eq!(rt; start(alloc, bare).err(), Some(StartFault::Malformed));
    Ok(())
}
