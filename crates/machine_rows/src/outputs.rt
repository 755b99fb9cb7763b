//! A print over outputs that have room, fail and get full.

use crate::objects::greeting;
use dis_machine::{End, Machine, Setup};
use inf_ports::MemSink;
use inf_text::Text;
use machine_host::run_machine;
use std::alloc::Global;
use std::process::Abort;
use std::test::Fail;

// Over an output with room for so many bytes, whose calls of these numbers fail, this is printed, and the program returns.
fn expect_printed(
    rt: &impl Abort,
    alloc: Global,
    room: usize,
    failing: &[u64],
    printed: &[u8],
) -> Result<(), Fail> {
    let objects = vec![in alloc; (Text::new(alloc), greeting(alloc)?)]?;
    let mut out = MemSink::new(alloc, room, Vec::from_slice(alloc, failing)?)?;
    let machine = Machine::start(alloc, Setup { objects, limit: 3 })?;
    let ran = run_machine(alloc, machine, &mut out);
    assert_eq!(rt; ran.end, End::Done);
    assert_eq!(rt; ran.journal.events.len(), 3);
    assert_eq!(rt; out.as_slice(), printed);
    Ok(())
}

/// An output with room, one whose first call fails, and one that is full before the end.
#[test]
fn prints_to_the_output(rt: HostRuntime) -> Result<(), Fail> {
    let alloc = rt.alloc();
    expect_printed(&rt, alloc, 8, &[], b"hi!")?;
    expect_printed(&rt, alloc, 8, &[0], b"")?;
    expect_printed(&rt, alloc, 2, &[], b"hi")
}
