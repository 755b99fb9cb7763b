//! Rows of the table of opcodes.

use dis_isa::{Op, code_of, op_of};
use std::test::Fail;

/// The numbers of eleven operations, and the first number that has none.
#[test]
fn rows_of_the_manual(rt: HostRuntime) -> Result<(), Fail> {
    let rows = [
        (0x00, Op::Nop),
        (0x05, Op::Frame),
        (0x08, Op::Load),
        (0x09, Op::Mcall),
        (0x0C, Op::Ret),
        (0x27, Op::Lea),
        (0x29, Op::Movp),
        (0x2D, Op::Movw),
        (0x3A, Op::Addw),
        (0x70, Op::Slicela),
        (0x9F, Op::Casel),
    ];
    for (code, op) in rows {
        assert_eq!(rt; op_of(code), Some(op));
        assert_eq!(rt; code_of(op), code);
    }
    assert_eq!(rt; op_of(0xA0), None);
    Ok(())
}
