use crate::op::Op;

/// A source or destination of an instruction. Offsets are in bytes.
#[derive(Clone, Copy, PartialEq, Eq, Debug)]
pub enum Operand {
    /// The instruction has no such operand.
    None,
    /// The number itself.
    Imm(i32),
    /// The word at this offset of the frame.
    Fp(i32),
    /// The word at this offset of the module's data.
    Mp(i32),
    /// The word at `outer` of the block whose address stands at `inner` of the frame.
    IndFp { inner: i32, outer: i32 },
    /// The word at `outer` of the block whose address stands at `inner` of the module's data.
    IndMp { inner: i32, outer: i32 },
}

/// The middle operand of an instruction. Offsets are in bytes.
#[derive(Clone, Copy, PartialEq, Eq, Debug)]
pub enum Middle {
    /// There is none: three-operand arithmetic takes the destination in its place.
    None,
    /// The number itself.
    Imm(i32),
    /// The word at this offset of the frame.
    Fp(i32),
    /// The word at this offset of the module's data.
    Mp(i32),
}

/// An instruction: its operation and its operands.
#[derive(Clone, Copy, PartialEq, Eq, Debug)]
pub struct Inst {
    pub op: Op,
    pub middle: Middle,
    pub src: Operand,
    pub dst: Operand,
}
