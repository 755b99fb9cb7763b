//! The machine's instructions for operations, by the kinds of numbers and the types of elements; and which numbers an instruction holds
//! itself.

ghost use Rattle.std.specs.Prelude.{◌≡◌, if◌then◌else◌};
ghost use Rattle.limbo_types.specs.View.{view_ty};
ghost use Rattle.value_code.specs.Operands.{Scene};
ghost use Rattle.value_code.specs.Data as of_data;
ghost use Rattle.value_code.specs.Works as works;

use dis_isa::Op;
use limbo_typed::Sequence;
use limbo_types::Ty;
use limbo_values::{Comparison, Kind, Operator, Shift};

// One of three, by a kind.
fn by_kind(byte: Op, int: Op, big: Op, kind: Kind) -> Op
    ensures { result ≡ works.by_kind byte int big kind }
{
    match kind {
        Kind::Byte => byte,
        Kind::Int => int,
        Kind::Big => big,
    }
}

/// The instruction of an operator on two numbers of a kind.
pub fn arithmetic_op(operator: Operator, kind: Kind) -> Op
    ensures { result ≡ works.arithmetic_op operator kind }
{
    match operator {
        Operator::Add => by_kind(Op::Addb, Op::Addw, Op::Addl, kind),
        Operator::Subtract => by_kind(Op::Subb, Op::Subw, Op::Subl, kind),
        Operator::Multiply => by_kind(Op::Mulb, Op::Mulw, Op::Mull, kind),
        Operator::Divide => by_kind(Op::Divb, Op::Divw, Op::Divl, kind),
        Operator::Remainder => by_kind(Op::Modb, Op::Modw, Op::Modl, kind),
        Operator::And => by_kind(Op::Andb, Op::Andw, Op::Andl, kind),
        Operator::Xor => by_kind(Op::Xorb, Op::Xorw, Op::Xorl, kind),
        Operator::Or => by_kind(Op::Orb, Op::Orw, Op::Orl, kind),
    }
}

/// That of a shift of a number of a kind.
pub fn shift_op(shift: Shift, kind: Kind) -> Op
    ensures { result ≡ works.shift_op shift kind }
{
    match shift {
        Shift::Left => by_kind(Op::Shlb, Op::Shlw, Op::Shll, kind),
        Shift::Right => by_kind(Op::Shrb, Op::Shrw, Op::Shrl, kind),
    }
}

/// The branch where a comparison holds of two numbers of a kind.
pub fn branch_op(comparison: Comparison, kind: Kind) -> Op
    ensures { result ≡ works.branch_op comparison kind }
{
    match comparison {
        Comparison::Equal => by_kind(Op::Beqb, Op::Beqw, Op::Beql, kind),
        Comparison::Unequal => by_kind(Op::Bneb, Op::Bnew, Op::Bnel, kind),
        Comparison::Less => by_kind(Op::Bltb, Op::Bltw, Op::Bltl, kind),
        Comparison::AtMost => by_kind(Op::Bleb, Op::Blew, Op::Blel, kind),
        Comparison::Greater => by_kind(Op::Bgtb, Op::Bgtw, Op::Bgtl, kind),
        Comparison::AtLeast => by_kind(Op::Bgeb, Op::Bgew, Op::Bgel, kind),
    }
}

/// The branch where a comparison holds of two strings.
pub fn text_branch_op(comparison: Comparison) -> Op
    ensures { result ≡ works.text_branch_op comparison }
{
    match comparison {
        Comparison::Equal => Op::Beqc,
        Comparison::Unequal => Op::Bnec,
        Comparison::Less => Op::Bltc,
        Comparison::AtMost => Op::Blec,
        Comparison::Greater => Op::Bgtc,
        Comparison::AtLeast => Op::Bgec,
    }
}

/// The move of a number of a kind.
pub fn move_op(kind: Kind) -> Op
    ensures { result ≡ works.move_op kind }
{
    by_kind(Op::Movb, Op::Movw, Op::Movl, kind)
}

// One of two for a value of parts: by its type where it refers to something, and else as so many bytes.
fn by_parts(typed: Op, bytes: Op, refers: bool) -> Op
    ensures { result ≡ (if refers then typed else bytes) }
{
    if refers { typed } else { bytes }
}

/// The instruction that puts an item of a type in front of a list, where it is told whether such a value refers to something.
#[tactic(auto, using(limbo_types::proofs::View::the_types, crate::proofs::Others::is_reference))]
pub fn cons_op(refers: bool, ty: &Ty) -> Op
    ensures { result ≡ works.cons_op refers (view_ty ty.now) }
{
    match ty {
        Ty::Byte => Op::Consb,
        Ty::Int => Op::Consw,
        Ty::Big => Op::Consl,
        Ty::Tuple(_) => by_parts(Op::Consmp, Op::Consm, refers),
        Ty::Adt(_) => by_parts(Op::Consmp, Op::Consm, refers),
        Ty::Nothing => Op::Consm,
        _ => Op::Consp,
    }
}

/// The instruction that gives the first item of a list, of a type.
#[tactic(auto, using(limbo_types::proofs::View::the_types, crate::proofs::Others::is_reference))]
pub fn head_op(refers: bool, ty: &Ty) -> Op
    ensures { result ≡ works.head_op refers (view_ty ty.now) }
{
    match ty {
        Ty::Byte => Op::Headb,
        Ty::Int => Op::Headw,
        Ty::Big => Op::Headl,
        Ty::Tuple(_) => by_parts(Op::Headmp, Op::Headm, refers),
        Ty::Adt(_) => by_parts(Op::Headmp, Op::Headm, refers),
        Ty::Nothing => Op::Headm,
        _ => Op::Headp,
    }
}

/// The instruction that makes a channel of values of a type.
#[tactic(auto, using(limbo_types::proofs::View::the_types, crate::proofs::Others::is_reference))]
pub fn channel_op(refers: bool, ty: &Ty) -> Op
    ensures { result ≡ works.channel_op refers (view_ty ty.now) }
{
    match ty {
        Ty::Byte => Op::Newcb,
        Ty::Int => Op::Newcw,
        Ty::Big => Op::Newcl,
        Ty::Tuple(_) => by_parts(Op::Newcmp, Op::Newcm, refers),
        Ty::Adt(_) => by_parts(Op::Newcmp, Op::Newcm, refers),
        Ty::Nothing => Op::Newcm,
        _ => Op::Newcp,
    }
}

/// The instruction that gives the length of a string, an array or a list.
pub fn length_op(sequence: Sequence) -> Op
    ensures { (s : Scene) → result ≡ works.length_op s sequence }
{
    match sequence {
        Sequence::Chars => Op::Lenc,
        Sequence::Array => Op::Lena,
        Sequence::List => Op::Lenl,
    }
}

/// The instruction that cuts a slice out of a string or an array.
pub fn slice_op(sequence: Sequence) -> Op
    ensures { (s : Scene) → result ≡ works.slice_op s sequence }
{
    match sequence {
        Sequence::Chars => Op::Slicec,
        Sequence::Array => Op::Slicea,
        Sequence::List => Op::Slicea,
    }
}

/// Whether a number is an immediate as a source, which has 30 bits.
pub fn fits_source(number: i64) -> bool
    ensures { result ≡ of_data.fits_source number }
{
    number >= -536_870_912 && number <= 536_870_911
}
