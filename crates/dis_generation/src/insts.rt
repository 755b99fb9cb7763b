//! The code of an instruction.

ghost use Rattle.std.specs.Prelude.{◌≡◌, ◌+◌, ◌<◌, ◌≤◌, suc, [], ◌∷◌, ◌++◌, pos, length, map, OnOk};
ghost use Rattle.slot_code.specs.View.{view_spot, view_operand, view_inst};
ghost use Rattle.dis_objects.specs.Frames as frames;
ghost use Rattle.dis_objects.specs.Code as dis;
ghost use Rattle.dis_objects.specs.Words.{frame_limit, data_limit};
ghost use Rattle.dis_objects.specs.Sites.{made_of, view_callee};
ghost use Rattle.dis_generation.specs.Site.{functions_of, function_of, context_of, IsSite, IsMaking, HasSpot, HasOperand};

use crate::operands::{
    ANSWER_PLACE, PASSING_PLACE, SYS, arithmetic_op, make, move_op, number_middle, offset, own,
};
use crate::site::{Site, frame_type, place_of, print_type, to_entry};
use dis_isa::{Inst, Middle, Op, Operand};
use dis_objects::{Callee, Making, argument_bytes, first_place};
use limbo_values::{Kind, Operator, Unary};
use slot_code::Spot;
use std::alloc::AllocError;

// The number of `print` in the table of Sys.
const PRINT: i32 = 16;

// Where the frame of a print has the format.
const FORMAT_PLACE: u32 = 32;

/// Adds one instruction.
pub(crate) fn put(
    insts: &mut Vec<Inst>,
    op: Op,
    src: Operand,
    middle: Middle,
    dst: Operand,
) -> Result<(), AllocError>
    ensures { OnOk result (insts.new.items ≡ insts.old.items ++ dis.inst op src middle dst ∷ []) }
{
    insts.push(make(op, src, middle, dst))?;
    Ok(())
}

// Adds what moves a number.
pub(crate) fn put_moving(
    insts: &mut Vec<Inst>,
    kind: Kind,
    src: Operand,
    dst: Operand,
) -> Result<(), AllocError>
    ensures { OnOk result (insts.new.items ≡ insts.old.items ++ dis.moving kind src dst ∷ []) }
{
    put(insts, move_op(kind), src, Middle::None, dst)
}

// Adds a jump to an instruction.
pub(crate) fn put_jump(insts: &mut Vec<Inst>, place: u32) -> Result<(), AllocError>
    requires { place ≤ 1073741824 }
    ensures { OnOk result (insts.new.items ≡ insts.old.items ++ dis.jump_to place ∷ []) }
{
    let to = Operand::Imm(offset(place));
    put(insts, Op::Jmp, Operand::None, Middle::None, to)
}

// Adds a comparison that gives 1 or 0, whose first instruction is the one of this number.
pub(crate) fn put_decided(
    insts: &mut Vec<Inst>,
    here: u32,
    op: Op,
    src: Operand,
    middle: Middle,
    dst: Operand,
) -> Result<(), AllocError>
    requires here { here ≤ 1048576 }
    ensures { OnOk result (insts.new.items ≡ insts.old.items ++ dis.decided here op src middle dst) }
{
    let met = Operand::Imm(offset(here + 3));
    put(insts, op, src, middle, met)?;
    put_moving(insts, Kind::Int, Operand::Imm(0), dst)?;
    put_jump(insts, here + 4)?;
    put_moving(insts, Kind::Int, Operand::Imm(1), dst)
}

// Adds an operation on one number.
pub(crate) fn put_altered(
    insts: &mut Vec<Inst>,
    unary: Unary,
    kind: Kind,
    src: Operand,
    dst: Operand,
) -> Result<(), AllocError>
    ensures { OnOk result (insts.new.items ≡ insts.old.items ++ dis.altered unary kind src dst ∷ []) }
{
    let add = arithmetic_op(Operator::Add, kind);
    let subtract = arithmetic_op(Operator::Subtract, kind);
    match unary {
        Unary::Plus => put_moving(insts, kind, src, dst),
        Unary::Minus => put(insts, subtract, src, Middle::Imm(0), dst),
        Unary::Complement => put(insts, subtract, src, Middle::Imm(-1), dst),
        Unary::Increment => put(insts, add, src, Middle::Imm(1), dst),
        Unary::Decrement => put(insts, add, src, Middle::Imm(-1), dst),
    }
}

// Adds two conversions, one behind the other.
fn put_two(
    insts: &mut Vec<Inst>,
    first: Op,
    second: Op,
    src: Operand,
    dst: Operand,
) -> Result<(), AllocError>
    ensures { OnOk result (insts.new.items ≡ insts.old.items
        ++ dis.inst first src Middle.None (dis.own frames.passing_place)
        ∷ dis.inst second (dis.own frames.passing_place) Middle.None dst ∷ []) }
{
    let passing = own(PASSING_PLACE);
    put(insts, first, src, Middle::None, passing)?;
    put(insts, second, passing, Middle::None, dst)
}

// Adds a conversion from one kind to another.
pub(crate) fn put_converted(
    insts: &mut Vec<Inst>,
    from: Kind,
    to: Kind,
    src: Operand,
    dst: Operand,
) -> Result<(), AllocError>
    ensures { OnOk result (insts.new.items ≡ insts.old.items ++ dis.converted from to src dst) }
{
    match from {
        Kind::Byte => match to {
            Kind::Byte => put_moving(insts, Kind::Byte, src, dst),
            Kind::Int => put(insts, Op::Cvtbw, src, Middle::None, dst),
            Kind::Big => put_two(insts, Op::Cvtbw, Op::Cvtwl, src, dst),
        },
        Kind::Int => match to {
            Kind::Byte => put(insts, Op::Cvtwb, src, Middle::None, dst),
            Kind::Int => put_moving(insts, Kind::Int, src, dst),
            Kind::Big => put(insts, Op::Cvtwl, src, Middle::None, dst),
        },
        Kind::Big => match to {
            Kind::Byte => put_two(insts, Op::Cvtlw, Op::Cvtwb, src, dst),
            Kind::Int => put(insts, Op::Cvtlw, src, Middle::None, dst),
            Kind::Big => put_moving(insts, Kind::Big, src, dst),
        },
    }
}

// Adds what moves so many bytes.
fn put_moved(
    insts: &mut Vec<Inst>,
    bytes: u32,
    src: Operand,
    dst: Operand,
    at: u32,
) -> Result<(), AllocError>
    requires near { at ≤ 1073741824 }
    ensures { OnOk result (insts.new.items ≡ insts.old.items ++ dis.moved bytes src dst at ∷ []) }
{
    let middle = number_middle(i64::from(bytes), at);
    put(insts, Op::Movm, src, middle, dst)
}

// Adds an answer, and the return.
pub(crate) fn put_answer(insts: &mut Vec<Inst>, kind: Kind, src: Operand) -> Result<(), AllocError>
    ensures { OnOk result (insts.new.items ≡ insts.old.items ++ dis.answer kind src) }
{
    let dst = Operand::IndFp {
        inner: offset(ANSWER_PLACE),
        outer: 0,
    };
    put_moving(insts, kind, src, dst)?;
    put(insts, Op::Ret, Operand::None, Middle::None, Operand::None)
}

// The word of the frame that is made.
fn made_word(site: &Site<'_>) -> Operand
    requires { IsSite site.now }
    ensures { result ≡ dis.made_word (context_of site.now) }
{
    own(site.room.made)
}

// A byte of it.
fn in_made(site: &Site<'_>, at: u32) -> Operand
    requires stands { IsSite site.now }
    requires small { at ≤ 1073741824 }
    ensures { result ≡ dis.in_made (context_of site.now) at }
{
    Operand::IndFp {
        inner: offset(site.room.made),
        outer: offset(at),
    }
}

// Where the arguments of a callee stand that is made ready within these.
fn block(site: &Site<'_>, making: &Making<'_>) -> Operand
    requires stands { IsSite site.now }
    requires making { IsMaking site.now making.now }
    ensures { result ≡ dis.own (frames.block_place (functions_of site.now) (context_of site.now).room (made_of making.now)) }
{
    own(site.room.arguments + making.bytes())
}

// Adds what makes a callee's arguments zeros.
pub(crate) fn put_zeroed(
    insts: &mut Vec<Inst>,
    site: &Site<'_>,
    making: &Making<'_>,
    callee: Callee<'_>,
    at: u32,
) -> Result<(), AllocError>
    requires stands { IsSite site.now }
    requires making { IsMaking site.now making.now }
    requires callee { frames.argument_bytes (functions_of site.now) (view_callee callee) ≤ frame_limit }
    requires near { at ≤ 1073741824 }
    ensures { OnOk result (insts.new.items ≡ insts.old.items
        ++ dis.zeroed (context_of site.now) (made_of making.now) (view_callee callee.entry) at ∷ []) }
{
    let bytes = argument_bytes(&site.whole.functions, callee);
    let zeros = Operand::Mp(offset(site.zeros));
    put_moved(insts, bytes, zeros, block(site, making), at)
}

// Adds what moves its arguments to its frame.
fn put_passed(
    insts: &mut Vec<Inst>,
    site: &Site<'_>,
    making: &Making<'_>,
    callee: Callee<'_>,
    at: u32,
) -> Result<(), AllocError>
    requires stands { IsSite site.now }
    requires making { IsMaking site.now making.now }
    requires callee { frames.argument_bytes (functions_of site.now) (view_callee callee) ≤ frame_limit }
    requires near { at ≤ 1073741824 }
    ensures { OnOk result (insts.new.items ≡ insts.old.items
        ++ dis.passed (context_of site.now) (made_of making.now) (view_callee callee.entry) at ∷ []) }
{
    let bytes = argument_bytes(&site.whole.functions, callee);
    let frame = in_made(site, first_place(callee));
    put_moved(insts, bytes, block(site, making), frame, at)
}

// Adds what puts the address of the place for the answer there.
fn put_answer_to(
    insts: &mut Vec<Inst>,
    site: &Site<'_>,
    making: &Making<'_>,
    into: Spot,
) -> Result<(), AllocError>
    requires stands { IsSite site.now }
    requires making { IsMaking site.now making.now }
    requires into { HasSpot site.now (view_spot into) }
    ensures { OnOk result (insts.new.items ≡ insts.old.items
        ++ dis.answer_to (context_of site.now) (made_of making.now) (view_spot into) ∷ []) }
{
    let dst = in_made(site, ANSWER_PLACE);
    put(
        insts,
        Op::Lea,
        place_of(site, making, into),
        Middle::None,
        dst,
    )
}

// Adds a call of what was begun last, within these.
pub(crate) fn put_call(
    insts: &mut Vec<Inst>,
    site: &Site<'_>,
    making: &Making<'_>,
    callee: Callee<'_>,
    at: u32,
    function: u32,
    into: Spot,
) -> Result<(), AllocError>
    requires stands { IsSite site.now }
    requires making { IsMaking site.now making.now }
    requires callee { frames.argument_bytes (functions_of site.now) (view_callee callee) ≤ frame_limit }
    requires near { at ≤ data_limit }
    requires there { function < length (functions_of site.now) }
    requires into { HasSpot site.now (view_spot into) }
    ensures { OnOk result (insts.new.items ≡ insts.old.items
        ++ dis.calling (context_of site.now) at function (view_spot into) (view_callee callee.entry ∷ made_of making.now)) }
{
    let made = made_word(site);
    put(
        insts,
        Op::Frame,
        frame_type(site, function),
        Middle::None,
        made,
    )?;
    put_passed(insts, site, making, callee, at)?;
    put_answer_to(insts, site, making, into)?;
    put(
        insts,
        Op::Call,
        made,
        Middle::None,
        to_entry(site, function),
    )
}

// Adds a print by what was begun last, within these.
pub(crate) fn put_print(
    insts: &mut Vec<Inst>,
    site: &Site<'_>,
    making: &Making<'_>,
    callee: Callee<'_>,
    at: u32,
    into: Spot,
) -> Result<(), AllocError>
    requires stands { IsSite site.now }
    requires making { IsMaking site.now making.now }
    requires callee { frames.argument_bytes (functions_of site.now) (view_callee callee) ≤ frame_limit }
    requires near { at ≤ data_limit }
    requires into { HasSpot site.now (view_spot into) }
    ensures { OnOk result (insts.new.items ≡ insts.old.items
        ++ dis.printing (context_of site.now) at (view_spot into) (view_callee callee.entry ∷ made_of making.now)) }
{
    let made = made_word(site);
    let text = Operand::Mp(offset(at));
    put(insts, Op::Frame, print_type(site), Middle::None, made)?;
    put(
        insts,
        Op::Movp,
        text,
        Middle::None,
        in_made(site, FORMAT_PLACE),
    )?;
    put_passed(insts, site, making, callee, at + 4)?;
    put_answer_to(insts, site, making, into)?;
    put(insts, Op::Mcall, made, Middle::Imm(PRINT), Operand::Mp(SYS))
}
