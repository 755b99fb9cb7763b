//! The code of each instruction, at a site.

ghost use Rattle.std.specs.Prelude.{◌≡◌, ◌+◌, ◌-◌, ◌≤◌, suc, [], ◌∷◌, ◌++◌, length, map, OnOk};
ghost use Rattle.slot_code.specs.Code as code;
ghost use Rattle.slot_code.specs.View.{view_spot, view_operand, view_inst};
ghost use Rattle.dis_objects.specs.Frames as frames;
ghost use Rattle.dis_objects.specs.Code as dis;
ghost use Rattle.dis_objects.specs.Words.{data_limit};
ghost use Rattle.dis_objects.specs.Sites.{made_of, view_callee, IsCounted};
ghost use Rattle.dis_generation.specs.Site.{functions_of, function_of, context_of, IsSite, IsMaking, IsMakingAt};
ghost use Rattle.dis_generation.specs.Site.{HasInst, HasSpot, HasOperand};

use crate::bytes::source_bytes;
use crate::insts::{
    put, put_altered, put_answer, put_call, put_converted, put_decided, put_jump, put_moving,
    put_print, put_zeroed,
};
use crate::operands::{arithmetic_op, branch_op, shift_op};
use crate::site::{Site, middle_of, place, place_of, source, to_place};
use dis_isa::{Inst, Middle, Op, Operand};
use dis_objects::{Callee, Making, spot_kind};
use limbo_typed::Operation;
use limbo_values::{Comparison, Kind};
use slot_code::{Inst as CodeInst, Operand as CodeOperand, Spot};
use std::alloc::AllocError;

// Adds what moves a number to a place.
fn emit_move(
    insts: &mut Vec<Inst>,
    site: &Site<'_>,
    making: &Making<'_>,
    pc: usize,
    at: u32,
    into: Spot,
    from: CodeOperand,
) -> Result<(), AllocError>
    requires stands { IsSite site.now }
    requires making { IsMakingAt site.now making.now pc }
    requires into { HasSpot site.now (view_spot into) }
    requires from { HasOperand site.now (view_operand from) }
    requires near { at ≤ data_limit }
    ensures { OnOk result (insts.new.items ≡ insts.old.items
        ++ dis.inst_code (context_of site.now) pc at (made_of making.now) (code.Move (view_spot into) (view_operand from))) }
{
    let src = source(site, from, at);
    put_moving(insts, spot_kind(into), src, place_of(site, making, into))
}

// Adds an operation on one number.
fn emit_alter(
    insts: &mut Vec<Inst>,
    site: &Site<'_>,
    making: &Making<'_>,
    pc: usize,
    at: u32,
    operation: Operation,
    into: Spot,
    of: CodeOperand,
) -> Result<(), AllocError>
    requires stands { IsSite site.now }
    requires making { IsMakingAt site.now making.now pc }
    requires within { pc ≤ length (function_of site.now).code }
    requires into { HasSpot site.now (view_spot into) }
    requires operand { HasOperand site.now (view_operand of) }
    requires near { at ≤ data_limit }
    ensures { OnOk result (insts.new.items ≡ insts.old.items
        ++ dis.inst_code (context_of site.now) pc at (made_of making.now) (code.Alter operation (view_spot into) (view_operand of))) }
{
    let src = source(site, of, at);
    let dst = place_of(site, making, into);
    match operation {
        Operation::Alter { unary, kind } => put_altered(insts, unary, kind, src, dst),
        Operation::Not => {
            let here = place(site, pc);
            put_decided(insts, here, Op::Beqw, src, Middle::Imm(0), dst)
        }
        Operation::Convert { from, to } => put_converted(insts, from, to, src, dst),
        _ => Ok(()),
    }
}

// Adds an operation whose source is the right operand, of a kind, and whose middle is the left one.
fn put_operated(
    insts: &mut Vec<Inst>,
    site: &Site<'_>,
    op: Op,
    kind: Kind,
    at: u32,
    left: CodeOperand,
    right: CodeOperand,
    dst: Operand,
) -> Result<(), AllocError>
    requires stands { IsSite site.now }
    requires left { HasOperand site.now (view_operand left) }
    requires right { HasOperand site.now (view_operand right) }
    requires near { at + 8 ≤ data_limit }
    ensures { OnOk result (insts.new.items ≡ insts.old.items
        ++ dis.inst op (dis.source (context_of site.now) (view_operand right) at)
        (dis.middle_of (context_of site.now) (view_operand left) (at + dis.data_bytes (dis.source_data kind (view_operand right))))
        dst ∷ []) }
{
    let behind = at + source_bytes(kind, right);
    let src = source(site, right, at);
    put(insts, op, src, middle_of(site, left, behind), dst)
}

// Adds a comparison that gives 1 or 0.
fn put_compared(
    insts: &mut Vec<Inst>,
    site: &Site<'_>,
    here: u32,
    op: Op,
    kind: Kind,
    at: u32,
    left: CodeOperand,
    right: CodeOperand,
    dst: Operand,
) -> Result<(), AllocError>
    requires stands { IsSite site.now }
    requires here { here ≤ 1048576 }
    requires left { HasOperand site.now (view_operand left) }
    requires right { HasOperand site.now (view_operand right) }
    requires near { at + 8 ≤ data_limit }
    ensures { OnOk result (insts.new.items ≡ insts.old.items
        ++ dis.decided here op (dis.source (context_of site.now) (view_operand left) at)
        (dis.middle_of (context_of site.now) (view_operand right) (at + dis.data_bytes (dis.source_data kind (view_operand left))))
        dst) }
{
    let behind = at + source_bytes(kind, left);
    let src = source(site, left, at);
    put_decided(insts, here, op, src, middle_of(site, right, behind), dst)
}

// Adds an operation on two numbers.
fn emit_operate(
    insts: &mut Vec<Inst>,
    site: &Site<'_>,
    making: &Making<'_>,
    pc: usize,
    at: u32,
    operation: Operation,
    into: Spot,
    left: CodeOperand,
    right: CodeOperand,
) -> Result<(), AllocError>
    requires stands { IsSite site.now }
    requires making { IsMakingAt site.now making.now pc }
    requires within { pc ≤ length (function_of site.now).code }
    requires into { HasSpot site.now (view_spot into) }
    requires left { HasOperand site.now (view_operand left) }
    requires right { HasOperand site.now (view_operand right) }
    requires near { at + 8 ≤ data_limit }
    ensures { OnOk result (insts.new.items ≡ insts.old.items
        ++ dis.inst_code (context_of site.now) pc at (made_of making.now)
        (code.Operate operation (view_spot into) (view_operand left) (view_operand right))) }
{
    let dst = place_of(site, making, into);
    match operation {
        Operation::Arithmetic { operator, kind } => {
            let op = arithmetic_op(operator, kind);
            put_operated(insts, site, op, kind, at, left, right, dst)
        }
        Operation::Shift { shift, kind } => {
            let op = shift_op(shift, kind);
            put_operated(insts, site, op, Kind::Int, at, left, right, dst)
        }
        Operation::Compare { comparison, kind } => {
            let here = place(site, pc);
            let op = branch_op(comparison, kind);
            put_compared(insts, site, here, op, kind, at, left, right, dst)
        }
        _ => Ok(()),
    }
}

// Adds a branch that passes instructions where a comparison holds.
fn emit_branch(
    insts: &mut Vec<Inst>,
    site: &Site<'_>,
    pc: usize,
    at: u32,
    kind: Kind,
    comparison: Comparison,
    left: CodeOperand,
    right: CodeOperand,
    passes: usize,
) -> Result<(), AllocError>
    requires stands { IsSite site.now }
    requires there { HasInst site.now pc (code.Branch kind comparison (view_operand left) (view_operand right) passes) }
    requires near { at + 8 ≤ data_limit }
    ensures { OnOk result (insts.new.items ≡ insts.old.items
        ++ dis.inst_code (context_of site.now) pc at []
        (code.Branch kind comparison (view_operand left) (view_operand right) passes)) }
{
    let behind = at + source_bytes(kind, left);
    let src = source(site, left, at);
    let middle = middle_of(site, right, behind);
    let target = to_place(site, pc + 1 + passes);
    put(insts, branch_op(comparison, kind), src, middle, target)
}

// Adds a jump that passes instructions.
fn emit_jump(
    insts: &mut Vec<Inst>,
    site: &Site<'_>,
    pc: usize,
    passes: usize,
) -> Result<(), AllocError>
    requires stands { IsSite site.now }
    requires there { HasInst site.now pc (code.Jump passes) }
    ensures { OnOk result (insts.new.items ≡ insts.old.items ++ dis.inst_code (context_of site.now) pc 0 [] (code.Jump passes)) }
{
    put_jump(insts, place(site, pc + 1 + passes))
}

// Adds one that is no step of the program.
fn emit_skip(
    insts: &mut Vec<Inst>,
    site: &Site<'_>,
    pc: usize,
    passes: usize,
) -> Result<(), AllocError>
    requires stands { IsSite site.now }
    requires there { HasInst site.now pc (code.Skip passes) }
    ensures { OnOk result (insts.new.items ≡ insts.old.items ++ dis.inst_code (context_of site.now) pc 0 [] (code.Skip passes)) }
{
    put_jump(insts, place(site, pc + 1 + passes))
}

// Adds a jump back.
fn emit_back(insts: &mut Vec<Inst>, site: &Site<'_>, pc: usize, by: usize) -> Result<(), AllocError>
    requires stands { IsSite site.now }
    requires there { HasInst site.now pc (code.Back by) }
    ensures { OnOk result (insts.new.items ≡ insts.old.items ++ dis.inst_code (context_of site.now) pc 0 [] (code.Back by)) }
{
    put_jump(insts, place(site, pc.saturating_sub(by)))
}

// Adds the beginning of a callee, which is made ready.
fn emit_begin<'a>(
    insts: &mut Vec<Inst>,
    site: &Site<'_>,
    making: &mut Making<'a>,
    callee: Callee<'a>,
    at: u32,
) -> Result<(), AllocError>
    requires stands { IsSite site.now }
    requires making { IsMaking site.now making.old }
    requires fits { frames.all_bytes (functions_of site.now) (view_callee callee ∷ made_of making.old)
        ≤ frames.most_bytes (functions_of site.now) [] (function_of site.now).code }
    requires near { at ≤ data_limit }
    ensures added { OnOk result (insts.new.items ≡ insts.old.items
        ++ dis.zeroed (context_of site.now) (made_of making.old) (view_callee callee.entry) at ∷ []) }
    ensures made { OnOk result (made_of making.new ≡ view_callee callee.entry ∷ made_of making.old) }
    ensures counted { OnOk result (IsCounted (functions_of site.now) making.new) }
{
    put_zeroed(insts, site, making, callee, at)?;
    making.begin(site.whole.functions.as_slice(), callee)
}

// Adds a call, which is made.
fn emit_call<'a>(
    insts: &mut Vec<Inst>,
    site: &Site<'_>,
    making: &mut Making<'a>,
    pc: usize,
    at: u32,
    kind: Kind,
    function: u32,
    arguments: usize,
    into: Spot,
) -> Result<(), AllocError>
    requires stands { IsSite site.now }
    requires making { IsMakingAt site.now making.old pc }
    requires there { HasInst site.now pc (code.Call kind function arguments (view_spot into)) }
    requires near { at ≤ data_limit }
    ensures added { OnOk result (insts.new.items ≡ insts.old.items
        ++ dis.calling (context_of site.now) at function (view_spot into) (made_of making.old)) }
    ensures made { OnOk result (made_of making.new ≡ frames.without_first (made_of making.old)) }
    ensures counted { OnOk result (IsCounted (functions_of site.now) making.new) }
{
    match making.end(site.whole.functions.as_slice()) {
        Some(callee) => put_call(insts, site, making, callee, at, function, into),
        None => Ok(()),
    }
}

// Adds a print, which is made.
fn emit_print<'a>(
    insts: &mut Vec<Inst>,
    site: &Site<'_>,
    making: &mut Making<'a>,
    pc: usize,
    at: u32,
    arguments: usize,
    into: Spot,
) -> Result<(), AllocError>
    requires stands { IsSite site.now }
    requires making { IsMakingAt site.now making.old pc }
    requires there { HasInst site.now pc (code.Print arguments (view_spot into)) }
    requires near { at ≤ data_limit }
    ensures added { OnOk result (insts.new.items ≡ insts.old.items
        ++ dis.printing (context_of site.now) at (view_spot into) (made_of making.old)) }
    ensures made { OnOk result (made_of making.new ≡ frames.without_first (made_of making.old)) }
    ensures counted { OnOk result (IsCounted (functions_of site.now) making.new) }
{
    match making.end(site.whole.functions.as_slice()) {
        Some(callee) => put_print(insts, site, making, callee, at, into),
        None => Ok(()),
    }
}

// Adds an answer, and the return.
fn emit_return(
    insts: &mut Vec<Inst>,
    site: &Site<'_>,
    pc: usize,
    at: u32,
    value: CodeOperand,
) -> Result<(), AllocError>
    requires stands { IsSite site.now }
    requires there { HasInst site.now pc (code.Return (view_operand value)) }
    requires near { at ≤ data_limit }
    ensures { OnOk result (insts.new.items ≡ insts.old.items
        ++ dis.inst_code (context_of site.now) pc at [] (code.Return (view_operand value))) }
{
    let src = source(site, value, at);
    put_answer(insts, site.function.answer, src)
}

/// Adds the code of an instruction of the site's function, whose data stand from a place on, and goes on to what is being made ready then.
///
/// # Errors
/// Want of memory.
pub(crate) fn emit_inst<'a>(
    insts: &mut Vec<Inst>,
    site: &Site<'_>,
    making: &mut Making<'a>,
    pc: usize,
    at: u32,
    inst: &'a CodeInst,
) -> Result<(), AllocError>
    requires stands { IsSite site.now }
    requires making { IsMakingAt site.now making.old pc }
    requires there { HasInst site.now pc (view_inst inst.now) }
    requires near { at + 8 ≤ data_limit }
    ensures added { OnOk result (insts.new.items ≡ insts.old.items
        ++ dis.inst_code (context_of site.now) pc at (made_of making.old) (view_inst inst.now)) }
    ensures made { OnOk result (made_of making.new ≡ frames.made_by (made_of making.old) (view_inst inst.now)) }
    ensures counted { OnOk result (IsCounted (functions_of site.now) making.new) }
{
    match inst {
        CodeInst::Begin { function } => {
            emit_begin(insts, site, making, Callee::Calls(*function), at)
        }
        CodeInst::Format { pieces } => {
            emit_begin(insts, site, making, Callee::Prints(pieces.as_slice()), at)
        }
        CodeInst::Call {
            kind,
            function,
            arguments,
            into,
        } => emit_call(
            insts, site, making, pc, at, *kind, *function, *arguments, *into,
        ),
        CodeInst::Print { arguments, into } => {
            emit_print(insts, site, making, pc, at, *arguments, *into)
        }
        CodeInst::Move { into, from } => emit_move(insts, site, making, pc, at, *into, *from),
        CodeInst::Hand { into, from } => emit_move(insts, site, making, pc, at, *into, *from),
        CodeInst::Alter {
            operation,
            into,
            of,
        } => emit_alter(insts, site, making, pc, at, *operation, *into, *of),
        CodeInst::Operate {
            operation,
            into,
            left,
            right,
        } => emit_operate(
            insts, site, making, pc, at, *operation, *into, *left, *right,
        ),
        CodeInst::Branch {
            kind,
            comparison,
            left,
            right,
            passes,
        } => emit_branch(
            insts,
            site,
            pc,
            at,
            *kind,
            *comparison,
            *left,
            *right,
            *passes,
        ),
        CodeInst::Jump { passes } => emit_jump(insts, site, pc, *passes),
        CodeInst::Skip { passes } => emit_skip(insts, site, pc, *passes),
        CodeInst::Back { by } => emit_back(insts, site, pc, *by),
        CodeInst::Return { value } => emit_return(insts, site, pc, at, *value),
        CodeInst::Leave => put_answer(insts, site.function.answer, Operand::Imm(0)),
    }
}
