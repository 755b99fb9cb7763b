//! The code of all functions.

ghost use Rattle.std.specs.Prelude.{◌≡◌, ◌+◌, ◌<◌, ◌≤◌, [], ◌++◌, length, map, IfOk, OnOk};
ghost use Rattle.std.specs.Option.{ForSome};
ghost use Rattle.slot_code.specs.View.{view_module, view_function};
ghost use Rattle.dis_objects.specs.Code as dis;
ghost use Rattle.dis_objects.specs.Objects.{functions_code, function_data, functions_data, data_place};
ghost use Rattle.dis_objects.specs.Objects as objects;
ghost use Rattle.dis_objects.specs.Words.{data_limit};
ghost use Rattle.dis_generation.specs.Site.{context_of, function_of, functions_of, IsSite, IsReady};

use crate::bytes::inst_bytes;
use crate::emit::emit_inst;
use crate::insts::{put, put_jump};
use crate::operands::{ANSWER_PLACE, PASSING_PLACE, SYS, own};
use crate::site::Site;
use crate::sizes::places_of;
use dis_isa::{Inst, Middle, Op, Operand};
use dis_objects::{Making, room_of};
use slot_code::SlotModule;
use std::alloc::{AllocError, Global};

// Where the module's data hold the path of Sys.
const PATH: i32 = 0;

// Adds the code of the site's function, whose data stand from a place on, and gives the place behind them.
fn emit_function(
    alloc: Global,
    insts: &mut Vec<Inst>,
    site: &Site<'_>,
    at: u32,
) -> Result<u32, AllocError>
    requires stands { IsSite site.now }
    requires near { at + dis.data_bytes (function_data (functions_of site.now) (function_of site.now)) + 8 ≤ data_limit }
    ensures next { IfOk result (λ next. next ≡ at + dis.data_bytes (function_data (functions_of site.now) (function_of site.now))) }
    ensures added { OnOk result
        (insts.new.items ≡ insts.old.items ++ dis.insts_code (context_of site.now) 0 at [] (function_of site.now).code) }
{
    let functions = site.whole.functions.as_slice();
    let answer = site.function.answer;
    let mut making = Making::new(alloc);
    let mut next = at;
    for (pc, inst) in site.function.code.iter().enumerate() {
        let behind = next + inst_bytes(functions, answer, &making, inst);
        emit_inst(insts, site, &mut making, pc, next, inst)?;
        next = behind;
    }
    Ok(next)
}

/// Adds the code of all functions, whose data stand from a place on.
///
/// # Errors
/// Want of memory.
pub(crate) fn emit_functions(
    alloc: Global,
    insts: &mut Vec<Inst>,
    whole: &SlotModule,
    at: u32,
    zeros: u32,
    entries: &[u32],
) -> Result<(), AllocError>
    requires ready { IsReady (view_module whole.now) zeros entries.now }
    requires at { at ≡ data_place (view_module whole.now) }
    ensures { OnOk result
        (insts.new.items ≡ insts.old.items ++ functions_code (view_module whole.now) 0 at (view_module whole.now).functions) }
{
    let mut next = at;
    for (number, function) in whole.functions.iter().enumerate() {
        let places = places_of(alloc, &function.code, entries[number])?;
        let site = Site {
            whole,
            number,
            function,
            room: room_of(alloc, &whole.functions, function)?,
            zeros,
            entries,
            places: &places,
        };
        next = emit_function(alloc, insts, &site, next)?;
    }
    Ok(())
}

// Adds the entry of a module whose `init` begins here.
fn emit_begin(insts: &mut Vec<Inst>, begin: u32) -> Result<(), AllocError>
    requires begin { begin ≤ 1048576 }
    ensures { OnOk result (insts.new.items ≡ insts.old.items ++ objects.begins begin) }
{
    let path = Operand::Mp(PATH);
    let answer = own(PASSING_PLACE);
    let place = own(ANSWER_PLACE);
    put(insts, Op::Load, path, Middle::Imm(0), Operand::Mp(SYS))?;
    put(insts, Op::Lea, answer, Middle::None, place)?;
    put_jump(insts, begin)
}

/// Adds the entry of a module: Sys is loaded, the first function's answer gets a place that nobody reads, and control goes to `init`. A
/// module without one ends at once.
///
/// # Errors
/// Want of memory.
pub(crate) fn emit_entry(
    insts: &mut Vec<Inst>,
    whole: &SlotModule,
    init: Option<usize>,
    zeros: u32,
    entries: &[u32],
) -> Result<(), AllocError>
    requires ready { IsReady (view_module whole.now) zeros entries.now }
    requires within { ForSome init (λ n. n < length (view_module whole.now).functions) }
    ensures { OnOk result (insts.new.items ≡ insts.old.items ++ objects.entry (view_module whole.now).functions init) }
{
    match init {
        None => put(insts, Op::Ret, Operand::None, Middle::None, Operand::None),
        Some(number) => emit_begin(insts, entries[number]),
    }
}
