//! Where the code of a function is written.

ghost use Rattle.std.specs.Prelude.{◌≡◌, ◌+◌, ◌<◌, ◌≤◌, [], ◌∷◌, length, pos};
ghost use Rattle.limbo_values.specs.declared.number.Kind.{Kind};
ghost use Rattle.slot_code.specs.View.{view_spot, view_operand};
ghost use Rattle.dis_objects.specs.Frames as frames;
ghost use Rattle.dis_objects.specs.Code as dis;
ghost use Rattle.dis_objects.specs.Words.{frame_limit, data_limit};
ghost use Rattle.dis_objects.specs.Sites.{made_of, view_room, view_callee};
ghost use Rattle.dis_generation.specs.Site.{functions_of, function_of, context_of, IsSite, IsMaking, HasSpot, HasOperand};

use crate::operands::{as_middle, number_middle, number_source, offset, own};
use dis_isa::{Middle, Operand};
use dis_objects::{
    Making, Room, argument_bytes, argument_place, first_place, global_place, variable_place,
};
use limbo_values::Kind;
use slot_code::{Operand as CodeOperand, SlotFn, SlotModule, Spot};

/// A function of a module, and where the code stands.
#[derive(Drop)]
pub(crate) struct Site<'a> {
    /// The module.
    pub whole: &'a SlotModule,
    /// This function's number.
    pub number: usize,
    /// This function.
    pub function: &'a SlotFn,
    /// Its frame.
    pub room: Room,
    /// Where the module's data have zeros.
    pub zeros: u32,
    /// Where the code of each function begins.
    pub entries: &'a [u32],
    /// Where the code of each instruction of this function begins, and where that of the last ends.
    pub places: &'a [u32],
}

/// The number of the instruction where control goes on, in the code of the function.
pub(crate) fn place(site: &Site<'_>, pc: usize) -> u32
    requires stands { IsSite site.now }
    requires within { pc ≤ length (function_of site.now).code }
    ensures value { result ≡ dis.place (context_of site.now) pc }
    ensures small { result ≤ 1048576 }
{
    site.places[pc]
}

/// That number as an operand.
pub(crate) fn to_place(site: &Site<'_>, pc: usize) -> Operand
    requires stands { IsSite site.now }
    requires within { pc ≤ length (function_of site.now).code }
    ensures { result ≡ dis.to_place (context_of site.now) pc }
{
    Operand::Imm(offset(place(site, pc)))
}

/// The number of the first instruction of a function.
pub(crate) fn to_entry(site: &Site<'_>, function: u32) -> Operand
    requires stands { IsSite site.now }
    requires within { function < length (functions_of site.now) }
    ensures { result ≡ Operand.Imm (pos ((context_of site.now).entries function)) }
{
    Operand::Imm(offset(site.entries[function as usize]))
}

/// The number of the type of a print's frame.
pub(crate) fn print_type(site: &Site<'_>) -> Operand
    requires { IsSite site.now }
    ensures { result ≡ Operand.Imm (context_of site.now).print_type }
{
    Operand::Imm(offset((site.whole.functions.len() + 1) as u32))
}

/// The number of the type of a function's frame.
pub(crate) fn frame_type(site: &Site<'_>, function: u32) -> Operand
    requires stands { IsSite site.now }
    requires within { function < length (functions_of site.now) }
    ensures { result ≡ Operand.Imm (dis.frame_type function) }
{
    Operand::Imm(offset(function + 1))
}

// Where a temporary stands.
fn temporary_place(room: &Room, kind: Kind, number: u32) -> u32
    requires { frames.temporary_place (view_room room.now) kind number ≤ frame_limit }
    ensures { result ≡ frames.temporary_place (view_room room.now) kind number }
{
    match kind {
        Kind::Byte => room.bytes + number,
        Kind::Int => room.ints + 4 * number,
        Kind::Big => room.bigs + 8 * number,
    }
}

// Where an argument of what is being made ready stands.
fn ready_place(site: &Site<'_>, making: &Making<'_>, number: u32) -> u32
    requires stands { IsSite site.now }
    requires making { IsMaking site.now making.now }
    ensures value { result ≡ frames.ready_place (functions_of site.now) (context_of site.now).room (made_of making.now) number }
    ensures small { result ≤ frame_limit }
{
    let functions = site.whole.functions.as_slice();
    match making.innermost() {
        None => 0,
        Some(callee) => {
            let block = site.room.arguments + (making.bytes() - argument_bytes(functions, callee));
            let within = argument_place(functions, callee, number as usize);
            block + (within - first_place(callee))
        }
    }
}

// A place that is read: it is none of an argument.
fn read_place(site: &Site<'_>, spot: Spot) -> Operand
    requires stands { IsSite site.now }
    requires spot { HasSpot site.now (view_spot spot) }
    ensures { result ≡ dis.place_of (context_of site.now) [] (view_spot spot) }
{
    match spot {
        Spot::Variable { number, .. } => own(variable_place(site.function, number)),
        Spot::Global { kind, number } => {
            Operand::Mp(offset(global_place(&site.whole.globals, kind, number)))
        }
        Spot::Temporary { kind, number } => own(temporary_place(&site.room, kind, number)),
        Spot::Argument { .. } => own(0),
    }
}

/// A place that gets a number.
pub(crate) fn place_of(site: &Site<'_>, making: &Making<'_>, spot: Spot) -> Operand
    requires stands { IsSite site.now }
    requires making { IsMaking site.now making.now }
    requires spot { HasSpot site.now (view_spot spot) }
    ensures { result ≡ dis.place_of (context_of site.now) (made_of making.now) (view_spot spot) }
{
    match spot {
        Spot::Variable { .. } => read_place(site, spot),
        Spot::Global { .. } => read_place(site, spot),
        Spot::Temporary { .. } => read_place(site, spot),
        Spot::Argument { number, .. } => own(ready_place(site, making, number)),
    }
}

/// An operand as a source, whose datum stands at a place if it needs one.
pub(crate) fn source(site: &Site<'_>, operand: CodeOperand, at: u32) -> Operand
    requires stands { IsSite site.now }
    requires operand { HasOperand site.now (view_operand operand) }
    requires near { at ≤ data_limit }
    ensures { result ≡ dis.source (context_of site.now) (view_operand operand) at }
{
    match operand {
        CodeOperand::In(spot) => read_place(site, spot),
        CodeOperand::Number(number) => number_source(number, at),
    }
}

/// An operand as a middle.
pub(crate) fn middle_of(site: &Site<'_>, operand: CodeOperand, at: u32) -> Middle
    requires stands { IsSite site.now }
    requires operand { HasOperand site.now (view_operand operand) }
    requires near { at ≤ data_limit }
    ensures { result ≡ dis.middle_of (context_of site.now) (view_operand operand) at }
{
    match operand {
        CodeOperand::In(spot) => as_middle(read_place(site, spot)),
        CodeOperand::Number(number) => number_middle(number, at),
    }
}
