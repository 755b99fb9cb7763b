//! Where variables stand.

ghost use Rattle.std.specs.Prelude.{◌≡◌, ◌+◌, ◌≤◌, map, take};
ghost use Rattle.slot_code.specs.Layout as layout;
ghost use Rattle.slot_code.specs.View.{view_function, view_global};
ghost use Rattle.dis_objects.specs.Frames as frames;
ghost use Rattle.dis_objects.specs.Code as dis;
ghost use Rattle.dis_objects.specs.Words.{globals_limit};

use crate::layout::{LINKAGE, place_in};
use limbo_values::Kind;
use slot_code::{GlobalVariable, SlotFn};

// Where the module's variables begin in its data.
const GLOBALS: u32 = 8;

/// Where a variable of a function stands in its frame.
pub fn variable_place(function: &SlotFn, number: u32) -> u32
    requires { layout.end_of 32 function.now.variables.items ≤ 1048576 }
    ensures { result ≡ frames.variable_place (view_function function.now) number }
{
    place_in(LINKAGE, function.variables.as_slice(), number as usize)
}

// How many bytes a variable of the module has.
fn global_bytes(kind: Option<Kind>) -> u32
    ensures value { result ≡ dis.global_bytes kind }
    ensures few { result ≤ 8 }
{
    match kind {
        None => 4,
        Some(number) => match number {
            Kind::Byte => 4,
            Kind::Int => 4,
            Kind::Big => 8,
        },
    }
}

// How many those in front of one have.
#[tactic(auto, using(crate::proofs::Layouts::taken_none, crate::proofs::Layouts::taken_more))]
fn bytes_before(globals: &[GlobalVariable], number: usize) -> u32
    requires { dis.globals_bytes (map view_global globals.now) ≤ globals_limit }
    ensures { result ≡ dis.globals_bytes (take number (map view_global globals.now)) }
{
    let mut bytes = 0;
    let mut left = number;
    for global in globals {
        if left == 0 {
            return bytes;
        }
        bytes += global_bytes(global.kind);
        left -= 1;
    }
    bytes
}

/// Where a number of this kind stands in a variable of the module: a byte in the last byte of its word.
#[tactic(auto, using(crate::proofs::Layouts::taken_few))]
pub fn global_place(globals: &[GlobalVariable], kind: Kind, number: u32) -> u32
    requires { dis.globals_bytes (map view_global globals.now) ≤ globals_limit }
    ensures { result ≡ dis.global_place (map view_global globals.now) kind number }
{
    let first = GLOBALS + bytes_before(globals, number as usize);
    match kind {
        Kind::Byte => first + 3,
        Kind::Int => first,
        Kind::Big => first,
    }
}

/// Where the data of the functions begin: behind the module's variables.
pub fn data_place(globals: &[GlobalVariable]) -> u32
    requires { dis.globals_bytes (map view_global globals.now) ≤ globals_limit }
    ensures { result ≡ 8 + dis.globals_bytes (map view_global globals.now) }
{
    let mut place = GLOBALS;
    for global in globals {
        place += global_bytes(global.kind);
    }
    place
}
