//! Instructions that make strings (Dis Virtual Machine Specification, the instructions by name): addc, slicec, insc.

ghost use Rattle.std.specs.Prelude.{◌≡◌, ◌+◌, ◌<◌, ◌^◌, true, IfSome, OnErr};
ghost use Rattle.std.specs.Option.{option_map};
ghost use Rattle.dis_file.specs.declared.object.Object.{Object};
ghost use Rattle.ref_heap.specs.declared.word.Ref.{Ref as CodeRef};
ghost use Rattle.ref_heap.specs.Store.{AreHeld};
ghost use Rattle.limbo_values.specs.Texts as values;
ghost use Rattle.dis_meaning.specs.Words as words;
ghost use Rattle.dis_memory.specs.Kinds.{text_at};
ghost use Rattle.dis_memory.specs.Naming.{names};
ghost use Rattle.dis_memory.specs.Places.{reference_at};
ghost use Rattle.dis_memory.specs.Raising.{unless_raised};
ghost use Rattle.dis_memory.specs.Strings as strings;
ghost use Rattle.dis_places.specs.View.{view_process, view_spot, view_world};
ghost use Rattle.dis_places.specs.Words.{Gives};
ghost use Rattle.dis_results.specs.Going.{Goes};
ghost use Rattle.dis_strings.specs.Renewing.{Changes};
ghost use Rattle.dis_strings.specs.Telling.{left_reference};

use crate::giving::give_text;
use crate::operands::{middle_reference, source_text, text_there};
use crate::renewing::{Change, Edit, give_change, own_block};
use crate::texts::{joined, place_in, sliced, with_character};
use dis_isa::{Inst, Middle};
use dis_kinds::text_of;
use dis_places::{Halt, Memory, Process, Raise, Ref, Spot, spot_of};
use dis_results::{given_int, has_reference, source_int};
use limbo_values::joined_len;
use std::alloc::Global;
use sys_print::character;

// What the middle refers to; where there is none, the destination.
fn left_reference(memory: &Memory, process: &Process, inst: Inst) -> Result<Option<Ref>, Halt>
    ensures { Gives (option_map (λ (r : CodeRef). r.serial)) result
        (left_reference (view_world memory.now) (view_process process.now) inst.middle inst.dst) }
{
    match inst.middle {
        Middle::None => match spot_of(memory, process, inst.dst) {
            Ok(spot) => match has_reference(memory, process, spot) {
                Ok(block) => Ok(block),
                Err(fault) => Err(Halt::Fault(fault)),
            },
            Err(halt) => Err(halt),
        },
        _ => match middle_reference(memory, process, inst.middle) {
            Ok(block) => Ok(block),
            Err(fault) => Err(Halt::Fault(fault)),
        },
    }
}

// Whether both lead to one block, or to none.
fn are_same(left: Option<Ref>, right: Option<Ref>) -> bool
    ensures { result ≡ true → option_map (λ (r : CodeRef). r.serial) left ≡ option_map (λ (r : CodeRef). r.serial) right }
{
    match (left, right) {
        (Some(left), Some(right)) => left.serial == right.serial,
        (None, None) => true,
        _ => false,
    }
}

// One string behind another, for a destination: in place where the destination has the only reference to the first.
fn joining(
    alloc: Global,
    memory: &Memory,
    process: &Process,
    spot: Spot,
    left: Option<Ref>,
    front: &[u32],
    back: &[u32],
) -> Result<Change, Halt>
    requires { text_at (view_world memory.now) (option_map (λ (r : CodeRef). r.serial) left) ≡ words.Found front.now }
    ensures { Changes memory.now process.now spot result (words.◌>>=◌
        (reference_at (view_world memory.now) (view_process process.now) (view_spot spot))
        (λ old. unless_raised (values.joined front.now back.now))) }
{
    memory.heap.stands();
    let here = match has_reference(memory, process, spot) {
        Ok(block) => block,
        Err(fault) => return Err(Halt::Fault(fault)),
    };
    match joined_len(front.len(), back.len()) {
        Ok(_) => {}
        Err(raised) => return Err(Halt::Raises(Raise::Value(raised))),
    }
    if are_same(left, here) {
        if let Some(block) = own_block(memory, here) {
            return match Vec::from_slice(alloc, back) {
                Ok(more) => Ok(Change::Renew(block, Edit::Append(more))),
                Err(_) => Err(Halt::NoMemory),
            };
        }
    }
    match joined(alloc, front, back) {
        Ok(text) => Ok(Change::Make(text)),
        Err(_) => Err(Halt::NoMemory),
    }
}

/// `addc`: the middle with the source behind it.
pub fn addc(
    alloc: Global,
    memory: &mut Memory,
    process: &mut Process,
    inst: Inst,
) -> Result<(), Halt>
    requires place { process.old.frame.pc + 1 < 2 ^ 64 }
    requires held { AreHeld memory.old.heap (names (view_process process.old)) }
    ensures goes { (o : Object) → Goes memory.old process.old result
        (strings.addc o (view_world memory.old) (view_process process.old) inst) memory.new process.new }
    ensures kept { OnErr result ((memory.new ≡ memory.old) × (process.new ≡ process.old)) }
{
    let back = match source_text(memory, process, inst.src) {
        Ok(text) => text,
        Err(halt) => return Err(halt),
    };
    let left = match left_reference(memory, process, inst) {
        Ok(block) => block,
        Err(halt) => return Err(halt),
    };
    let front = match text_of(memory, left) {
        Ok(text) => text,
        Err(fault) => return Err(Halt::Fault(fault)),
    };
    let spot = match spot_of(memory, process, inst.dst) {
        Ok(spot) => spot,
        Err(halt) => return Err(halt),
    };
    match joining(alloc, memory, process, spot, left, front, back) {
        Ok(change) => give_change(memory, process, spot, change),
        Err(halt) => Err(halt),
    }
}

/// `slicec`: the characters of the destination from the source on, before the middle.
pub fn slicec(
    alloc: Global,
    memory: &mut Memory,
    process: &mut Process,
    inst: Inst,
) -> Result<(), Halt>
    requires place { process.old.frame.pc + 1 < 2 ^ 64 }
    requires held { AreHeld memory.old.heap (names (view_process process.old)) }
    ensures goes { (o : Object) → Goes memory.old process.old result
        (strings.slicec o (view_world memory.old) (view_process process.old) inst) memory.new process.new }
    ensures kept { OnErr result ((memory.new ≡ memory.old) × (process.new ≡ process.old)) }
{
    let from = match source_int(memory, process, inst.src) {
        Ok(from) => from,
        Err(halt) => return Err(halt),
    };
    let to = match given_int(memory, process, inst.middle) {
        Ok(to) => to,
        Err(fault) => return Err(Halt::Fault(fault)),
    };
    let spot = match spot_of(memory, process, inst.dst) {
        Ok(spot) => spot,
        Err(halt) => return Err(halt),
    };
    let text = match text_there(memory, process, spot) {
        Ok(text) => text,
        Err(fault) => return Err(Halt::Fault(fault)),
    };
    match sliced(alloc, text, from, to) {
        Ok(outcome) => give_text(memory, process, spot, outcome),
        Err(_) => Err(Halt::NoMemory),
    }
}

// A character at an index of the string there, or behind its last one: in place where that word has the only reference to it.
fn inserting(
    alloc: Global,
    memory: &Memory,
    process: &Process,
    spot: Spot,
    at: i32,
    code: i32,
) -> Result<Change, Halt>
    ensures { Changes memory.now process.now spot result (words.◌>>=◌ (words.◌>>=◌
        (reference_at (view_world memory.now) (view_process process.now) (view_spot spot))
        (text_at (view_world memory.now))) (λ s. strings.inserted s at code)) }
{
    memory.heap.stands();
    let here = match has_reference(memory, process, spot) {
        Ok(block) => block,
        Err(fault) => return Err(Halt::Fault(fault)),
    };
    let text = match text_of(memory, here) {
        Ok(text) => text,
        Err(fault) => return Err(Halt::Fault(fault)),
    };
    let k = match place_in(text, at) {
        Ok(k) => k,
        Err(raise) => return Err(Halt::Raises(raise)),
    };
    let code = character(code) as u32;
    match own_block(memory, here) {
        Some(block) => Ok(Change::Renew(block, Edit::Insert(k, code))),
        None => match with_character(alloc, text, k, code) {
            Ok(changed) => Ok(Change::Make(changed)),
            Err(_) => Err(Halt::NoMemory),
        },
    }
}

/// `insc`: the destination with the source as its character at the middle, or behind its last one.
pub fn insc(
    alloc: Global,
    memory: &mut Memory,
    process: &mut Process,
    inst: Inst,
) -> Result<(), Halt>
    requires place { process.old.frame.pc + 1 < 2 ^ 64 }
    requires held { AreHeld memory.old.heap (names (view_process process.old)) }
    ensures goes { (o : Object) → Goes memory.old process.old result
        (strings.insc o (view_world memory.old) (view_process process.old) inst) memory.new process.new }
    ensures kept { OnErr result ((memory.new ≡ memory.old) × (process.new ≡ process.old)) }
{
    let code = match source_int(memory, process, inst.src) {
        Ok(code) => code,
        Err(halt) => return Err(halt),
    };
    let at = match given_int(memory, process, inst.middle) {
        Ok(at) => at,
        Err(fault) => return Err(Halt::Fault(fault)),
    };
    let spot = match spot_of(memory, process, inst.dst) {
        Ok(spot) => spot,
        Err(halt) => return Err(halt),
    };
    match inserting(alloc, memory, process, spot, at, code) {
        Ok(change) => give_change(memory, process, spot, change),
        Err(halt) => Err(halt),
    }
}
