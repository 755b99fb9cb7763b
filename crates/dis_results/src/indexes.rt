//! Instructions that give the address of an element (Dis Virtual Machine Specification, the instructions by name): indx, indb, indw,
//! indl.

ghost use Rattle.std.specs.Prelude.{◌≡◌, ◌+◌, ◌*◌, ◌<◌, ◌^◌, false, pos, IfErr, IfOk, OnErr};
ghost use Rattle.std.specs.Option.{option_map};
ghost use Rattle.dis_file.specs.declared.object.Object.{Object};
ghost use Rattle.dis_isa.specs.declared.inst.Inst.{Inst as CodeInst};
ghost use Rattle.limbo_values.specs.declared.number.Kind.TheVariants as kind;
ghost use Rattle.ref_heap.specs.Words.{cell_of, is_reference};
ghost use Rattle.dis_meaning.specs.Process.{Process as MeaningProcess};
ghost use Rattle.dis_meaning.specs.Words as words;
ghost use Rattle.dis_memory.specs.Arrays as arrays;
ghost use Rattle.dis_memory.specs.Kinds.{elements_at};
ghost use Rattle.dis_memory.specs.Places as places;
ghost use Rattle.dis_memory.specs.Raising.{not_nil};
ghost use Rattle.dis_memory.specs.Results.{gives_plain_at};
ghost use Rattle.dis_places.specs.declared.fault.Halt.TheVariants as halt;
ghost use Rattle.dis_places.specs.View.{view_process, view_spot, view_world};
ghost use Rattle.dis_places.specs.Words.{view_word, Gives, GivesFault};
ghost use Rattle.dis_kinds.specs.Views.{view_elements};
ghost use Rattle.dis_results.specs.Going.{Goes};

use crate::giving::give_plain;
use crate::operands::source_reference;
use dis_isa::{Inst, Operand};
use dis_kinds::{Elements, elements_of};
use dis_places::{Fault, Halt, Memory, Place, Process, Raise, Spot, Word, middle_spot, source_of};
use limbo_values::{Kind, Number, index_in};

/// The elements that a source refers to.
pub fn source_elements(
    memory: &Memory,
    process: &Process,
    source: Operand,
) -> Result<Option<Elements>, Halt>
    ensures { Gives (option_map (view_elements memory.now)) result (words.◌>>=◌
        (places.source_reference (view_world memory.now) (view_process process.now) source) (elements_at (view_world memory.now))) }
{
    let array = match source_reference(memory, process, source) {
        Ok(array) => array,
        Err(halt) => return Err(halt),
    };
    match elements_of(memory, array) {
        Ok(elements) => Ok(elements),
        Err(fault) => Err(Halt::Fault(fault)),
    }
}

/// How many bytes an element has.
pub fn size_of(memory: &Memory, elements: Elements) -> u32
    ensures { result ≡ (view_elements memory.now elements).element.size }
{
    match memory.tables.types.get(elements.element as usize) {
        Some(desc) => desc.size,
        None => 0,
    }
}

// The address of an element of so many bytes. No memory has bytes whose number has more than 32 bits.
fn address_of(elements: Elements, size: u32, k: usize) -> Result<Word, Halt>
    ensures address { IfOk result (λ w. view_word w
        ≡ words.Address (words.InBlock elements.array.serial) (pos ((elements.start + k) * size))) }
    ensures plain { IfOk result (λ w. is_reference (cell_of w) ≡ false) }
    ensures fault { IfErr result (λ h. h ≡ halt.NoMemory) }
{
    let Ok(k) = u32::try_from(k) else {
        return Err(Halt::NoMemory);
    };
    let Some(number) = elements.start.checked_add(k) else {
        return Err(Halt::NoMemory);
    };
    match number.checked_mul(size) {
        Some(at) => Ok(Word::Address {
            place: Place::Block(elements.array),
            at,
        }),
        None => Err(Halt::NoMemory),
    }
}

/// The int of a source.
pub fn source_int(memory: &Memory, process: &Process, source: Operand) -> Result<i32, Halt>
    ensures { Gives (λ n. n) result
        (places.source_of kind.Int (view_world memory.now) (view_process process.now) source) }
{
    match source_of(memory, process, Kind::Int, source) {
        Ok(Number::Int(n)) => Ok(n),
        Ok(Number::Byte(_)) => unreachable!(),
        Ok(Number::Big(_)) => unreachable!(),
        Err(halt) => Err(halt),
    }
}

// The address of an element goes to a place.
fn give_address(
    memory: &mut Memory,
    process: &mut Process,
    spot: Spot,
    elements: Elements,
    index: i32,
) -> Result<(), Halt>
    requires place { process.old.frame.pc + 1 < 2 ^ 64 }
    ensures goes { (o : Object) (i : CodeInst) → Goes memory.old process.old result
        (gives_plain_at (view_world memory.old) (view_process process.old) (view_spot spot)
        (arrays.element_address o (view_world memory.old) (view_process process.old) i (view_elements memory.old elements) index))
        memory.new process.new }
    ensures kept { OnErr result ((memory.new ≡ memory.old) × (process.new ≡ process.old)) }
{
    let size = size_of(memory, elements);
    match index_in(elements.long as usize, index) {
        Ok(k) => match address_of(elements, size, k) {
            Ok(word) => give_plain(memory, process, spot, Ok(word)),
            Err(_) => Err(Halt::NoMemory),
        },
        Err(raised) => give_plain(memory, process, spot, Err(Raise::Value(raised))),
    }
}

// The address of an element of these goes where the middle says.
fn index_into(
    memory: &mut Memory,
    process: &mut Process,
    inst: Inst,
    elements: Option<Elements>,
) -> Result<(), Halt>
    requires place { process.old.frame.pc + 1 < 2 ^ 64 }
    ensures goes { (o : Object) → Goes memory.old process.old result
        (words.◌>>=◌ (places.middle_spot inst.middle) (λ d.
        words.◌>>=◌ (places.source_of kind.Int (view_world memory.old) (view_process process.old) inst.dst) (λ index.
        gives_plain_at (view_world memory.old) (view_process process.old) d
        (words.◌>>=◌ (not_nil (option_map (view_elements memory.old) elements))
        (λ e. arrays.element_address o (view_world memory.old) (view_process process.old) inst e index)))))
        memory.new process.new }
    ensures kept { OnErr result ((memory.new ≡ memory.old) × (process.new ≡ process.old)) }
{
    let spot = match middle_spot(inst.middle) {
        Ok(spot) => spot,
        Err(fault) => return Err(Halt::Fault(fault)),
    };
    let index = match source_int(memory, process, inst.dst) {
        Ok(index) => index,
        Err(halt) => return Err(halt),
    };
    match elements {
        Some(elements) => give_address(memory, process, spot, elements, index),
        None => give_plain(memory, process, spot, Err(Raise::Nil)),
    }
}

/// `indx`: the address of an element of any array, by its index.
pub fn indx(memory: &mut Memory, process: &mut Process, inst: Inst) -> Result<(), Halt>
    requires place { process.old.frame.pc + 1 < 2 ^ 64 }
    ensures goes { (o : Object) → Goes memory.old process.old result
        (arrays.indx o (view_world memory.old) (view_process process.old) inst) memory.new process.new }
    ensures kept { OnErr result ((memory.new ≡ memory.old) × (process.new ≡ process.old)) }
{
    match source_elements(memory, process, inst.src) {
        Ok(elements) => index_into(memory, process, inst, elements),
        Err(halt) => Err(halt),
    }
}

// Elements of so many bytes each, or nil.
fn of_size(memory: &Memory, elements: Option<Elements>, size: u32) -> Result<(), Fault>
    ensures { (o : Object) (p : MeaningProcess) (i : CodeInst) → GivesFault (λ _. option_map (view_elements memory.now) elements) result
        (arrays.of_size o (view_world memory.now) p i size (option_map (view_elements memory.now) elements)) }
{
    match elements {
        Some(elements) => {
            if size_of(memory, elements) == size {
                Ok(())
            } else {
                Err(Fault::TypeCheck)
            }
        }
        None => Ok(()),
    }
}

/// `indb`, `indw` and `indl`: the address of an element of so many bytes, by its index.
pub fn index_of_size(
    memory: &mut Memory,
    process: &mut Process,
    size: u32,
    inst: Inst,
) -> Result<(), Halt>
    requires place { process.old.frame.pc + 1 < 2 ^ 64 }
    ensures goes { (o : Object) → Goes memory.old process.old result
        (arrays.ind_of o (view_world memory.old) (view_process process.old) inst size) memory.new process.new }
    ensures kept { OnErr result ((memory.new ≡ memory.old) × (process.new ≡ process.old)) }
{
    let elements = match source_elements(memory, process, inst.src) {
        Ok(elements) => elements,
        Err(halt) => return Err(halt),
    };
    match of_size(memory, elements, size) {
        Ok(()) => index_into(memory, process, inst, elements),
        Err(fault) => Err(Halt::Fault(fault)),
    }
}
