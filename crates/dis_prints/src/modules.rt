//! Modules: the built-in one that is loaded, and calls of its functions.

ghost use Rattle.std.specs.Prelude.{◌≡◌, ◌+◌, ◌<◌, ◌^◌, ℕ, codes, false, length, slice_get, IfErr, IfOk, OnErr};
ghost use Rattle.std.specs.Option.{option_map};
ghost use Rattle.std.specs.Str.{bytes_eq};
ghost use Rattle.ref_heap.specs.declared.word.Ref.{Ref as CodeRef};
ghost use Rattle.ref_heap.specs.Store.{AreHeld};
ghost use Rattle.dis_file.specs.declared.object.Object.{Object as AnyObject};
ghost use Rattle.dis_meaning.specs.Step.{path_of_sys};
ghost use Rattle.dis_meaning.specs.Words as words;
ghost use Rattle.dis_memory.specs.Blocks as blocks;
ghost use Rattle.dis_memory.specs.Control as control;
ghost use Rattle.dis_memory.specs.Naming.{names as named};
ghost use Rattle.dis_memory.specs.Results.{gives_block};
ghost use Rattle.dis_places.specs.Blocks.{names_by, names_in};
ghost use Rattle.dis_places.specs.View.{view_process, view_world};
ghost use Rattle.dis_places.specs.Words.{number_of, Gives, GivesFault};
ghost use Rattle.dis_results.specs.Going.{Goes};
ghost use Rattle.dis_code.specs.Loaded.{IsLoaded};
ghost use Rattle.dis_calls.specs.Coming.{ends, Comes, Sends};

use crate::printing::print_call;
use dis_blocks::store_new;
use dis_calls::{Does, made_at};
use dis_code::{Code, middle_immediate};
use dis_file::Object;
use dis_isa::{Inst, Operand};
use dis_kinds::text_of;
use dis_places::{Fault, Halt, Memory, Process, Raise, Ref, source_word, spot_of};
use dis_results::{advance, reference_to, source_reference};
use inf_text::Text;
use ref_heap::{Kind, Words};
use std::alloc::Global;

// The path of Sys, by its codes.
const PATH_OF_SYS: [u32; 4] = [36, 83, 121, 115];

fn is_sys(path: &[u32]) -> bool
    ensures { result ≡ bytes_eq path.now path_of_sys }
{
    path == PATH_OF_SYS.as_slice()
}

fn is_print(name: &Text) -> bool
    ensures { result ≡ bytes_eq name.now (codes "print") }
{
    name.as_slice() == ['p', 'r', 'i', 'n', 't'].as_slice()
}

// The object has an import table of this number.
fn has_table(object: &Object, number: u32) -> Result<(), Fault>
    ensures there { IfOk result (λ _. number < length object.now.imports) }
    ensures wrong { IfErr result (λ f.
        words.or_wrong words.type_check (slice_get object.now.imports number) ≡ words.Wrong (number_of f)) }
{
    if (number as usize) < object.imports.len() {
        Ok(())
    } else {
        Err(Fault::TypeCheck)
    }
}

// A reference to a new block of the built-in module, linked to the names of this number, goes to the destination.
fn give_sys(
    alloc: Global,
    memory: &mut Memory,
    process: &mut Process,
    destination: Operand,
    names: u32,
) -> Result<(), Halt>
    requires place { process.old.frame.pc + 1 < 2 ^ 64 }
    requires held { AreHeld memory.old.heap (named (view_process process.old)) }
    ensures goes { Goes memory.old process.old result
        (gives_block (view_world memory.old) (view_process process.old) destination
        (words.Found (blocks.Sys (names_by memory.old.tables names)))) memory.new process.new }
    ensures kept { OnErr result ((memory.new ≡ memory.old) × (process.new ≡ process.old)) }
{
    let spot = match spot_of(memory, process, destination) {
        Ok(spot) => spot,
        Err(halt) => return Err(halt),
    };
    match store_new(
        memory,
        process,
        spot,
        Kind::Sys { names },
        Words::wide(Vec::new(alloc)),
    ) {
        Ok(()) => {
            advance(process);
            Ok(())
        }
        Err(halt) => Err(halt),
    }
}

/// `load`: a reference to a module by its path, with the names of an import table, goes to the destination. So far this is Sys; no other
/// is there, and of those the reference is nil.
///
/// # Errors
/// The fault that the definition has, what it raises, or want of memory; then nothing has changed.
pub fn load(
    alloc: Global,
    code: &Code,
    memory: &mut Memory,
    process: &mut Process,
    inst: Inst,
) -> Result<(), Halt>
    requires place { process.old.frame.pc + 1 < 2 ^ 64 }
    requires held { AreHeld memory.old.heap (named (view_process process.old)) }
    requires loaded { IsLoaded memory.old.tables code.now }
    ensures goes { (limit : ℕ) → Goes memory.old process.old result
        (control.load limit code.now.object (view_world memory.old) (view_process process.old) inst) memory.new process.new }
    ensures kept { OnErr result ((memory.new ≡ memory.old) × (process.new ≡ process.old)) }
{
    let reference = source_reference(memory, process, inst.src)?;
    let is_there = is_sys(text_of(memory, reference)?);
    let number = middle_immediate(inst.middle)?;
    has_table(&code.object, number)?;
    if is_there {
        give_sys(alloc, memory, process, inst.dst, code.names + number)
    } else {
        reference_to(memory, process, inst.dst, Ok(None))
    }
}

// The module that a reference leads to.
fn loaded_module(reference: Option<Ref>) -> Result<Ref, Halt>
    ensures { Gives (λ (r : CodeRef). r.serial) result (control.loaded_module (option_map (λ (r : CodeRef). r.serial) reference)) }
{
    match reference {
        Some(block) => Ok(block),
        None => Err(Halt::Raises(Raise::NotLoaded)),
    }
}

// The names to which a module is linked.
fn names_of(memory: &Memory, sys: Ref) -> Result<u32, Fault>
    ensures linked { IfOk result (λ n.
        blocks.block (view_world memory.now) sys.serial ≡ words.Found (blocks.Sys (names_by memory.now.tables n))) }
    ensures wrong { (k : ℕ) → IfErr result (λ f.
        words.◌>>=◌ (blocks.block (view_world memory.now) sys.serial) (λ b. control.function_of b k) ≡ words.Wrong (number_of f)) }
{
    memory.heap.stands();
    match memory.heap.kind_of(sys) {
        Ok(kind) => match kind {
            Kind::Sys { names } => Ok(names),
            _ => Err(Fault::TypeCheck),
        },
        Err(_) => Err(Fault::DeadAddress),
    }
}

// The names of this number in the tables.
fn row(names: &[Vec<Text>], number: u32) -> &[Text]
    ensures { result.now ≡ names_in (slice_get names.now number) }
{
    match names.get(number as usize) {
        Some(row) => row.as_slice(),
        None => &[],
    }
}

fn nth_name(names: &[Text], number: u32) -> Result<&Text, Fault>
    ensures { GivesFault (λ name. name.now) result (words.or_wrong words.type_check (slice_get names.now number)) }
{
    match names.get(number as usize) {
        Some(name) => Ok(name),
        None => Err(Fault::TypeCheck),
    }
}

// The name of the function of this number.
fn function_of(memory: &Memory, sys: Ref, number: u32) -> Result<&Text, Fault>
    ensures { GivesFault (λ name. name.now) result
        (words.◌>>=◌ (blocks.block (view_world memory.now) sys.serial) (λ b. control.function_of b number)) }
{
    match names_of(memory, sys) {
        Ok(names) => nth_name(row(memory.tables.names.as_slice(), names), number),
        Err(fault) => Err(fault),
    }
}

/// `mcall`: a function of a module. So far this is `print` of Sys, whose frame goes, with all that it refers to.
///
/// # Errors
/// The fault that the definition has, what it raises, or want of memory; then nothing has changed.
pub fn mcall(
    alloc: Global,
    memory: &mut Memory,
    process: &mut Process,
    inst: Inst,
) -> Result<Does, Halt>
    requires place { process.old.frame.pc + 1 < 2 ^ 64 }
    requires held { AreHeld memory.old.heap (named (view_process process.old)) }
    ensures comes { (limit : ℕ) (o : AnyObject) → Comes memory.old process.old result
        (control.mcall limit o (view_world memory.old) (view_process process.old) inst) memory.new process.new }
    ensures kept { OnErr result ((memory.new ≡ memory.old) × (process.new ≡ process.old)) }
    ensures goes_on { IfOk result (λ d. ends d ≡ false) }
    ensures sent { Sends result process.new.printing }
{
    let word = source_word(memory, process, inst.src)?;
    let made = made_at(memory, process, word)?;
    let number = middle_immediate(inst.middle)?;
    let reference = source_reference(memory, process, inst.dst)?;
    let module = loaded_module(reference)?;
    let name = function_of(memory, module, number)?;
    if !is_print(name) {
        return Err(Halt::Fault(Fault::TypeCheck));
    }
    print_call(alloc, memory, process, made)
}
