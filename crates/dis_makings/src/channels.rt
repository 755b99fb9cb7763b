//! Instructions that make channels (Dis Virtual Machine Specification, the instructions by name): newcb, newcw, newcl, newcp, newcm,
//! newcmp.

ghost use Rattle.std.specs.Prelude.{◌≡◌, ◌+◌, ◌<◌, ◌^◌, [], Some, OnErr, slice_get};
ghost use Rattle.dis_file.specs.declared.object.Object.{Object};
ghost use Rattle.dis_isa.specs.declared.op.Op.TheVariants.{Newcm};
ghost use Rattle.ref_heap.specs.Store.{AreHeld};
ghost use Rattle.dis_memory.specs.Lists as lists;
ghost use Rattle.dis_memory.specs.Naming.{names};
ghost use Rattle.dis_code.specs.Loaded.{HasFirst, IsLoaded};
ghost use Rattle.dis_makings.specs.Carried.{type_carried};
ghost use Rattle.dis_places.specs.declared.memory.Tables.{Tables};
ghost use Rattle.dis_places.specs.Blocks.{type_by};
ghost use Rattle.dis_places.specs.View.{view_process, view_world};
ghost use Rattle.dis_results.specs.Going.{Goes};

use crate::giving::give_channel;
use crate::types::{plain_of, source_type};
use dis_code::{Code, immediate};
use dis_isa::{Inst, Middle};
use dis_places::{Fault, Halt, Memory, Process, spot_of};
use std::alloc::Global;

/// What the channels carry that instructions make by their own names.
#[derive(Clone, Copy)]
pub enum Carried {
    /// `newcb`
    Byte,
    /// `newcw`
    Word,
    /// `newcl`
    Big,
    /// `newcp`
    Reference,
}

// The number of their type in memory's tables, in which these come first.
fn number_of(carried: Carried) -> u32
    ensures { (t : Tables) → HasFirst t → type_by t result ≡ type_carried carried }
{
    match carried {
        Carried::Byte => 0,
        Carried::Word => 1,
        Carried::Big => 2,
        Carried::Reference => 3,
    }
}

// A channel for elements of the type of this number goes to the destination: there is no middle.
fn channel(
    alloc: Global,
    memory: &mut Memory,
    process: &mut Process,
    inst: Inst,
    element: u32,
) -> Result<(), Halt>
    requires place { process.old.frame.pc + 1 < 2 ^ 64 }
    requires held { AreHeld memory.old.heap (names (view_process process.old)) }
    ensures goes { (o : Object) → Goes memory.old process.old result
        (lists.channel o (view_world memory.old) (view_process process.old) inst inst.middle (type_by memory.old.tables element))
        memory.new process.new }
    ensures kept { OnErr result ((memory.new ≡ memory.old) × (process.new ≡ process.old)) }
{
    match inst.middle {
        Middle::None => match spot_of(memory, process, inst.dst) {
            Ok(spot) => give_channel(alloc, memory, process, spot, element),
            Err(halt) => Err(halt),
        },
        _ => Err(Halt::Fault(Fault::TypeCheck)),
    }
}

/// `newcb`, `newcw`, `newcl` and `newcp`: a new channel for bytes, words, bigs or references.
pub fn newc(
    alloc: Global,
    code: &Code,
    memory: &mut Memory,
    process: &mut Process,
    carried: Carried,
    inst: Inst,
) -> Result<(), Halt>
    requires place { process.old.frame.pc + 1 < 2 ^ 64 }
    requires loaded { IsLoaded memory.old.tables code.now }
    requires held { AreHeld memory.old.heap (names (view_process process.old)) }
    ensures goes { Goes memory.old process.old result
        (lists.newc code.now.object (view_world memory.old) (view_process process.old) inst (type_carried carried)) memory.new process.new }
    ensures kept { OnErr result ((memory.new ≡ memory.old) × (process.new ≡ process.old)) }
{
    channel(alloc, memory, process, inst, number_of(carried))
}

/// `newcm`: a new channel for plain elements of as many bytes as the source says.
pub fn newcm(
    alloc: Global,
    code: &Code,
    memory: &mut Memory,
    process: &mut Process,
    inst: Inst,
) -> Result<(), Halt>
    requires place { process.old.frame.pc + 1 < 2 ^ 64 }
    requires loaded { IsLoaded memory.old.tables code.now }
    requires there { slice_get code.now.object.insts process.old.frame.pc ≡ Some inst }
    requires op { inst.op ≡ Newcm }
    requires held { AreHeld memory.old.heap (names (view_process process.old)) }
    ensures goes { Goes memory.old process.old result
        (lists.newcm code.now.object (view_world memory.old) (view_process process.old) inst) memory.new process.new }
    ensures kept { OnErr result ((memory.new ≡ memory.old) × (process.new ≡ process.old)) }
{
    match immediate(inst.src) {
        Ok(size) => {
            let element = plain_of(&memory.tables, size);
            channel(alloc, memory, process, inst, element)
        }
        Err(fault) => Err(Halt::Fault(fault)),
    }
}

/// `newcmp`: a new channel for elements of the source's type.
pub fn newcmp(
    alloc: Global,
    code: &Code,
    memory: &mut Memory,
    process: &mut Process,
    inst: Inst,
) -> Result<(), Halt>
    requires place { process.old.frame.pc + 1 < 2 ^ 64 }
    requires loaded { IsLoaded memory.old.tables code.now }
    requires held { AreHeld memory.old.heap (names (view_process process.old)) }
    ensures goes { Goes memory.old process.old result
        (lists.newcmp code.now.object (view_world memory.old) (view_process process.old) inst) memory.new process.new }
    ensures kept { OnErr result ((memory.new ≡ memory.old) × (process.new ≡ process.old)) }
{
    match source_type(memory, code, inst.src) {
        Ok(element) => channel(alloc, memory, process, inst, element),
        Err(fault) => Err(Halt::Fault(fault)),
    }
}
