//! Instructions by their families, each as its crate has it.

ghost use Rattle.std.specs.Prelude.{◌≡◌, ℕ, ◌+◌, ◌<◌, ◌^◌, Some, slice_get, OnErr};
ghost use Rattle.dis_isa.specs.declared.op.Op.TheVariants.{Newcm};
ghost use Rattle.ref_heap.specs.Store.{AreHeld};
ghost use Rattle.dis_memory.specs.Naming.{names};
ghost use Rattle.dis_places.specs.View.{view_process, view_world};
ghost use Rattle.dis_code.specs.Loaded.{IsLoaded};
ghost use Rattle.dis_results.specs.Going.{Goes};
ghost use Rattle.dis_calls.specs.Coming.{LeftAlone};
ghost use Rattle.dis_steps.specs.declared.forms.Channelling.TheVariants as channelling;
ghost use Rattle.dis_steps.specs.Forms as forms;

use crate::forms::{Arraying, Channelling, Listing, Moving, Texting};
use dis_code::Code;
use dis_isa::Inst;
use dis_lists::{cons_number, consp};
use dis_makings::{new, newa, newc, newcm, newcmp, slicea};
use dis_moves::{consm, consmp, headm, headmp, movm, movmp};
use dis_places::{Halt, Memory, Process};
use dis_results::{
    head_number, headp, indc, index_of_size, indx, lea, lena, lenc, lenl, movp, movw, tail,
};
use dis_slices::slicela;
use dis_strings::{addc, insc, slicec};
use dis_text_numbers::{cvtac, cvtca, number_of_text, text_of_number};
use std::alloc::Global;

/// Instructions that move data.
#[inline(always)]
pub(crate) fn moves(
    alloc: Global,
    code: &Code,
    memory: &mut Memory,
    process: &mut Process,
    form: Moving,
    inst: Inst,
) -> Result<(), Halt>
    requires place { process.old.frame.pc + 1 < 2 ^ 64 }
    requires loaded { IsLoaded memory.old.tables code.now }
    requires held { AreHeld memory.old.heap (names (view_process process.old)) }
    ensures goes { (limit : ℕ) → Goes memory.old process.old result
        (forms.moves limit code.now.object (view_world memory.old) (view_process process.old) inst form) memory.new process.new }
    ensures left { OnErr result (LeftAlone memory.old process.old memory.new process.new) }
{
    match form {
        Moving::Word => movw(memory, process, inst),
        Moving::Reference => movp(memory, process, inst),
        Moving::Bytes => movm(alloc, memory, process, inst),
        Moving::Value => movmp(alloc, code, memory, process, inst),
        Moving::Address => lea(memory, process, inst),
    }
}

/// Instructions on records and arrays.
pub(crate) fn on_arrays(
    alloc: Global,
    code: &Code,
    memory: &mut Memory,
    process: &mut Process,
    form: Arraying,
    inst: Inst,
) -> Result<(), Halt>
    requires place { process.old.frame.pc + 1 < 2 ^ 64 }
    requires loaded { IsLoaded memory.old.tables code.now }
    requires held { AreHeld memory.old.heap (names (view_process process.old)) }
    ensures goes { (limit : ℕ) → Goes memory.old process.old result
        (forms.on_arrays limit code.now.object (view_world memory.old) (view_process process.old) inst form) memory.new process.new }
    ensures left { OnErr result (LeftAlone memory.old process.old memory.new process.new) }
{
    match form {
        Arraying::Record => new(alloc, code, memory, process, inst),
        Arraying::Array => newa(alloc, code, memory, process, inst),
        Arraying::Index => indx(memory, process, inst),
        Arraying::IndexOf(size) => index_of_size(memory, process, size, inst),
        Arraying::Length => lena(memory, process, inst),
        Arraying::Part => slicea(memory, process, inst),
        Arraying::Copy => slicela(alloc, memory, process, inst),
    }
}

/// Instructions on strings.
pub(crate) fn on_texts(
    alloc: Global,
    code: &Code,
    memory: &mut Memory,
    process: &mut Process,
    form: Texting,
    inst: Inst,
) -> Result<(), Halt>
    requires place { process.old.frame.pc + 1 < 2 ^ 64 }
    requires loaded { IsLoaded memory.old.tables code.now }
    requires held { AreHeld memory.old.heap (names (view_process process.old)) }
    ensures goes { (limit : ℕ) → Goes memory.old process.old result
        (forms.on_texts limit code.now.object (view_world memory.old) (view_process process.old) inst form) memory.new process.new }
    ensures left { OnErr result (LeftAlone memory.old process.old memory.new process.new) }
{
    match form {
        Texting::Join => addc(alloc, memory, process, inst),
        Texting::Length => lenc(memory, process, inst),
        Texting::Character => indc(memory, process, inst),
        Texting::Insert => insc(alloc, memory, process, inst),
        Texting::Part => slicec(alloc, memory, process, inst),
        Texting::OfNumber(kind) => text_of_number(alloc, memory, process, kind, inst),
        Texting::ToNumber(kind) => number_of_text(memory, process, kind, inst),
        Texting::ToBytes => cvtca(alloc, memory, process, inst),
        Texting::OfBytes => cvtac(alloc, memory, process, inst),
    }
}

/// Instructions on lists.
pub(crate) fn on_lists(
    alloc: Global,
    code: &Code,
    memory: &mut Memory,
    process: &mut Process,
    form: Listing,
    inst: Inst,
) -> Result<(), Halt>
    requires place { process.old.frame.pc + 1 < 2 ^ 64 }
    requires loaded { IsLoaded memory.old.tables code.now }
    requires held { AreHeld memory.old.heap (names (view_process process.old)) }
    ensures goes { (limit : ℕ) → Goes memory.old process.old result
        (forms.on_lists limit code.now.object (view_world memory.old) (view_process process.old) inst form) memory.new process.new }
    ensures left { OnErr result (LeftAlone memory.old process.old memory.new process.new) }
{
    match form {
        Listing::Number(kind) => cons_number(alloc, memory, process, kind, inst),
        Listing::Reference => consp(alloc, memory, process, inst),
        Listing::Bytes => consm(alloc, memory, process, inst),
        Listing::Value => consmp(alloc, code, memory, process, inst),
        Listing::HeadNumber(kind) => head_number(memory, process, kind, inst),
        Listing::HeadReference => headp(memory, process, inst),
        Listing::HeadBytes => headm(alloc, memory, process, inst),
        Listing::HeadValue => headmp(alloc, code, memory, process, inst),
        Listing::Rest => tail(memory, process, inst),
        Listing::Length => lenl(memory, process, inst),
    }
}

/// Instructions that make channels.
pub(crate) fn on_channels(
    alloc: Global,
    code: &Code,
    memory: &mut Memory,
    process: &mut Process,
    form: Channelling,
    inst: Inst,
) -> Result<(), Halt>
    requires place { process.old.frame.pc + 1 < 2 ^ 64 }
    requires loaded { IsLoaded memory.old.tables code.now }
    requires there { slice_get code.now.object.insts process.old.frame.pc ≡ Some inst }
    requires op { form ≡ channelling.Bytes → inst.op ≡ Newcm }
    requires held { AreHeld memory.old.heap (names (view_process process.old)) }
    ensures goes { (limit : ℕ) → Goes memory.old process.old result
        (forms.on_channels limit code.now.object (view_world memory.old) (view_process process.old) inst form) memory.new process.new }
    ensures left { OnErr result (LeftAlone memory.old process.old memory.new process.new) }
{
    match form {
        Channelling::Of(carried) => newc(alloc, code, memory, process, carried, inst),
        Channelling::Bytes => newcm(alloc, code, memory, process, inst),
        Channelling::Value => newcmp(alloc, code, memory, process, inst),
    }
}
