//! One instruction, by its form.

ghost use Rattle.std.specs.Prelude.{◌≡◌, ◌+◌, ◌<◌, ◌^◌, Option, Some, slice_get, IfOk, OnErr};
ghost use Rattle.dis_isa.specs.declared.op.Op.TheVariants.{Newcm};
ghost use Rattle.ref_heap.specs.Store.{AreHeld};
ghost use Rattle.dis_memory.specs.Naming.{names};
ghost use Rattle.dis_memory.specs.Step as meaning;
ghost use Rattle.dis_places.specs.declared.process.Asking.{Asking};
ghost use Rattle.dis_places.specs.View.{view_process, view_world};
ghost use Rattle.dis_code.specs.Loaded.{IsLoaded};
ghost use Rattle.dis_calls.specs.Coming.{ends, Comes, LeftAlone, Sends, Stays};
ghost use Rattle.dis_serials.specs.Given.{HasGiven};
ghost use Rattle.dis_steps.specs.declared.forms.Channelling.TheVariants as channelling;
ghost use Rattle.dis_steps.specs.declared.forms.Form.TheVariants as form_is;
ghost use Rattle.dis_steps.specs.Forms as forms;
ghost use Rattle.dis_steps.specs.Forms.{form_of};
ghost use Rattle.dis_steps.specs.Stepping.{went_of};

use crate::families::{moves, on_arrays, on_channels, on_lists, on_texts};
use crate::forms::{Control, Form, form_of};
use dis_calls::{Does, call, give_back, jmp, make_frame};
use dis_code::Code;
use dis_isa::Inst;
use dis_numbers::obey_row;
use dis_places::{Fault, Halt, Memory, Process};
use dis_prints::{load, mcall};
use dis_text_numbers::compares;
use std::alloc::Global;

// An instruction that goes on where it does anything.
#[inline(always)]
fn went(outcome: Result<(), Halt>) -> Result<Does, Halt>
    ensures went { result ≡ went_of outcome }
    ensures silent { (printing : Option Asking) → Sends result printing }
{
    match outcome {
        Ok(()) => Ok(Does::Went),
        Err(halt) => Err(halt),
    }
}

/// Jumps, frames, calls and modules.
#[inline(always)]
fn controls(
    alloc: Global,
    limit: usize,
    code: &Code,
    memory: &mut Memory,
    process: &mut Process,
    form: Control,
    inst: Inst,
) -> Result<Does, Halt>
    requires place { process.old.frame.pc + 1 < 2 ^ 64 }
    requires loaded { IsLoaded memory.old.tables code.now }
    requires given { HasGiven (view_world memory.old) (view_process process.old) }
    requires held { AreHeld memory.old.heap (names (view_process process.old)) }
    ensures comes { Comes memory.old process.old result
        (forms.controls limit code.now.object (view_world memory.old) (view_process process.old) inst form) memory.new process.new }
    ensures left { OnErr result (LeftAlone memory.old process.old memory.new process.new) }
    ensures stays { IfOk result (λ d. Stays (ends d) memory.old process.old memory.new process.new) }
    ensures sent { Sends result process.new.printing }
{
    match form {
        Control::Jump => went(jmp(code, memory, process, inst)),
        Control::Frame => went(make_frame(alloc, code, memory, process, inst)),
        Control::Call => call(alloc, limit, code, memory, process, inst),
        Control::Return => Ok(give_back(memory, process)),
        Control::Load => went(load(alloc, code, memory, process, inst)),
        Control::CallModule => mcall(alloc, memory, process, inst),
    }
}

/// What an instruction of a form does.
#[inline(always)]
fn obey_form(
    alloc: Global,
    limit: usize,
    code: &Code,
    memory: &mut Memory,
    process: &mut Process,
    form: Form,
    inst: Inst,
) -> Result<Does, Halt>
    requires place { process.old.frame.pc + 1 < 2 ^ 64 }
    requires loaded { IsLoaded memory.old.tables code.now }
    requires there { slice_get code.now.object.insts process.old.frame.pc ≡ Some inst }
    requires op { form ≡ form_is.Channels channelling.Bytes → inst.op ≡ Newcm }
    requires given { HasGiven (view_world memory.old) (view_process process.old) }
    requires held { AreHeld memory.old.heap (names (view_process process.old)) }
    ensures comes { Comes memory.old process.old result
        (forms.obeyed limit code.now.object (view_world memory.old) (view_process process.old) inst form) memory.new process.new }
    ensures left { OnErr result (LeftAlone memory.old process.old memory.new process.new) }
    ensures stays { IfOk result (λ d. Stays (ends d) memory.old process.old memory.new process.new) }
    ensures sent { Sends result process.new.printing }
{
    match form {
        Form::Number(row) => went(obey_row(code, memory, process, inst, row)),
        Form::Compare(comparison) => went(compares(code, memory, process, comparison, inst)),
        Form::Moves(form) => went(moves(alloc, code, memory, process, form, inst)),
        Form::Arrays(form) => went(on_arrays(alloc, code, memory, process, form, inst)),
        Form::Texts(form) => went(on_texts(alloc, code, memory, process, form, inst)),
        Form::Lists(form) => went(on_lists(alloc, code, memory, process, form, inst)),
        Form::Channels(form) => went(on_channels(alloc, code, memory, process, form, inst)),
        Form::Controls(form) => controls(alloc, limit, code, memory, process, form, inst),
        Form::Unknown => Err(Halt::Fault(Fault::TypeCheck)),
    }
}

/// What an instruction does.
#[inline(always)]
pub(crate) fn obey(
    alloc: Global,
    limit: usize,
    code: &Code,
    memory: &mut Memory,
    process: &mut Process,
    inst: Inst,
) -> Result<Does, Halt>
    requires place { process.old.frame.pc + 1 < 2 ^ 64 }
    requires loaded { IsLoaded memory.old.tables code.now }
    requires there { slice_get code.now.object.insts process.old.frame.pc ≡ Some inst }
    requires given { HasGiven (view_world memory.old) (view_process process.old) }
    requires held { AreHeld memory.old.heap (names (view_process process.old)) }
    ensures comes { Comes memory.old process.old result
        (meaning.obey limit code.now.object (view_world memory.old) (view_process process.old) inst inst.op) memory.new process.new }
    ensures left { OnErr result (LeftAlone memory.old process.old memory.new process.new) }
    ensures stays { IfOk result (λ d. Stays (ends d) memory.old process.old memory.new process.new) }
    ensures sent { Sends result process.new.printing }
{
    let form = form_of(inst.op);
    obey_form(alloc, limit, code, memory, process, form, inst)
}
