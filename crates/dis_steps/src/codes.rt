//! The code of a process.

ghost use Rattle.std.specs.Prelude.{◌≡◌, ◌+◌, ◌<◌, ◌^◌, ℕ, List, slice_get, OnOk, Some, IfOk};
ghost use Rattle.dis_code.specs.declared.code.Code.{Code as AnyCode};
ghost use Rattle.dis_meaning.specs.Words as words;
ghost use Rattle.dis_memory.specs.Blocks.{block};
ghost use Rattle.dis_memory.specs.Step as meaning;
ghost use Rattle.dis_places.specs.View.{view_process, view_world};
ghost use Rattle.dis_places.specs.Words.{GivesFault};
ghost use Rattle.dis_steps.specs.Codes.{instance_of, objects_of, running};

use dis_code::Code;
use dis_file::Object;
use dis_isa::Inst;
use dis_places::{Fault, Memory, Process, Ref};
use inf_text::Text;
use ref_heap::Kind;

// The number of the object whose instance a block of this kind is.
#[inline(always)]
fn instance_of(kind: Kind) -> Option<u32>
    ensures { result ≡ instance_of kind }
{
    match kind {
        Kind::Instance { object } => Some(object),
        _ => None,
    }
}

// The number of the object whose instance a block is.
#[inline(always)]
fn object_of(memory: &Memory, instance: Ref) -> Result<u32, Fault>
    ensures { GivesFault (λ n. n) result (words.◌>>=◌ (block (view_world memory.now) instance.serial) meaning.object_of) }
{
    memory.heap.stands();
    match memory.heap.kind_of(instance) {
        Ok(kind) => match instance_of(kind) {
            Some(object) => Ok(object),
            None => Err(Fault::TypeCheck),
        },
        Err(_) => Err(Fault::DeadAddress),
    }
}

/// The code that a process runs.
#[inline(always)]
pub(crate) fn code_of<'a>(
    codes: &'a [(Text, Code)],
    memory: &Memory,
    process: &Process,
) -> Result<&'a Code, Fault>
    ensures code { GivesFault (λ c. c.now.object) result
        (running (objects_of codes.now) (view_world memory.now) (view_process process.now)) }
    ensures there { IfOk result (λ c. (k : ℕ) × (code : List ℕ × AnyCode) × (slice_get codes.now k ≡ Some code) × (c.now ≡ code.1)) }
{
    let number = match object_of(memory, process.frame.instance) {
        Ok(number) => number as usize,
        Err(fault) => return Err(fault),
    };
    match codes.get(number) {
        Some(code) => Ok(&code.1),
        None => Err(Fault::TypeCheck),
    }
}

/// The instruction at a place of the code.
#[inline(always)]
pub(crate) fn inst_at(object: &Object, pc: usize) -> Result<&Inst, Fault>
    ensures inst { GivesFault (λ i. i.now) result (words.or_wrong words.bad_jump (slice_get object.now.insts pc)) }
    ensures there { IfOk result (λ i. slice_get object.now.insts pc ≡ Some i.now) }
    ensures within { OnOk result (pc + 1 < 2 ^ 64) }
{
    match object.insts.as_slice().get(pc) {
        Some(inst) => Ok(inst),
        None => Err(Fault::BadJump),
    }
}
