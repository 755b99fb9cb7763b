ghost use Rattle.std.specs.Prelude.{◌≡◌, true, IfOk};
ghost use Rattle.limbo_typed.specs.View.{view_module};
ghost use Rattle.typed_lower.specs.Sizes.{FrameTooLarge};
ghost use Rattle.typed_part.specs.Part.{is_part};
ghost use Rattle.dis_format.specs.Objects.{IsValid};
ghost use Rattle.dis_meaning.specs.Opening.{StringsSpell};
ghost use Rattle.code_sim.specs.Keeps.{object_for};
ghost use Rattle.limbo_compiler.specs.Limits.{CodeTooLarge, IsWithin};

use dis_file::Object;
use dis_generation::{GenFault, generate};
use limbo_typed::TypedModule;
use slot_writing::{LowerFault, lower};
use std::alloc::Global;

/// Why a module has no object.
#[derive(Clone, Copy, PartialEq, Eq, Debug)]
pub enum CompileFault {
    /// Want of memory.
    NoMemory,
    /// Refusal 70: a function's frame, or the variables of the module, pass 65,536 bytes.
    FrameTooLarge,
    /// Refusal 71: the code passes 1,048,576 instructions.
    CodeTooLarge,
}

/// The object of a checked module that is in the part of the language that the compiler takes. Some bytes spell it.
///
/// # Errors
/// `FrameTooLarge` exactly where a frame is; else `CodeTooLarge` exactly where the code is; `NoMemory`.
pub fn compile(alloc: Global, module: &TypedModule) -> Result<Object, CompileFault>
    requires part { is_part (view_module «module».now) ≡ true }
    ensures object { IfOk result (λ o. o ≡ object_for (view_module «module».now)) }
    ensures spelled { IfOk result StringsSpell }
    ensures valid { IfOk result IsValid }
    ensures within { IfOk result (λ _. IsWithin (view_module «module».now)) }
    ensures frames { result ≡ Err CompileFault.FrameTooLarge → FrameTooLarge (view_module «module».now) }
    ensures code { result ≡ Err CompileFault.CodeTooLarge
        → CodeTooLarge (view_module «module».now) × (FrameTooLarge (view_module «module».now) → ⊥) }
{
    let code = match lower(alloc, module) {
        Ok(code) => code,
        Err(LowerFault::NoMemory) => return Err(CompileFault::NoMemory),
        Err(LowerFault::FrameTooLarge) => return Err(CompileFault::FrameTooLarge),
    };
    match generate(alloc, &code) {
        Ok(object) => Ok(object),
        Err(GenFault::NoMemory) => Err(CompileFault::NoMemory),
        Err(GenFault::CodeTooLarge) => Err(CompileFault::CodeTooLarge),
    }
}
