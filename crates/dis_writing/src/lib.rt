//! Objects of the Dis machine written as bytes (dis(6)): an object's written form, its shortest spelling.
//!
//! `dis_format` has the definitions that the contract cites.
#![tactic(auto)]

ghost use Rattle.std.specs.Prelude.{◌≡◌, ◌⊎◌, ℕ, IfOk, IfErr, Err};
ghost use Rattle.dis_format.specs.declared.fault.FileFault.TheVariants.{NoMemory, BadOperand};
ghost use Rattle.dis_format.specs.Parts.{object_parts};
ghost use Rattle.dis_format.specs.Objects.{IsValid, written_form};
ghost use Rattle.dis_format.specs.Writing.{AllFit, IsFirstMisfit, IsMisfit};
ghost use Rattle.dis_format.specs.Answers.{OrNoMemory};

mod fields;
mod instructions;
mod object;
mod sections;

use dis_file::Object;
use dis_format::FileFault;
use std::alloc::Global;

/// The bytes of an object file with this content (dis(6)): the shortest ones that spell it, where any do.
///
/// # Errors
/// `BadOperand` exactly where a number doesn't fit its field, with the place that the first such field would have in
/// the file; `NoMemory`.
pub fn write_object(alloc: Global, o: &Object) -> Result<Vec<u8>, FileFault>
    // What is written is the written form, and each number of the object fits its field.
    ensures written { IfOk result (λ v. v.items ≡ written_form o.now) }
    ensures fits { IfOk result (λ _. AllFit (object_parts o.now)) }
    // An object whose numbers fit is written, so each valid one.
    ensures fitting { AllFit (object_parts o.now) → IfErr result (λ e. e ≡ NoMemory) }
    ensures valid { IsValid o.now → IfErr result (λ e. e ≡ NoMemory) }
    // A refusal is that of the first number that doesn't fit, and where one doesn't there is this refusal.
    ensures misfit { IfErr result (λ e. (e ≡ NoMemory) ⊎ IsMisfit o.now e) }
    ensures refused { (at : ℕ) → IsFirstMisfit (object_parts o.now) at → OrNoMemory result (Err (BadOperand at)) }
{
    object::object(alloc, o)
}
