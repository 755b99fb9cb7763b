//! Object files of the Dis machine read from bytes (dis(6)).
//!
//! `dis_format` has the definitions that the contract cites, `dis_filling` where items of the data may stand.
#![tactic(auto)]

ghost use Rattle.std.specs.Prelude.{◌≡◌, ◌⊎◌, IfOk, IfErr, Ok, Err};
ghost use Rattle.dis_file.specs.declared.object.Object.{Object as AnyObject};
ghost use Rattle.dis_format.specs.declared.fault.FileFault.TheVariants.{NoMemory};
ghost use Rattle.dis_format.specs.declared.fault.Refusal.{Refusal as AnyRefusal};
ghost use Rattle.dis_format.specs.Objects.{Spells};
ghost use Rattle.dis_format.specs.Reading.{object_at, IsFirstFault};
ghost use Rattle.dis_format.specs.Answers.{OrNoMemory, placed};

mod data;
mod fields;
mod instructions;
mod object;
mod sections;
mod types;

use dis_file::Object;
use dis_format::{FileFault, ReadFault};
use object::object_of;
use std::alloc::Global;

/// The object that all of the bytes spell (dis(6)).
///
/// # Errors
/// The first faulty field in the order of the bytes, at its first byte. `Short`: the bytes end inside the field.
/// `Magic`: the first number isn't 819248; `Signed`: it is 923426. `BadFlags`: a flag is set that has no meaning.
/// `BadOperand`: a count, size, pc, type number or offset is below 0, a middle operand is outside its limits, an
/// address byte or the kind of a handler's arm has no meaning. `BadOpcode`: no operation has the opcode. `BadType`:
/// there is data and no type, type 0 hasn't the data's size, a type's number isn't its place, or a map marks a word
/// past its size. `BadData`: there are more than 268,435,456 bytes of data, an item doesn't fit where it stands, or a
/// text is no UTF-8. `BadLink`: a function's pc or type isn't in the object. `Trailing`: bytes stand behind the
/// object. `NoMemory`.
pub fn read_object(alloc: Global, bytes: &[u8]) -> Result<Object, FileFault>
    // What is read is what the bytes spell, and what they spell is read.
    ensures found { IfOk result (λ o. Spells o bytes.now) }
    ensures only { (o : AnyObject) → Spells o bytes.now → OrNoMemory result (Ok o) }
    // A refusal is that of the first faulty field, and where a field is faulty there is one.
    ensures refused { (r : AnyRefusal) → object_at bytes.now ≡ Err r → OrNoMemory result (Err (placed bytes.now r)) }
    ensures first_fault { IfErr result (λ e. (e ≡ NoMemory) ⊎ IsFirstFault bytes.now e) }
{
    match object_of(alloc, bytes) {
        Ok(object) => Ok(object),
        Err(ReadFault::NoMemory) => Err(FileFault::NoMemory),
        Err(ReadFault::Refused(refusal)) => {
            let at = bytes.len().saturating_sub(refusal.left);
            Err(FileFault::of(refusal.cause, at))
        }
    }
}
