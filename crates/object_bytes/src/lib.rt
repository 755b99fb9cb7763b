//! Valid objects as the bytes of an object file, and what these bytes spell.
//!
//! An object is valid where some bytes spell it, and its written form is the shortest of these (`dis_format`). `bytes_of` answers it, and
//! `reread` the object that it spells: the same one, since bytes spell one object at most. So a machine runs what stands in a file.
//! Both refuse nothing but for want of memory. The commands `go` and `limbo` stand on it.
#![tactic(auto)]

ghost use Rattle.std.specs.Prelude.{◌≡◌, IfOk};
ghost use Rattle.dis_format.specs.Objects.{IsValid, Spells, written_form};

use dis_file::Object;
use dis_format::laws::{one_object, shortest};
use dis_reading::read_object;
use dis_writing::write_object;
use std::alloc::{AllocError, Global};

/// The written form of a valid object.
///
/// # Errors
/// Want of memory.
pub fn bytes_of(alloc: Global, object: &Object) -> Result<Vec<u8>, AllocError>
    requires valid { IsValid object.now }
    ensures written { IfOk result (λ bytes. bytes.items ≡ written_form object.now) }
    ensures spelled { IfOk result (λ bytes. Spells object.now bytes.items) }
{
    // The written form of a valid object spells it.
    shortest();
    match write_object(alloc, object) {
        Ok(bytes) => Ok(bytes),
        Err(_) => Err(AllocError),
    }
}

/// The object that the written form of a valid object spells: it is written, and read again from its bytes.
///
/// # Errors
/// Want of memory.
pub fn reread(alloc: Global, object: &Object) -> Result<Object, AllocError>
    requires valid { IsValid object.now }
    ensures spelled { IfOk result (λ read. Spells read (written_form object.now)) }
    ensures same { IfOk result (λ read. read ≡ object.now) }
{
    // Bytes spell one object at most.
    one_object();
    let bytes = bytes_of(alloc, object)?;
    match read_object(alloc, bytes.as_slice()) {
        Ok(read) => Ok(read),
        Err(_) => Err(AllocError),
    }
}
