//! Types, each of which an object has once.

ghost use Rattle.std.specs.Prelude.{◌≡◌, ◌≤◌, ◌↔◌, ◌<◌, [], ◌∷◌, true, length, OnOk, OnErr};
ghost use Rattle.dis_memory.specs.Arrays as arrays;
ghost use Rattle.value_code.specs.Objects.{is_known as is_known_of, distinct_from, number_among as number_of};

use dis_file::TypeDesc;
use std::alloc::AllocError;

// Two types of one size, with one map.
fn are_alike(a: &TypeDesc, b: &TypeDesc) -> bool
    ensures { result ≡ arrays.are_alike a.now b.now }
{
    a.size == b.size && a.map.as_slice() == b.map.as_slice()
}

/// The number of a type among these, the first that is alike; there are as many where none is.
pub fn number_among(descs: &[TypeDesc], desc: &TypeDesc) -> usize
    ensures number { result ≡ number_of descs.now desc.now }
    ensures within { result ≤ length descs.now }
    ensures known { is_known_of descs.now desc.now ≡ true ↔ result < length descs.now }
{
    for (number, other) in descs.iter().enumerate() {
        if are_alike(other, desc) {
            return number;
        }
    }
    descs.len()
}

/// Whether a type is alike with one of these.
pub fn is_known(descs: &[TypeDesc], desc: &TypeDesc) -> bool
    ensures { result ≡ is_known_of descs.now desc.now }
{
    number_among(descs, desc) < descs.len()
}

/// A type comes behind these, unless it is alike with one of them.
///
/// # Errors
/// Want of memory, which changes nothing.
pub fn add_desc(descs: &mut Vec<TypeDesc>, desc: TypeDesc) -> Result<(), AllocError>
    ensures ok { OnOk result (descs.new.items ≡ distinct_from descs.old.items (desc ∷ [])) }
    ensures err { OnErr result (descs.new.items ≡ descs.old.items) }
{
    if is_known(descs, &desc) {
        return Ok(());
    }
    descs.push(desc)?;
    Ok(())
}
