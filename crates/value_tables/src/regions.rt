//! Types of regions of slots, and of the records that keep them in a loop's chain.

ghost use Rattle.std.specs.Prelude.{◌≡◌, ◌+◌, ◌*◌, ◌<◌, ◌^◌, ◌++◌, IfOk, OnOk};
ghost use Rattle.limbo_typed.specs.Typed.{Module};
ghost use Rattle.value_frames.specs.Frames.{region_references};
ghost use Rattle.value_code.specs.Data.{OfRegion, OfTurn};
ghost use Rattle.value_code.specs.Objects.{desc_of};

use crate::descs::make_desc;
use dis_file::TypeDesc;
use std::alloc::{AllocError, Global};

// Adds the places of the words that refer in a region of so many slots from a byte on.
fn put_region(places: &mut Vec<u32>, from: u32, slots: u32) -> Result<(), AllocError>
    requires { from + 8 * slots < 2 ^ 32 }
    ensures { OnOk result (places.new.items ≡ places.old.items ++ region_references from slots) }
{
    for slot in 0..slots {
        places.push(from + 8 * slot + 4)?;
    }
    Ok(())
}

/// The type of a region of so many slots.
///
/// # Errors
/// Want of memory.
pub fn region_desc(alloc: Global, slots: u32) -> Result<TypeDesc, AllocError>
    requires { 8 * slots < 2 ^ 32 }
    ensures { (m : Module) → IfOk result (λ made. made ≡ desc_of m (OfRegion slots)) }
{
    let mut places = Vec::new(alloc);
    put_region(&mut places, 0, slots)?;
    make_desc(alloc, 8 * slots, &places)
}

/// The type of a record that keeps such a region in a loop's chain: the next record, the last one, and the region.
///
/// # Errors
/// Want of memory.
pub fn turn_desc(alloc: Global, slots: u32) -> Result<TypeDesc, AllocError>
    requires { 8 + 8 * slots < 2 ^ 32 }
    ensures { (m : Module) → IfOk result (λ made. made ≡ desc_of m (OfTurn slots)) }
{
    let mut places = vec![in alloc; 0, 4]?;
    put_region(&mut places, 8, slots)?;
    make_desc(alloc, 8 + 8 * slots, &places)
}
