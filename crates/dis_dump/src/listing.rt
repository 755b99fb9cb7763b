ghost use Rattle.std.specs.Prelude.{◌≡◌, ◌⊎◌, IfOk, IfErr, MatchResult};
ghost use Rattle.dis_file.specs.declared.object.Object.{Object};
ghost use Rattle.dis_format.specs.declared.fault.FileFault.TheVariants.{NoMemory};
ghost use Rattle.dis_format.specs.Objects.{Spells};
ghost use Rattle.dis_format.specs.Reading.{IsFirstFault};
ghost use Rattle.dis_text.specs.Listing.{listing_of};

use dis_format::FileFault;
use dis_reading::read_object;
use dis_text::listing;
use std::alloc::Global;

/// The listing of the object that all of the bytes spell.
///
/// # Errors
/// The fault of the first faulty field, at its first byte; `NoMemory`.
pub fn list_bytes(alloc: Global, bytes: &[u8]) -> Result<Vec<u8>, FileFault>
    ensures listed { IfOk result (λ text. (o : Object) × Spells o bytes.now × (text.items ≡ listing_of o)) }
    ensures only { (o : Object) → Spells o bytes.now
        → MatchResult result (λ text. text.items ≡ listing_of o) (λ e. e ≡ NoMemory) }
    ensures refused { IfErr result (λ e. (e ≡ NoMemory) ⊎ IsFirstFault bytes.now e) }
{
    let object = read_object(alloc, bytes)?;
    Ok(listing(alloc, &object)?)
}
