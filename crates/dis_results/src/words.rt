//! Numbers as they lie in words (Dis Virtual Machine Specification, "Data representations").

ghost use Rattle.std.specs.Prelude.{◌≡◌, ◌<◌};
ghost use Rattle.dis_meaning.specs.Numbers as meaning;
ghost use Rattle.dis_places.specs.Regions.{words_here};
ghost use Rattle.dis_places.specs.View.{view_spot};
ghost use Rattle.dis_places.specs.Words.{GivesFault};
ghost use Rattle.dis_results.specs.Bytes.{moved, word_with_byte};

use dis_places::{Fault, Memory, Process, Region, Spot, byte_number, nth_number};
use limbo_values::int;

/// A plain word with one of its bytes replaced.
#[inline(always)]
pub fn with_byte(z: i32, k: usize, byte: u8) -> i32
    requires { k < 4 }
    ensures { result ≡ meaning.with_byte z k byte }
{
    let mut bytes = z.cast_unsigned().to_be_bytes();
    bytes[k] = byte;
    u32::from_be_bytes(bytes).cast_signed()
}

/// The first of the two words of a big.
#[inline(always)]
pub fn high_part(z: i64) -> i32
    ensures { result ≡ meaning.high_part z }
{
    z.div_euclid(1 << 32) as i32
}

/// The second of them.
#[inline(always)]
pub fn low_part(z: i64) -> i32
    ensures { result ≡ meaning.low_part z }
{
    int::wrap(z)
}

/// The byte at which the word of a byte begins, and the number of that word with the byte in it.
pub(crate) fn word_with_byte(
    memory: &Memory,
    process: &Process,
    region: Region,
    at: i64,
    byte: u8,
) -> Result<(i64, i32), Fault>
    ensures { GivesFault (λ r. (r.0, r.1)) result (word_with_byte (words_here memory.now.heap process.now region) at byte) }
{
    let n = byte_number(at)?;
    let old = nth_number(memory, process, region, n / 4)?;
    Ok(((n / 4 * 4) as i64, with_byte(old, n % 4, byte)))
}

/// The byte of this number in the same place.
#[inline(always)]
pub(crate) fn moved(spot: Spot, at: i64) -> Spot
    ensures { view_spot result ≡ moved (view_spot spot) at }
{
    match spot {
        Spot::Own(_) => Spot::Own(at),
        Spot::Data(_) => Spot::Data(at),
        Spot::Far(place, _) => Spot::Far(place, at),
    }
}
