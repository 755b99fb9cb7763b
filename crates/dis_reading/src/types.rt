//! Types (dis(6), "Type section").

ghost use Rattle.std.specs.Prelude.{◌≡◌, ◌-◌, ◌%◌, ◌^◌, ◌==◌};
ghost use Rattle.dis_format.specs.Objects.{map_stands};
ghost use Rattle.dis_format.specs.Reading.{Gives, place_at, type_size_at, map_at, type_at, types_at};

use crate::fields::{bytes_at, natural_at, refused};
use dis_file::TypeDesc;
use dis_format::{Cause, ReadFault};
use inf_text::Seq;
use std::alloc::Global;

#[tactic(auto, unfolding(dis_format::specs::Reading::place_at))]
fn place_at(place: u32, bytes: &[u8]) -> Result<(u32, &[u8]), ReadFault>
    ensures { Gives (λ x. (x.0, x.1.now)) result (place_at place bytes.now) }
{
    let (number, rest) = natural_at(bytes)?;
    if number == place {
        Ok((number, rest))
    } else {
        Err(refused(Cause::BadType, bytes))
    }
}

#[tactic(auto, unfolding(dis_format::specs::Reading::type_size_at))]
fn type_size_at(data_size: u32, place: u32, bytes: &[u8]) -> Result<(u32, &[u8]), ReadFault>
    ensures { Gives (λ x. (x.0, x.1.now)) result (type_size_at data_size place bytes.now) }
{
    let (size, rest) = natural_at(bytes)?;
    if place != 0 || data_size == 0 || size == data_size {
        Ok((size, rest))
    } else {
        Err(refused(Cause::BadType, bytes))
    }
}

/// Whether a byte of a map marks none but the first so many words.
fn byte_within(words: u32, byte: u8) -> bool
    ensures { result ≡ (byte % 2 ^ (8 - words) == 0) }
{
    if words >= 8 {
        return true;
    }
    u32::from(byte) % (1 << (8 - words)) == 0
}

/// Whether a map marks none but the first so many words.
fn marks_within(words: u32, map: &[u8]) -> bool
    ensures { result ≡ map_stands words map.now }
{
    let mut left = words;
    for byte in map {
        if !byte_within(left, *byte) {
            return false;
        }
        left = left.saturating_sub(8);
    }
    true
}

#[tactic(auto, unfolding(dis_format::specs::Reading::map_at))]
fn map_at(words: u32, count: usize, bytes: &[u8]) -> Result<(&[u8], &[u8]), ReadFault>
    ensures { Gives (λ x. (x.0.now, x.1.now)) result (map_at words count bytes.now) }
{
    let (map, rest) = bytes_at(count, bytes)?;
    if marks_within(words, map) {
        Ok((map, rest))
    } else {
        Err(refused(Cause::BadType, bytes))
    }
}

#[tactic(auto, unfolding(dis_format::specs::Reading::type_at))]
fn type_at(
    alloc: Global,
    data_size: u32,
    place: u32,
    bytes: &[u8],
) -> Result<(TypeDesc, &[u8]), ReadFault>
    ensures { Gives (λ x. (x.0, x.1.now)) result (type_at data_size place bytes.now) }
{
    let (_, rest) = place_at(place, bytes)?;
    let (size, rest) = type_size_at(data_size, place, rest)?;
    let (len, rest) = natural_at(rest)?;
    let (map, rest) = map_at(size / 4, len as usize, rest)?;
    let desc = TypeDesc {
        size,
        map: Seq::from_vec(Vec::from_slice(alloc, map)?),
    };
    Ok((desc, rest))
}

/// So many types.
pub fn types_of(
    alloc: Global,
    data_size: u32,
    count: u32,
    bytes: &[u8],
) -> Result<(Vec<TypeDesc>, &[u8]), ReadFault>
    ensures { Gives (λ x. (x.0.items, x.1.now)) result (types_at data_size 0 count bytes.now) }
{
    let mut types = Vec::with_capacity(alloc, (count as usize).min(bytes.len()))?;
    let mut rest = bytes;
    for place in 0..count {
        let (desc, after) = type_at(alloc, data_size, place, rest)?;
        types.push(desc)?;
        rest = after;
    }
    Ok((types, rest))
}
