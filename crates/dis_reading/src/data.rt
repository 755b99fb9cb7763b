//! The initial data (dis(6), "Data section").

ghost use Rattle.std.specs.Prelude.{length, IfOk};
ghost use Rattle.dis_format.specs.Reading.{Gives, item_kind_at, count_at, offset_at, string_at, array_kind_at, array_length_at};
ghost use Rattle.dis_format.specs.Reading.{new_array_at, index_at, content_at, item_at, end_at, data_at};
ghost use Rattle.dis_filling.specs.Filling.{loading_of, IsReadable};
ghost use Rattle.dis_reading.specs.Body.{with_front};

use crate::fields::{byte_at, bytes_at, front, natural_at, refused, word_at};
use dis_file::{Item, TypeDesc};
use dis_filling::{Filled, content_size, size_of};
use dis_format::{Cause, ItemKind, ReadFault, item_kind};
use inf_text::Seq;
use std::alloc::Global;
use std::str;

/// The kind of the item that begins with this byte.
#[tactic(auto, unfolding(dis_format::specs::Reading::item_kind_at))]
fn item_kind_at<'a>(filled: &Filled, bytes: &'a [u8]) -> Result<(ItemKind, &'a [u8]), ReadFault>
    ensures { Gives (λ x. (x.0, x.1.now)) result (item_kind_at (loading_of filled.now) bytes.now) }
{
    let (first, rest) = byte_at(bytes)?;
    match item_kind(first / 16) {
        Some(kind) => {
            if filled.leaves_one(kind) {
                Ok((kind, rest))
            } else {
                Err(refused(Cause::BadData, bytes))
            }
        }
        None => Err(refused(Cause::BadData, bytes)),
    }
}

/// An item's count, by the low half of its first byte.
#[tactic(auto, unfolding(dis_format::specs::Reading::count_at))]
fn count_at(low: u8, bytes: &[u8]) -> Result<(u32, &[u8]), ReadFault>
    ensures { Gives (λ x. (x.0, x.1.now)) result (count_at low bytes.now) }
{
    match low {
        0 => natural_at(bytes),
        _ => Ok((u32::from(low), bytes)),
    }
}

#[tactic(auto, unfolding(dis_format::specs::Reading::offset_at))]
fn offset_at<'a>(
    types: &[TypeDesc],
    filled: &Filled,
    kind: ItemKind,
    count: u32,
    bytes: &'a [u8],
) -> Result<(u32, &'a [u8]), ReadFault>
    ensures { Gives (λ x. (x.0, x.1.now)) result (offset_at types.now (loading_of filled.now) kind count bytes.now) }
{
    let (offset, rest) = natural_at(bytes)?;
    if filled.takes(types, kind, count, offset) {
        Ok((offset, rest))
    } else {
        Err(refused(Cause::BadData, bytes))
    }
}

#[tactic(auto, unfolding(dis_format::specs::Reading::string_at))]
fn string_at(count: usize, bytes: &[u8]) -> Result<(&[u8], &[u8]), ReadFault>
    ensures { Gives (λ x. (x.0.now, x.1.now)) result (string_at count bytes.now) }
{
    let (own, rest) = bytes_at(count, bytes)?;
    match str::from_utf8(own) {
        Ok(_) => Ok((own, rest)),
        Err(_) => Err(refused(Cause::BadData, bytes)),
    }
}

/// The number of the type of a new array's elements.
#[tactic(auto, unfolding(dis_format::specs::Reading::array_kind_at))]
fn array_kind_at<'a>(types: &[TypeDesc], bytes: &'a [u8]) -> Result<(u32, &'a [u8]), ReadFault>
    ensures { Gives (λ x. (x.0, x.1.now)) result (array_kind_at types.now bytes.now) }
{
    let (kind, rest) = word_at(bytes)?;
    if (kind as usize) < types.len() {
        Ok((kind, rest))
    } else {
        Err(refused(Cause::BadData, bytes))
    }
}

/// The length of a new array, whose elements take at most 268,435,456 bytes.
#[tactic(auto, unfolding(dis_format::specs::Reading::array_length_at))]
fn array_length_at<'a>(
    types: &[TypeDesc],
    kind: u32,
    bytes: &'a [u8],
) -> Result<(u32, &'a [u8]), ReadFault>
    ensures { Gives (λ x. (x.0, x.1.now)) result (array_length_at types.now kind bytes.now) }
{
    let (length, rest) = word_at(bytes)?;
    if u64::from(size_of(types, kind)) * u64::from(length) <= 268_435_456 {
        Ok((length, rest))
    } else {
        Err(refused(Cause::BadData, bytes))
    }
}

#[tactic(auto, unfolding(dis_format::specs::Reading::new_array_at))]
fn new_array_at<'a>(types: &[TypeDesc], bytes: &'a [u8]) -> Result<(&'a [u8], &'a [u8]), ReadFault>
    ensures { Gives (λ x. (x.0.now, x.1.now)) result (new_array_at types.now bytes.now) }
{
    let (kind, rest) = array_kind_at(types, bytes)?;
    let (_, rest) = array_length_at(types, kind, rest)?;
    Ok((front(8, bytes), rest))
}

#[tactic(auto, unfolding(dis_format::specs::Reading::index_at))]
fn index_at<'a>(
    filled: &Filled,
    offset: u32,
    bytes: &'a [u8],
) -> Result<(&'a [u8], &'a [u8]), ReadFault>
    ensures { Gives (λ x. (x.0.now, x.1.now)) result (index_at (loading_of filled.now) offset bytes.now) }
{
    let (index, rest) = word_at(bytes)?;
    if filled.has_element(offset, index) {
        Ok((front(4, bytes), rest))
    } else {
        Err(refused(Cause::BadData, bytes))
    }
}

fn content_at<'a>(
    types: &[TypeDesc],
    filled: &Filled,
    kind: ItemKind,
    count: u32,
    offset: u32,
    bytes: &'a [u8],
) -> Result<(&'a [u8], &'a [u8]), ReadFault>
    ensures { Gives (λ x. (x.0.now, x.1.now)) result
        (content_at types.now (loading_of filled.now) kind count offset bytes.now) }
{
    match kind {
        ItemKind::Text => string_at(count as usize, bytes),
        ItemKind::Array => new_array_at(types, bytes),
        ItemKind::Enter => index_at(filled, offset, bytes),
        _ => bytes_at(content_size(kind, count), bytes),
    }
}

#[tactic(auto, unfolding(dis_format::specs::Reading::item_at))]
fn item_at<'a>(
    alloc: Global,
    types: &[TypeDesc],
    filled: &Filled,
    bytes: &'a [u8],
) -> Result<(Item, &'a [u8]), ReadFault>
    ensures read { Gives (λ x. (x.0, x.1.now)) result (item_at types.now (loading_of filled.now) bytes.now) }
    ensures readable { IfOk result (λ x. IsReadable x.0) }
{
    let (kind, rest) = item_kind_at(filled, bytes)?;
    let (first, _) = byte_at(bytes)?;
    let (count, rest) = count_at(first % 16, rest)?;
    let (offset, rest) = offset_at(types, filled, kind, count, rest)?;
    let (content, rest) = content_at(types, filled, kind, count, offset, rest)?;
    let item = Item {
        kind: first / 16,
        count,
        offset,
        content: Seq::from_vec(Vec::from_slice(alloc, content)?),
    };
    Ok((item, rest))
}

/// What is read where a byte 0 ends the items: no array may be open there.
fn end_at<'a>(
    filled: &Filled,
    items: Vec<Item>,
    bytes: &'a [u8],
    rest: &'a [u8],
) -> Result<(Vec<Item>, &'a [u8]), ReadFault>
    ensures { Gives (λ x. (x.0.items, x.1.now)) result
        (with_front items.items (end_at (loading_of filled.now) bytes.now rest.now)) }
{
    if filled.is_closed() {
        Ok((items, rest))
    } else {
        Err(refused(Cause::BadData, bytes))
    }
}

/// The items up to a byte 0.
#[tactic(auto, unfolding(dis_format::specs::Reading::data_at))]
pub fn data_at<'a>(
    alloc: Global,
    types: &[TypeDesc],
    data_size: u32,
    bytes: &'a [u8],
) -> Result<(Vec<Item>, &'a [u8]), ReadFault>
    ensures { Gives (λ x. (x.0.items, x.1.now)) result (data_at types.now data_size bytes.now) }
{
    let mut filled = Filled::opening(alloc, data_size);
    let mut items = Vec::new(alloc);
    let mut rest = bytes;
    // An item takes a byte at least.
    for _ in 0..bytes.len() {
        let (first, after) = byte_at(rest)?;
        if first == 0 {
            return end_at(&filled, items, rest, after);
        }
        let (item, after) = item_at(alloc, types, &filled, rest)?;
        filled.take_in(types, &item)?;
        items.push(item)?;
        rest = after;
    }
    Err(refused(Cause::Short, rest))
}
