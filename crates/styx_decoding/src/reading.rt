ghost use Rattle.std.specs.Prelude.{◌≡◌};
ghost use Rattle.styx_msg.specs.declared.fault.StyxFault.TheVariants.{BadBody};
ghost use Rattle.styx_decoding.specs.Reading.{number_at, characters, text_at, qid_at, items_at, walk_at, counted_at};
ghost use Rattle.styx_decoding.specs.Reading.{entry_fields_at, entry_at};
ghost use Rattle.styx_msg.specs.Answers.{Gives};

use byteorder::{ByteOrder, LittleEndian};
use inf_text::{Seq, Text};
use std::alloc::Global;
use std::str;
use styx_msg::{Qid, Stat, StyxFault, WALK_MAX};

pub fn u8_at(bytes: &[u8]) -> Result<(u8, &[u8]), StyxFault>
    ensures { Gives BadBody (λ x. (x.0, x.1.now)) result (number_at 1 bytes.now) }
{
    match bytes {
        [] => Err(StyxFault::BadBody),
        [number, rest @ ..] => Ok((*number, rest)),
    }
}

pub fn u16_at(bytes: &[u8]) -> Result<(u16, &[u8]), StyxFault>
    ensures { Gives BadBody (λ x. (x.0, x.1.now)) result (number_at 2 bytes.now) }
{
    if bytes.len() < 2 {
        return Err(StyxFault::BadBody);
    }
    Ok((LittleEndian::read_u16(bytes), &bytes[2..]))
}

pub fn u32_at(bytes: &[u8]) -> Result<(u32, &[u8]), StyxFault>
    ensures { Gives BadBody (λ x. (x.0, x.1.now)) result (number_at 4 bytes.now) }
{
    if bytes.len() < 4 {
        return Err(StyxFault::BadBody);
    }
    Ok((LittleEndian::read_u32(bytes), &bytes[4..]))
}

pub fn u64_at(bytes: &[u8]) -> Result<(u64, &[u8]), StyxFault>
    ensures { Gives BadBody (λ x. (x.0, x.1.now)) result (number_at 8 bytes.now) }
{
    if bytes.len() < 8 {
        return Err(StyxFault::BadBody);
    }
    Ok((LittleEndian::read_u64(bytes), &bytes[8..]))
}

fn characters_of(alloc: Global, bytes: &[u8]) -> Result<Text, StyxFault>
    ensures { Gives BadBody (λ t. t) result (characters bytes.now) }
{
    match str::from_utf8(bytes) {
        Ok(text) => {
            let chars: Vec<char> = text.chars().collect(alloc)?;
            Ok(Text::from_vec(chars))
        }
        Err(_) => Err(StyxFault::BadBody),
    }
}

#[tactic(auto, unfolding(crate::specs::Reading::text_at))]
pub fn text_of(alloc: Global, bytes: &[u8]) -> Result<(Text, &[u8]), StyxFault>
    ensures { Gives BadBody (λ x. (x.0, x.1.now)) result (text_at bytes.now) }
{
    let (len, rest) = u16_at(bytes)?;
    let len = len as usize;
    if rest.len() < len {
        return Err(StyxFault::BadBody);
    }
    let (own, rest) = rest.split_at(len);
    Ok((characters_of(alloc, own)?, rest))
}

#[tactic(auto, unfolding(crate::specs::Reading::qid_at))]
pub fn qid_of(bytes: &[u8]) -> Result<(Qid, &[u8]), StyxFault>
    ensures { Gives BadBody (λ x. (x.0, x.1.now)) result (qid_at bytes.now) }
{
    let (kind, rest) = u8_at(bytes)?;
    let (vers, rest) = u32_at(rest)?;
    let (path, rest) = u64_at(rest)?;
    Ok((Qid { kind, vers, path }, rest))
}

#[tactic(auto, unfolding(crate::specs::Reading::counted_at))]
pub fn piece_of(alloc: Global, bytes: &[u8]) -> Result<(Seq<u8>, &[u8]), StyxFault>
    ensures { Gives BadBody (λ x. (x.0, x.1.now)) result (counted_at bytes.now) }
{
    let (count, rest) = u32_at(bytes)?;
    let count = count as usize;
    if rest.len() < count {
        return Err(StyxFault::BadBody);
    }
    let (piece, rest) = rest.split_at(count);
    Ok((Seq::from_vec(Vec::from_slice(alloc, piece)?), rest))
}

#[tactic(auto, unfolding(crate::specs::Reading::entry_fields_at))]
fn entry_fields_of(alloc: Global, bytes: &[u8]) -> Result<(Stat, &[u8]), StyxFault>
    ensures { Gives BadBody (λ x. (x.0, x.1.now)) result (entry_fields_at bytes.now) }
{
    let (kind, rest) = u16_at(bytes)?;
    let (dev, rest) = u32_at(rest)?;
    let (qid, rest) = qid_of(rest)?;
    let (mode, rest) = u32_at(rest)?;
    let (atime, rest) = u32_at(rest)?;
    let (mtime, rest) = u32_at(rest)?;
    let (length, rest) = u64_at(rest)?;
    let (name, rest) = text_of(alloc, rest)?;
    let (uid, rest) = text_of(alloc, rest)?;
    let (gid, rest) = text_of(alloc, rest)?;
    let (muid, rest) = text_of(alloc, rest)?;
    let stat = Stat {
        kind,
        dev,
        qid,
        mode,
        atime,
        mtime,
        length,
        name,
        uid,
        gid,
        muid,
    };
    Ok((stat, rest))
}

#[tactic(auto, unfolding(crate::specs::Reading::entry_at))]
pub fn entry_of(alloc: Global, bytes: &[u8]) -> Result<(Stat, &[u8]), StyxFault>
    ensures { Gives BadBody (λ x. (x.0, x.1.now)) result (entry_at bytes.now) }
{
    let (whole, rest) = u16_at(bytes)?;
    let (size, rest) = u16_at(rest)?;
    let size = size as usize;
    if whole as usize != size + 2 || rest.len() < size {
        return Err(StyxFault::BadBody);
    }
    let (own, rest) = rest.split_at(size);
    let (stat, left) = entry_fields_of(alloc, own)?;
    if !left.is_empty() {
        return Err(StyxFault::BadBody);
    }
    Ok((stat, rest))
}

fn names_at(alloc: Global, count: u16, bytes: &[u8]) -> Result<(Vec<Text>, &[u8]), StyxFault>
    ensures { Gives BadBody (λ x. (x.0.items, x.1.now)) result (items_at text_at count bytes.now) }
{
    let mut names = Vec::new(alloc);
    let mut rest = bytes;
    for _ in 0..count {
        let (name, after) = text_of(alloc, rest)?;
        names.push(name)?;
        rest = after;
    }
    Ok((names, rest))
}

fn qids_at(alloc: Global, count: u16, bytes: &[u8]) -> Result<(Vec<Qid>, &[u8]), StyxFault>
    ensures { Gives BadBody (λ x. (x.0.items, x.1.now)) result (items_at qid_at count bytes.now) }
{
    let mut qids = Vec::new(alloc);
    let mut rest = bytes;
    for _ in 0..count {
        let (qid, after) = qid_of(rest)?;
        qids.push(qid)?;
        rest = after;
    }
    Ok((qids, rest))
}

#[tactic(auto, unfolding(crate::specs::Reading::walk_at))]
pub fn names_of(alloc: Global, bytes: &[u8]) -> Result<(Seq<Text>, &[u8]), StyxFault>
    ensures { Gives BadBody (λ x. (x.0, x.1.now)) result (walk_at text_at bytes.now) }
{
    let (count, rest) = u16_at(bytes)?;
    if count as usize > WALK_MAX {
        return Err(StyxFault::BadBody);
    }
    let (names, rest) = names_at(alloc, count, rest)?;
    Ok((Seq::from_vec(names), rest))
}

#[tactic(auto, unfolding(crate::specs::Reading::walk_at))]
pub fn qids_of(alloc: Global, bytes: &[u8]) -> Result<(Seq<Qid>, &[u8]), StyxFault>
    ensures { Gives BadBody (λ x. (x.0, x.1.now)) result (walk_at qid_at bytes.now) }
{
    let (count, rest) = u16_at(bytes)?;
    if count as usize > WALK_MAX {
        return Err(StyxFault::BadBody);
    }
    let (qids, rest) = qids_at(alloc, count, rest)?;
    Ok((Seq::from_vec(qids), rest))
}
