ghost use Rattle.std.specs.Prelude.{◌≡◌, ◌<◌, ◌≤◌, ◌^◌, ◌++◌, length, IfOk, OnOk, true, encode_utf8_all};
ghost use Rattle.std.specs.List.{flat_map, AllByRecursion};
ghost use Rattle.std.specs.Str.{all_scalars};
ghost use Rattle.byteorder.specs.Endian.{little_bytes};
ghost use Rattle.styx_msg.specs.declared.fault.StyxFault.TheVariants.{TooLong};
ghost use Rattle.styx_msg.specs.Styx.{names, qids, counted, IsText, IsQid, IsField, qid_bytes, entry};
ghost use Rattle.styx_msg.specs.Styx.{entry_fields};
ghost use Rattle.styx_encoding.specs.Writing.{text_size, put_text, put_each, put_names, put_qids, put_counted};
ghost use Rattle.styx_encoding.specs.Writing.{put_all, entry_size, put_entry};
ghost use Rattle.styx_msg.specs.Answers.{Gives};

use inf_text::Text;
use std::alloc::AllocError;
use styx_msg::{MESSAGE_MAX, Qid, Stat, StyxFault, TEXT_MAX, WALK_MAX};

pub fn add_u8(out: &mut Vec<u8>, number: u8) -> Result<(), AllocError>
    ensures added { OnOk result (out.new.items ≡ out.old.items ++ little_bytes 1 number) }
    ensures fits { number < 256 ^ 1 }
{
    out.push(number)?;
    Ok(())
}

pub fn add_u16(out: &mut Vec<u8>, number: u16) -> Result<(), AllocError>
    ensures added { OnOk result (out.new.items ≡ out.old.items ++ little_bytes 2 number) }
    ensures fits { number < 256 ^ 2 }
{
    out.extend_from_slice(&number.to_le_bytes())
}

pub fn add_u32(out: &mut Vec<u8>, number: u32) -> Result<(), AllocError>
    ensures added { OnOk result (out.new.items ≡ out.old.items ++ little_bytes 4 number) }
    ensures fits { number < 256 ^ 4 }
{
    out.extend_from_slice(&number.to_le_bytes())
}

pub fn add_u64(out: &mut Vec<u8>, number: u64) -> Result<(), AllocError>
    ensures added { OnOk result (out.new.items ≡ out.old.items ++ little_bytes 8 number) }
    ensures fits { number < 256 ^ 8 }
{
    out.extend_from_slice(&number.to_le_bytes())
}

pub fn add_qid(out: &mut Vec<u8>, qid: &Qid) -> Result<(), AllocError>
    ensures added { OnOk result (out.new.items ≡ out.old.items ++ qid_bytes qid.now) }
    ensures fits { OnOk result (IsQid qid.now) }
{
    add_u8(out, qid.kind)?;
    add_u32(out, qid.vers)?;
    add_u64(out, qid.path)
}

fn utf8_len(chars: &[char]) -> usize
    requires { length chars.now ≤ 65535 }
    ensures { result ≡ length (encode_utf8_all chars.now) }
{
    let mut size = 0;
    for c in chars {
        size += c.len_utf8();
    }
    size
}

/// How many bytes of UTF-8 the text takes: at most 65,535.
fn size_of_text(text: &Text) -> Result<usize, StyxFault>
    ensures size { Gives TooLong (λ n. n) result (text_size text.now) }
    ensures small { IfOk result (λ n. n ≤ 65535) }
{
    // A character takes a byte at least.
    if text.len() > TEXT_MAX {
        return Err(StyxFault::TooLong);
    }
    let size = utf8_len(text.as_slice());
    if size > TEXT_MAX {
        return Err(StyxFault::TooLong);
    }
    Ok(size)
}

fn add_chars(out: &mut Vec<u8>, chars: &[char]) -> Result<(), AllocError>
    ensures added { OnOk result (out.new.items ≡ out.old.items ++ encode_utf8_all chars.now) }
    ensures scalars { OnOk result (all_scalars chars.now ≡ true) }
{
    for c in chars {
        let mut room = [0; 4];
        out.extend_from_slice(c.encode_utf8(&mut room).as_bytes())?;
    }
    Ok(())
}

#[tactic(auto, unfolding(crate::specs::Writing::put_text, crate::specs::Writing::text_size))]
pub fn add_text(out: &mut Vec<u8>, text: &Text) -> Result<(), StyxFault>
    ensures added { Gives TooLong (λ _. out.new.items) result (put_text out.old.items text.now) }
    ensures fits { OnOk result (IsText text.now) }
{
    let size = size_of_text(text)?;
    add_u16(out, size as u16)?;
    add_chars(out, text.as_slice())?;
    Ok(())
}

fn add_each(out: &mut Vec<u8>, wname: &[Text]) -> Result<(), StyxFault>
    ensures added { Gives TooLong (λ _. out.new.items) result (put_each out.old.items wname.now) }
    ensures fits { OnOk result (AllByRecursion IsText wname.now) }
{
    for name in wname {
        add_text(out, name)?;
    }
    Ok(())
}

#[tactic(auto, unfolding(crate::specs::Writing::put_names))]
pub fn add_names(out: &mut Vec<u8>, wname: &[Text]) -> Result<(), StyxFault>
    ensures added { Gives TooLong (λ _. out.new.items) result (put_names out.old.items wname.now) }
    ensures fits { OnOk result (IsField (names wname.now)) }
{
    if wname.len() > WALK_MAX {
        return Err(StyxFault::TooLong);
    }
    add_u16(out, wname.len() as u16)?;
    add_each(out, wname)
}

fn add_each_qid(out: &mut Vec<u8>, wqid: &[Qid]) -> Result<(), AllocError>
    ensures added { OnOk result (out.new.items ≡ out.old.items ++ flat_map qid_bytes wqid.now) }
    ensures fits { OnOk result (AllByRecursion IsQid wqid.now) }
{
    for qid in wqid {
        add_qid(out, qid)?;
    }
    Ok(())
}

#[tactic(auto, unfolding(crate::specs::Writing::put_qids))]
pub fn add_qids(out: &mut Vec<u8>, wqid: &[Qid]) -> Result<(), StyxFault>
    ensures added { Gives TooLong (λ _. out.new.items) result (put_qids out.old.items wqid.now) }
    ensures fits { OnOk result (IsField (qids wqid.now)) }
{
    if wqid.len() > WALK_MAX {
        return Err(StyxFault::TooLong);
    }
    add_u16(out, wqid.len() as u16)?;
    add_each_qid(out, wqid)?;
    Ok(())
}

#[tactic(auto, unfolding(crate::specs::Writing::put_counted))]
pub fn add_piece(out: &mut Vec<u8>, piece: &[u8]) -> Result<(), StyxFault>
    ensures added { Gives TooLong (λ _. out.new.items) result (put_counted out.old.items piece.now) }
    ensures fits { OnOk result (IsField (counted piece.now)) }
{
    if piece.len() > MESSAGE_MAX {
        return Err(StyxFault::TooLong);
    }
    add_u32(out, piece.len() as u32)?;
    out.extend_from_slice(piece)?;
    Ok(())
}

/// How many bytes an entry's fields take.
#[tactic(auto, unfolding(crate::specs::Writing::entry_size, crate::specs::Writing::text_size))]
fn size_of_entry(stat: &Stat) -> Result<usize, StyxFault>
    ensures size { Gives TooLong (λ n. n) result (entry_size stat.now) }
    ensures small { IfOk result (λ n. n < 2 ^ 20) }
{
    let name = size_of_text(&stat.name)?;
    let uid = size_of_text(&stat.uid)?;
    let gid = size_of_text(&stat.gid)?;
    let muid = size_of_text(&stat.muid)?;
    Ok(47 + name + uid + gid + muid)
}

fn add_entry_fields(out: &mut Vec<u8>, stat: &Stat) -> Result<(), StyxFault>
    ensures added { Gives TooLong (λ _. out.new.items) result (put_all out.old.items (entry_fields stat.now)) }
    ensures fits { OnOk result (AllByRecursion IsField (entry_fields stat.now)) }
{
    add_u16(out, stat.kind)?;
    add_u32(out, stat.dev)?;
    add_qid(out, &stat.qid)?;
    add_u32(out, stat.mode)?;
    add_u32(out, stat.atime)?;
    add_u32(out, stat.mtime)?;
    add_u64(out, stat.length)?;
    add_text(out, &stat.name)?;
    add_text(out, &stat.uid)?;
    add_text(out, &stat.gid)?;
    add_text(out, &stat.muid)
}

#[tactic(auto, unfolding(crate::specs::Writing::put_entry))]
fn add_sized_entry(out: &mut Vec<u8>, stat: &Stat) -> Result<(), StyxFault>
    ensures added { Gives TooLong (λ _. out.new.items) result (put_entry out.old.items stat.now) }
    ensures fits { OnOk result (AllByRecursion IsField (entry_fields stat.now)) }
{
    let size = size_of_entry(stat)?;
    if size + 2 > TEXT_MAX {
        return Err(StyxFault::TooLong);
    }
    add_u16(out, (size + 2) as u16)?;
    add_u16(out, size as u16)?;
    add_entry_fields(out, stat)
}

pub fn add_entry(out: &mut Vec<u8>, stat: &Stat) -> Result<(), StyxFault>
    ensures added { Gives TooLong (λ _. out.new.items) result (put_all out.old.items (entry stat.now)) }
    ensures fits { OnOk result (AllByRecursion IsField (entry stat.now)) }
{
    add_sized_entry(out, stat)
}
