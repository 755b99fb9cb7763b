ghost use Rattle.std.specs.Prelude.{◌≡◌, ◌≤◌, ◌<◌, ◌++◌, length, drop, IfOk, OnOk, MatchResult};
ghost use Rattle.byteorder.specs.Endian.{little_bytes};
ghost use Rattle.styx_msg.specs.declared.fault.StyxFault.TheVariants.{TooLong};
ghost use Rattle.styx_msg.specs.Styx.{t_row, r_row, Fits, IsShortEnough};
ghost use Rattle.styx_msg.specs.Answers.{IsEncoding};
ghost use Rattle.styx_msg.specs.Answers.{OrNoMemory};

use crate::r_writing::{add_r_body, r_type};
use crate::t_writing::{add_t_body, t_type};
use crate::writing::{add_u8, add_u16, add_u32};
use byteorder::{ByteOrder, LittleEndian};
use std::alloc::{AllocError, Global};
use styx_msg::{MESSAGE_MAX, Rmsg, StyxFault, Tmsg};

/// A message without its body. Its size is written once the body stands.
fn head(alloc: Global, kind: u8, tag: u16) -> Result<Vec<u8>, AllocError>
    ensures { IfOk result (λ v. v.items ≡ little_bytes 4 0 ++ (little_bytes 1 kind ++ little_bytes 2 tag)) }
{
    let mut out = Vec::new(alloc);
    add_u32(&mut out, 0)?;
    add_u8(&mut out, kind)?;
    add_u16(&mut out, tag)?;
    Ok(out)
}

/// Writes the size into its place.
fn sized(mut message: Vec<u8>) -> Result<Vec<u8>, StyxFault>
    requires { 4 ≤ length message.items }
    ensures { MatchResult result
        (λ v. (length message.items ≤ 8216)
        × (v.items ≡ little_bytes 4 (length message.items) ++ drop 4 message.items))
        (λ e. (e ≡ TooLong) × (8216 < length message.items)) }
{
    if message.len() > MESSAGE_MAX {
        return Err(StyxFault::TooLong);
    }
    let size = message.len() as u32;
    LittleEndian::write_u32(message.as_mut_slice(), size);
    Ok(message)
}

/// The one spelling of a request under a tag (Styx manual, section 5, intro).
///
/// # Errors
/// `TooLong` exactly where a text is longer than 65,535 bytes, a walk than 16 names, or the message than 8,216
/// bytes; `NoMemory`.
pub fn encode_t(alloc: Global, tag: u16, m: &Tmsg) -> Result<Vec<u8>, StyxFault>
    ensures answer { IsEncoding tag (t_row m.now) result }
    ensures refused { (IsShortEnough (t_row m.now) → ⊥) → OrNoMemory result (Err StyxFault.TooLong) }
    ensures fits { OnOk result (Fits tag (t_row m.now)) }
{
    let mut out = head(alloc, t_type(m), tag)?;
    add_t_body(&mut out, m)?;
    sized(out)
}

/// The one spelling of a reply under a tag (Styx manual, section 5, intro).
///
/// # Errors
/// `TooLong` exactly where a text is longer than 65,535 bytes, a walk than 16 qids, or the message than 8,216
/// bytes; `NoMemory`.
pub fn encode_r(alloc: Global, tag: u16, m: &Rmsg) -> Result<Vec<u8>, StyxFault>
    ensures answer { IsEncoding tag (r_row m.now) result }
    ensures refused { (IsShortEnough (r_row m.now) → ⊥) → OrNoMemory result (Err StyxFault.TooLong) }
    ensures fits { OnOk result (Fits tag (r_row m.now)) }
{
    let mut out = head(alloc, r_type(m), tag)?;
    add_r_body(&mut out, m)?;
    sized(out)
}
