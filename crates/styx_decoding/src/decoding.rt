ghost use Rattle.std.specs.Prelude.{◌≡◌, ℕ, MatchResult, MatchOption};
ghost use Rattle.styx_msg.specs.declared.fault.StyxFault.TheVariants.{BadSize};
ghost use Rattle.styx_msg.specs.declared.message.Tmsg.{Tmsg};
ghost use Rattle.styx_msg.specs.declared.message.Rmsg.{Rmsg};
ghost use Rattle.styx_msg.specs.Styx.{t_row, r_row, Begins, IsShort, HasBadSize, HasBadType, HasBadBody};
ghost use Rattle.styx_msg.specs.Answers.{OrNoMemory};
ghost use Rattle.styx_decoding.specs.Decoding.{IsFrame, IsAnswer};

use crate::kind::{r_kind, t_kind};
use crate::r_body::r_body;
use crate::t_body::t_body;
use byteorder::{ByteOrder, LittleEndian};
use std::alloc::Global;
use styx_msg::{Decoded, MESSAGE_MAX, MESSAGE_MIN, Rmsg, StyxFault, Tmsg};

/// The bytes that a size states, in parts.
#[derive(Clone, Copy)]
struct Frame<'a> {
    kind: u8,
    tag: u16,
    body: &'a [u8],
    size: usize,
}

/// The parts of the message that the bytes begin with, or `None` where there are too few of them.
fn frame_of(bytes: &[u8]) -> Result<Option<Frame<'_>>, StyxFault>
    ensures { MatchResult result
        (λ o. MatchOption o (IsShort bytes.now) (λ f. IsFrame bytes.now f.kind f.tag f.body.now f.size))
        (λ e. (e ≡ BadSize) × HasBadSize bytes.now) }
{
    if bytes.len() < 4 {
        return Ok(None);
    }
    let size = LittleEndian::read_u32(bytes) as usize;
    if size < MESSAGE_MIN || size > MESSAGE_MAX {
        return Err(StyxFault::BadSize);
    }
    if bytes.len() < size {
        return Ok(None);
    }
    Ok(Some(Frame {
        kind: bytes[4],
        tag: LittleEndian::read_u16(&bytes[5..]),
        body: &bytes[7..size],
        size,
    }))
}

fn t_answer(alloc: Global, bytes: &[u8]) -> Result<Decoded<Tmsg>, StyxFault>
    ensures { IsAnswer t_row bytes.now result }
{
    let Some(frame) = frame_of(bytes)? else {
        return Ok(Decoded::Short);
    };
    let Some(kind) = t_kind(frame.kind) else {
        return Err(StyxFault::BadType);
    };
    let (message, rest) = t_body(alloc, kind, frame.body)?;
    if !rest.is_empty() {
        return Err(StyxFault::BadBody);
    }
    Ok(Decoded::Whole {
        tag: frame.tag,
        message,
        used: frame.size,
    })
}

/// The request that the bytes begin with, its tag, and how many bytes it takes; or `Short`, where the bytes are
/// fewer than 4 or than a stated size within the limits.
///
/// # Errors
/// In this order: `BadSize` where the stated size is below 7 or above 8,216; `BadType` where no request has the
/// type; `BadBody` where the body isn't laid out as the type wants it (Styx manual, section 5, intro). `NoMemory`
/// only where the type is a request's.
pub fn decode_t(alloc: Global, bytes: &[u8]) -> Result<Decoded<Tmsg>, StyxFault>
    // What each answer says of the bytes.
    ensures answer { IsAnswer t_row bytes.now result }
    // What the bytes say of the answer.
    ensures whole { (tag : ℕ) (m : Tmsg) (used : ℕ) → Begins t_row bytes.now tag m used
        → OrNoMemory result (Ok (Decoded.Whole tag m used)) }
    ensures short { IsShort bytes.now → result ≡ Ok Decoded.Short }
    ensures bad_size { HasBadSize bytes.now → result ≡ Err StyxFault.BadSize }
    ensures bad_type { HasBadType t_row bytes.now → result ≡ Err StyxFault.BadType }
    ensures bad_body { HasBadBody t_row bytes.now → OrNoMemory result (Err StyxFault.BadBody) }
{
    t_answer(alloc, bytes)
}

fn r_answer(alloc: Global, bytes: &[u8]) -> Result<Decoded<Rmsg>, StyxFault>
    ensures { IsAnswer r_row bytes.now result }
{
    let Some(frame) = frame_of(bytes)? else {
        return Ok(Decoded::Short);
    };
    let Some(kind) = r_kind(frame.kind) else {
        return Err(StyxFault::BadType);
    };
    let (message, rest) = r_body(alloc, kind, frame.body)?;
    if !rest.is_empty() {
        return Err(StyxFault::BadBody);
    }
    Ok(Decoded::Whole {
        tag: frame.tag,
        message,
        used: frame.size,
    })
}

/// The reply that the bytes begin with, its tag, and how many bytes it takes; or `Short`, where the bytes are
/// fewer than 4 or than a stated size within the limits.
///
/// # Errors
/// In this order: `BadSize` where the stated size is below 7 or above 8,216; `BadType` where no reply has the
/// type; `BadBody` where the body isn't laid out as the type wants it (Styx manual, section 5, intro). `NoMemory`
/// only where the type is a reply's.
pub fn decode_r(alloc: Global, bytes: &[u8]) -> Result<Decoded<Rmsg>, StyxFault>
    // What each answer says of the bytes.
    ensures answer { IsAnswer r_row bytes.now result }
    // What the bytes say of the answer.
    ensures whole { (tag : ℕ) (m : Rmsg) (used : ℕ) → Begins r_row bytes.now tag m used
        → OrNoMemory result (Ok (Decoded.Whole tag m used)) }
    ensures short { IsShort bytes.now → result ≡ Ok Decoded.Short }
    ensures bad_size { HasBadSize bytes.now → result ≡ Err StyxFault.BadSize }
    ensures bad_type { HasBadType r_row bytes.now → result ≡ Err StyxFault.BadType }
    ensures bad_body { HasBadBody r_row bytes.now → OrNoMemory result (Err StyxFault.BadBody) }
{
    r_answer(alloc, bytes)
}
