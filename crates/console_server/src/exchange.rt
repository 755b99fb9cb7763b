//! One request and its reply, as they are sent.

ghost use Rattle.std.specs.Prelude.{◌≡◌, ◌≤◌, ◌⊎◌, ℕ, List, true, IfOk, OnOk, OnErr};
ghost use Rattle.std.specs.Io.KnownBytes.{Appends, Keeps};
ghost use Rattle.inf_ports.specs.Outside.{Rose};
ghost use Rattle.styx_msg.specs.declared.message.Tmsg.{Tmsg as AnyRequest};
ghost use Rattle.styx_msg.specs.declared.message.Rmsg.{Rmsg as AnyReply};
ghost use Rattle.styx_msg.specs.Styx.{t_row, r_row, spelling, Fits};
ghost use Rattle.console_server.specs.Console.{Answers, IsSmall, IsShortReply};
ghost use Rattle.console_server.specs.Exchange.{IsRequest, IsServed};

use crate::console::Console;
use inf_ports::Sink;
use std::alloc::{AllocError, Global};
use styx_decoding::decode_t;
use styx_encoding::encode_r;
use styx_msg::{Decoded, Rmsg, StyxFault, Tmsg};

/// The request under its tag that a frame is.
///
/// # Errors
/// Want of memory.
fn request_of(alloc: Global, frame: &[u8]) -> Result<(u16, Tmsg), AllocError>
    requires { (tag : ℕ) × (m : AnyRequest) × IsRequest frame.now tag m }
    ensures { IfOk result (λ x. (tag : ℕ) (m : AnyRequest) → IsRequest frame.now tag m → (x.0 ≡ tag) × (x.1 ≡ m)) }
{
    match decode_t(alloc, frame) {
        Ok(Decoded::Whole { tag, message, .. }) => Ok((tag, message)),
        Ok(Decoded::Short) => unreachable!(),
        Err(_) => Err(AllocError),
    }
}

/// The frame of a reply under a tag.
///
/// # Errors
/// Want of memory.
fn frame_of(alloc: Global, tag: u16, reply: &Rmsg) -> Result<Vec<u8>, AllocError>
    requires { IsShortReply reply.now }
    ensures spelled { IfOk result (λ frame. frame.items ≡ spelling tag (r_row reply.now)) }
    ensures fits { OnOk result (Fits tag (r_row reply.now)) }
{
    match encode_r(alloc, tag, reply) {
        Ok(frame) => Ok(frame),
        Err(StyxFault::NoMemory) => Err(AllocError),
        Err(_) => unreachable!(),
    }
}

/// Answers the request that a frame is, by the console, under its tag.
///
/// # Errors
/// Want of memory. Then the request was served or not.
pub fn answer<K: Sink>(
    alloc: Global,
    console: &mut Console,
    frame: &[u8],
    out: &mut K,
) -> Result<Vec<u8>, AllocError>
    requires request { (tag : ℕ) × (m : AnyRequest) × IsRequest frame.now tag m }
    requires small { (tag : ℕ) (m : AnyRequest) → IsRequest frame.now tag m → IsSmall m }
    ensures answered { IfOk result (λ reply. (tag : ℕ) (m : AnyRequest) → IsRequest frame.now tag m →
        (served : IsServed console.old.failed tag m reply.items console.new.failed (K.held out.old) (K.held out.new))
        × Fits tag (r_row served.reply)) }
    ensures stopped { OnErr result ((tag : ℕ) (m : AnyRequest) → IsRequest frame.now tag m →
        ((console.new ≡ console.old) × Keeps (K.held out.old) (K.held out.new))
        ⊎ ((reply : List ℕ) × IsServed console.old.failed tag m reply console.new.failed (K.held out.old) (K.held out.new))) }
    ensures failed { console.new.failed ≡ true → (console.old.failed ≡ true) ⊎ Rose (K.faults out.old) (K.faults out.new) }
    ensures later { K.faults out.old ≤ K.faults out.new }
{
    let (tag, request) = request_of(alloc, frame)?;
    let reply = console.serve(alloc, &request, out)?;
    frame_of(alloc, tag, &reply)
}
