ghost use Rattle.std.specs.Prelude.{◌≡◌, ◌+◌, ◌^◌, ◌<◌, ◌≤◌, length, pos, IfOk};
ghost use Rattle.styx_msg.specs.declared.message.Rmsg.TheVariants.{Write};
ghost use Rattle.styx_msg.specs.declared.fault.StyxFault.TheVariants.{NoMemory};
ghost use Rattle.system_model.specs.Prints as meaning;
ghost use Rattle.system_model.specs.Values.{Num, int_of};
ghost use Rattle.sys_print.specs.Worlds.{view_world};
ghost use Rattle.sys_print.specs.Printing.{view_request, view_writing, view_printing};
ghost use Rattle.sys_print.specs.Sent.{IsSent, Sent};

use crate::outside::{World, begin_wait, copy_world, end_wait, free_tag, wrote};
use crate::writing::{Request, Writing};
use inf_text::{Seq, Text};
use std::alloc::{AllocError, Global};
use styx_encoding::encode_t;
use styx_msg::{Rmsg, StyxFault, Tmsg};

/// The most bytes that one request carries.
const LONGEST_PIECE: usize = 8192;

/// What a print comes to: it answers, asks, or is given a reply that is none to its request.
#[derive(Drop)]
pub enum Printing {
    /// The world, and the number that the print answers.
    Answers(World, i32),
    Requests(World, Request, Writing),
    NoReply,
}

/// What is left of a count in 32 bits, signed.
fn int_of_count(n: u64) -> i32
    ensures { Num result ≡ int_of (pos n) }
{
    ((n % 4_294_967_296) as u32).cast_signed()
}

// A request of a print is never too long, so only memory can be wanting.
fn want_of_memory(fault: StyxFault) -> AllocError
    requires { fault ≡ NoMemory }
{
    let _ = fault;
    AllocError
}

// The Twrite of these bytes to the output, where it stands, with this tag.
fn twrite(alloc: Global, world: &World, tag: u16, piece: &[u8]) -> Result<Request, AllocError>
    requires { length piece.now ≤ 8192 }
    ensures request { IfOk result (λ m. view_request m ≡ meaning.twrite (view_world world.now) tag piece.now) }
    ensures sent { IfOk result (λ m. (m.link ≡ 1) × IsSent m.frame.items tag (length piece.now)) }
{
    let piece = Vec::from_slice(alloc, piece)?;
    let message = Tmsg::Write {
        fid: world.files.output.fid,
        offset: world.files.output.offset,
        piece: Seq::from_vec(piece),
    };
    match encode_t(alloc, tag, &message) {
        Ok(frame) => Ok(Request { link: 1, frame }),
        Err(fault) => Err(want_of_memory(fault)),
    }
}

// The first piece of these bytes is asked for, under the smallest free tag.
fn ask_piece(
    alloc: Global,
    world: World,
    written: u64,
    bytes: &[u8],
) -> Result<Printing, AllocError>
    requires { written + length bytes.now < 2 ^ 64 }
    ensures printing { IfOk result (λ g. view_printing g
        ≡ meaning.ask_piece (view_world world) written bytes.now) }
    ensures sent { IfOk result Sent }
{
    // A tag has 16 bits. That so many requests wait isn't met, as there are fewer processes.
    let Ok(tag) = u16::try_from(free_tag(alloc, &world.links.console)?) else {
        return Err(AllocError);
    };
    let (piece, left) = bytes.split_at(LONGEST_PIECE.min(bytes.len()));
    let request = twrite(alloc, &world, tag, piece)?;
    let asked = piece.len() as u32;
    let left = Vec::from_slice(alloc, left)?;
    let world = begin_wait(u64::from(tag), world)?;
    let writing = Writing {
        tag: u64::from(tag),
        written,
        asked,
        left,
    };
    Ok(Printing::Requests(world, request, writing))
}

/// A print of this text: an empty one asks nothing and answers 0.
pub fn print(alloc: Global, world: &World, text: &Text) -> Result<Printing, AllocError>
    ensures printing { IfOk result (λ g. view_printing g ≡ meaning.print (view_world world.now) text.now) }
    ensures sent { IfOk result Sent }
{
    let world = copy_world(world)?;
    if text.len() == 0 {
        return Ok(Printing::Answers(world, int_of_count(0)));
    }
    let bytes = text.to_utf8(alloc)?;
    ask_piece(alloc, world, 0, &bytes)
}

// So many bytes were written, and these are left.
fn go_on(alloc: Global, world: World, total: u64, left: &[u8]) -> Result<Printing, AllocError>
    requires { total + length left.now < 2 ^ 64 }
    ensures printing { IfOk result (λ g. view_printing g ≡ meaning.go_on (view_world world) total left.now) }
    ensures sent { IfOk result Sent }
{
    if left.is_empty() {
        return Ok(Printing::Answers(world, int_of_count(total)));
    }
    ask_piece(alloc, world, total, left)
}

// So many bytes of the piece were written, and no more than were asked.
fn took(alloc: Global, world: World, k: &Writing, count: u32) -> Result<Printing, AllocError>
    requires { count ≤ k.now.asked }
    ensures printing { IfOk result (λ g. view_printing g
        ≡ meaning.took (view_world world) (view_writing k.now) count) }
    ensures sent { IfOk result Sent }
{
    let total = k.written + u64::from(count);
    if count < k.asked {
        return Ok(Printing::Answers(world, int_of_count(total)));
    }
    go_on(alloc, world, total, &k.left)
}

// A piece was refused, behind so many bytes that were written.
fn refused(world: World, written: u64) -> Printing
    ensures { view_printing result ≡ meaning.refused (view_world world) written }
{
    if written == 0 {
        return Printing::Answers(world, -1);
    }
    Printing::Answers(world, int_of_count(written))
}

// The Rwrite of so many bytes.
fn hear_count(alloc: Global, count: u32, world: &World, k: &Writing) -> Result<Printing, AllocError>
    ensures printing { IfOk result (λ g. view_printing g
        ≡ meaning.hear (Write count) (view_world world.now) (view_writing k.now)) }
    ensures sent { IfOk result Sent }
{
    if k.asked < count {
        return Ok(Printing::NoReply);
    }
    let world = end_wait(alloc, k.tag, world)?;
    took(alloc, wrote(count, world), k, count)
}

/// The reply to a print's request.
pub fn hear(alloc: Global, reply: &Rmsg, world: &World, k: &Writing) -> Result<Printing, AllocError>
    ensures printing { IfOk result (λ g. view_printing g
        ≡ meaning.hear reply.now (view_world world.now) (view_writing k.now)) }
    ensures sent { IfOk result Sent }
{
    match reply {
        Rmsg::Write { count } => hear_count(alloc, *count, world, k),
        Rmsg::Error { .. } => Ok(refused(end_wait(alloc, k.tag, world)?, k.written)),
        Rmsg::Version { .. } => Ok(Printing::NoReply),
        Rmsg::Auth { .. } => Ok(Printing::NoReply),
        Rmsg::Attach { .. } => Ok(Printing::NoReply),
        Rmsg::Flush => Ok(Printing::NoReply),
        Rmsg::Walk { .. } => Ok(Printing::NoReply),
        Rmsg::Open { .. } => Ok(Printing::NoReply),
        Rmsg::Create { .. } => Ok(Printing::NoReply),
        Rmsg::Read { .. } => Ok(Printing::NoReply),
        Rmsg::Clunk => Ok(Printing::NoReply),
        Rmsg::Remove => Ok(Printing::NoReply),
        Rmsg::Stat { .. } => Ok(Printing::NoReply),
        Rmsg::Wstat => Ok(Printing::NoReply),
    }
}
