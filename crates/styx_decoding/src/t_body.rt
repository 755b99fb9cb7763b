ghost use Rattle.std.specs.Prelude.{◌≡◌};
ghost use Rattle.styx_msg.specs.declared.fault.StyxFault.TheVariants.{BadBody};
ghost use Rattle.styx_decoding.specs.declared.kind.TKind.TheVariants as kind;
ghost use Rattle.styx_decoding.specs.Reading.{t_body_at};
ghost use Rattle.styx_msg.specs.Answers.{Gives};

use crate::kind::TKind;
use crate::reading::{entry_of, names_of, piece_of, text_of, u8_at, u16_at, u32_at, u64_at};
use std::alloc::Global;
use styx_msg::{StyxFault, Tmsg};

// The body of a Tversion, and the bytes after it; so of the others.
fn version(alloc: Global, bytes: &[u8]) -> Result<(Tmsg, &[u8]), StyxFault>
    ensures { Gives BadBody (λ x. (x.0, x.1.now)) result (t_body_at kind.Version bytes.now) }
{
    let (msize, rest) = u32_at(bytes)?;
    let (version, rest) = text_of(alloc, rest)?;
    Ok((Tmsg::Version { msize, version }, rest))
}

// Tauth.
fn auth(alloc: Global, bytes: &[u8]) -> Result<(Tmsg, &[u8]), StyxFault>
    ensures { Gives BadBody (λ x. (x.0, x.1.now)) result (t_body_at kind.Auth bytes.now) }
{
    let (afid, rest) = u32_at(bytes)?;
    let (uname, rest) = text_of(alloc, rest)?;
    let (aname, rest) = text_of(alloc, rest)?;
    Ok((Tmsg::Auth { afid, uname, aname }, rest))
}

// Tattach.
fn attach(alloc: Global, bytes: &[u8]) -> Result<(Tmsg, &[u8]), StyxFault>
    ensures { Gives BadBody (λ x. (x.0, x.1.now)) result (t_body_at kind.Attach bytes.now) }
{
    let (fid, rest) = u32_at(bytes)?;
    let (afid, rest) = u32_at(rest)?;
    let (uname, rest) = text_of(alloc, rest)?;
    let (aname, rest) = text_of(alloc, rest)?;
    let message = Tmsg::Attach {
        fid,
        afid,
        uname,
        aname,
    };
    Ok((message, rest))
}

// Twalk.
fn walk(alloc: Global, bytes: &[u8]) -> Result<(Tmsg, &[u8]), StyxFault>
    ensures { Gives BadBody (λ x. (x.0, x.1.now)) result (t_body_at kind.Walk bytes.now) }
{
    let (fid, rest) = u32_at(bytes)?;
    let (newfid, rest) = u32_at(rest)?;
    let (wname, rest) = names_of(alloc, rest)?;
    Ok((Tmsg::Walk { fid, newfid, wname }, rest))
}

// Tcreate.
fn create(alloc: Global, bytes: &[u8]) -> Result<(Tmsg, &[u8]), StyxFault>
    ensures { Gives BadBody (λ x. (x.0, x.1.now)) result (t_body_at kind.Create bytes.now) }
{
    let (fid, rest) = u32_at(bytes)?;
    let (name, rest) = text_of(alloc, rest)?;
    let (perm, rest) = u32_at(rest)?;
    let (mode, rest) = u8_at(rest)?;
    let message = Tmsg::Create {
        fid,
        name,
        perm,
        mode,
    };
    Ok((message, rest))
}

// Twrite.
fn write(alloc: Global, bytes: &[u8]) -> Result<(Tmsg, &[u8]), StyxFault>
    ensures { Gives BadBody (λ x. (x.0, x.1.now)) result (t_body_at kind.Write bytes.now) }
{
    let (fid, rest) = u32_at(bytes)?;
    let (offset, rest) = u64_at(rest)?;
    let (piece, rest) = piece_of(alloc, rest)?;
    Ok((Tmsg::Write { fid, offset, piece }, rest))
}

// Twstat.
fn wstat(alloc: Global, bytes: &[u8]) -> Result<(Tmsg, &[u8]), StyxFault>
    ensures { Gives BadBody (λ x. (x.0, x.1.now)) result (t_body_at kind.Wstat bytes.now) }
{
    let (fid, rest) = u32_at(bytes)?;
    let (stat, rest) = entry_of(alloc, rest)?;
    Ok((Tmsg::Wstat { fid, stat }, rest))
}

// Topen.
fn open(bytes: &[u8]) -> Result<(Tmsg, &[u8]), StyxFault>
    ensures { Gives BadBody (λ x. (x.0, x.1.now)) result (t_body_at kind.Open bytes.now) }
{
    let (fid, rest) = u32_at(bytes)?;
    let (mode, rest) = u8_at(rest)?;
    Ok((Tmsg::Open { fid, mode }, rest))
}

// Tread.
fn read(bytes: &[u8]) -> Result<(Tmsg, &[u8]), StyxFault>
    ensures { Gives BadBody (λ x. (x.0, x.1.now)) result (t_body_at kind.Read bytes.now) }
{
    let (fid, rest) = u32_at(bytes)?;
    let (offset, rest) = u64_at(rest)?;
    let (count, rest) = u32_at(rest)?;
    Ok((Tmsg::Read { fid, offset, count }, rest))
}

/// The request of a type whose body the bytes begin with, and the bytes after it.
pub fn t_body(alloc: Global, kind: TKind, bytes: &[u8]) -> Result<(Tmsg, &[u8]), StyxFault>
    ensures { Gives BadBody (λ x. (x.0, x.1.now)) result (t_body_at kind bytes.now) }
{
    match kind {
        TKind::Version => version(alloc, bytes),
        TKind::Auth => auth(alloc, bytes),
        TKind::Attach => attach(alloc, bytes),
        TKind::Flush => {
            let (oldtag, rest) = u16_at(bytes)?;
            Ok((Tmsg::Flush { oldtag }, rest))
        }
        TKind::Walk => walk(alloc, bytes),
        TKind::Open => open(bytes),
        TKind::Create => create(alloc, bytes),
        TKind::Read => read(bytes),
        TKind::Write => write(alloc, bytes),
        TKind::Clunk => {
            let (fid, rest) = u32_at(bytes)?;
            Ok((Tmsg::Clunk { fid }, rest))
        }
        TKind::Remove => {
            let (fid, rest) = u32_at(bytes)?;
            Ok((Tmsg::Remove { fid }, rest))
        }
        TKind::Stat => {
            let (fid, rest) = u32_at(bytes)?;
            Ok((Tmsg::Stat { fid }, rest))
        }
        TKind::Wstat => wstat(alloc, bytes),
    }
}
