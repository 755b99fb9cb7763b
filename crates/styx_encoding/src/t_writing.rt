ghost use Rattle.std.specs.Prelude.{◌≡◌, OnOk};
ghost use Rattle.std.specs.List.{AllByRecursion};
ghost use Rattle.styx_msg.specs.declared.fault.StyxFault.TheVariants.{TooLong};
ghost use Rattle.styx_msg.specs.Styx.{IsField, t_row};
ghost use Rattle.styx_encoding.specs.Writing.{put_all};
ghost use Rattle.styx_msg.specs.Answers.{Gives};

use crate::writing::{
    add_entry, add_names, add_piece, add_text, add_u8, add_u16, add_u32, add_u64,
};
use styx_msg::{StyxFault, Tmsg};

/// The number of the request's type.
pub fn t_type(message: &Tmsg) -> u8
    ensures { result ≡ (t_row message.now).type }
{
    match message {
        Tmsg::Version { .. } => 100,
        Tmsg::Auth { .. } => 102,
        Tmsg::Attach { .. } => 104,
        Tmsg::Flush { .. } => 108,
        Tmsg::Walk { .. } => 110,
        Tmsg::Open { .. } => 112,
        Tmsg::Create { .. } => 114,
        Tmsg::Read { .. } => 116,
        Tmsg::Write { .. } => 118,
        Tmsg::Clunk { .. } => 120,
        Tmsg::Remove { .. } => 122,
        Tmsg::Stat { .. } => 124,
        Tmsg::Wstat { .. } => 126,
    }
}

/// Adds the request's body.
pub fn add_t_body(out: &mut Vec<u8>, message: &Tmsg) -> Result<(), StyxFault>
    ensures added { Gives TooLong (λ _. out.new.items) result (put_all out.old.items (t_row message.now).fields) }
    ensures fits { OnOk result (AllByRecursion IsField (t_row message.now).fields) }
{
    match message {
        Tmsg::Version { msize, version } => {
            add_u32(out, *msize)?;
            add_text(out, version)
        }
        Tmsg::Auth { afid, uname, aname } => {
            add_u32(out, *afid)?;
            add_text(out, uname)?;
            add_text(out, aname)
        }
        Tmsg::Attach {
            fid,
            afid,
            uname,
            aname,
        } => {
            add_u32(out, *fid)?;
            add_u32(out, *afid)?;
            add_text(out, uname)?;
            add_text(out, aname)
        }
        Tmsg::Flush { oldtag } => Ok(add_u16(out, *oldtag)?),
        Tmsg::Walk { fid, newfid, wname } => {
            add_u32(out, *fid)?;
            add_u32(out, *newfid)?;
            add_names(out, wname.as_slice())
        }
        Tmsg::Open { fid, mode } => {
            add_u32(out, *fid)?;
            Ok(add_u8(out, *mode)?)
        }
        Tmsg::Create {
            fid,
            name,
            perm,
            mode,
        } => {
            add_u32(out, *fid)?;
            add_text(out, name)?;
            add_u32(out, *perm)?;
            Ok(add_u8(out, *mode)?)
        }
        Tmsg::Read { fid, offset, count } => {
            add_u32(out, *fid)?;
            add_u64(out, *offset)?;
            Ok(add_u32(out, *count)?)
        }
        Tmsg::Write { fid, offset, piece } => {
            add_u32(out, *fid)?;
            add_u64(out, *offset)?;
            add_piece(out, piece.as_slice())
        }
        Tmsg::Clunk { fid } | Tmsg::Remove { fid } | Tmsg::Stat { fid } => Ok(add_u32(out, *fid)?),
        Tmsg::Wstat { fid, stat } => {
            add_u32(out, *fid)?;
            add_entry(out, stat)
        }
    }
}
