ghost use Rattle.std.specs.Prelude.{◌≡◌};
ghost use Rattle.styx_msg.specs.declared.fault.StyxFault.TheVariants.{BadBody};
ghost use Rattle.styx_decoding.specs.Reading.{r_body_at};
ghost use Rattle.styx_msg.specs.Answers.{Gives};

use crate::kind::RKind;
use crate::reading::{entry_of, piece_of, qid_of, qids_of, text_of, u32_at};
use std::alloc::Global;
use styx_msg::{Rmsg, StyxFault};

/// The reply of a type whose body the bytes begin with, and the bytes after it.
pub fn r_body(alloc: Global, kind: RKind, bytes: &[u8]) -> Result<(Rmsg, &[u8]), StyxFault>
    ensures { Gives BadBody (λ x. (x.0, x.1.now)) result (r_body_at kind bytes.now) }
{
    match kind {
        RKind::Version => {
            let (msize, rest) = u32_at(bytes)?;
            let (version, rest) = text_of(alloc, rest)?;
            Ok((Rmsg::Version { msize, version }, rest))
        }
        RKind::Auth => {
            let (aqid, rest) = qid_of(bytes)?;
            Ok((Rmsg::Auth { aqid }, rest))
        }
        RKind::Attach => {
            let (qid, rest) = qid_of(bytes)?;
            Ok((Rmsg::Attach { qid }, rest))
        }
        RKind::Error => {
            let (ename, rest) = text_of(alloc, bytes)?;
            Ok((Rmsg::Error { ename }, rest))
        }
        RKind::Flush => Ok((Rmsg::Flush, bytes)),
        RKind::Walk => {
            let (wqid, rest) = qids_of(alloc, bytes)?;
            Ok((Rmsg::Walk { wqid }, rest))
        }
        RKind::Open => {
            let (qid, rest) = qid_of(bytes)?;
            let (iounit, rest) = u32_at(rest)?;
            Ok((Rmsg::Open { qid, iounit }, rest))
        }
        RKind::Create => {
            let (qid, rest) = qid_of(bytes)?;
            let (iounit, rest) = u32_at(rest)?;
            Ok((Rmsg::Create { qid, iounit }, rest))
        }
        RKind::Read => {
            let (piece, rest) = piece_of(alloc, bytes)?;
            Ok((Rmsg::Read { piece }, rest))
        }
        RKind::Write => {
            let (count, rest) = u32_at(bytes)?;
            Ok((Rmsg::Write { count }, rest))
        }
        RKind::Clunk => Ok((Rmsg::Clunk, bytes)),
        RKind::Remove => Ok((Rmsg::Remove, bytes)),
        RKind::Stat => {
            let (stat, rest) = entry_of(alloc, bytes)?;
            Ok((Rmsg::Stat { stat }, rest))
        }
        RKind::Wstat => Ok((Rmsg::Wstat, bytes)),
    }
}
