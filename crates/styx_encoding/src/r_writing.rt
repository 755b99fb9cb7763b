ghost use Rattle.std.specs.Prelude.{◌≡◌, OnOk};
ghost use Rattle.std.specs.List.{AllByRecursion};
ghost use Rattle.styx_msg.specs.declared.fault.StyxFault.TheVariants.{TooLong};
ghost use Rattle.styx_msg.specs.Styx.{IsField, r_row};
ghost use Rattle.styx_encoding.specs.Writing.{put_all};
ghost use Rattle.styx_msg.specs.Answers.{Gives};

use crate::writing::{add_entry, add_piece, add_qid, add_qids, add_text, add_u32};
use styx_msg::{Rmsg, StyxFault};

/// The number of the reply's type.
pub fn r_type(message: &Rmsg) -> u8
    ensures { result ≡ (r_row message.now).type }
{
    match message {
        Rmsg::Version { .. } => 101,
        Rmsg::Auth { .. } => 103,
        Rmsg::Attach { .. } => 105,
        Rmsg::Error { .. } => 107,
        Rmsg::Flush => 109,
        Rmsg::Walk { .. } => 111,
        Rmsg::Open { .. } => 113,
        Rmsg::Create { .. } => 115,
        Rmsg::Read { .. } => 117,
        Rmsg::Write { .. } => 119,
        Rmsg::Clunk => 121,
        Rmsg::Remove => 123,
        Rmsg::Stat { .. } => 125,
        Rmsg::Wstat => 127,
    }
}

/// Adds the reply's body.
pub fn add_r_body(out: &mut Vec<u8>, message: &Rmsg) -> Result<(), StyxFault>
    ensures added { Gives TooLong (λ _. out.new.items) result (put_all out.old.items (r_row message.now).fields) }
    ensures fits { OnOk result (AllByRecursion IsField (r_row message.now).fields) }
{
    match message {
        Rmsg::Version { msize, version } => {
            add_u32(out, *msize)?;
            add_text(out, version)
        }
        Rmsg::Auth { aqid: qid } | Rmsg::Attach { qid } => Ok(add_qid(out, qid)?),
        Rmsg::Error { ename } => add_text(out, ename),
        Rmsg::Walk { wqid } => add_qids(out, wqid.as_slice()),
        Rmsg::Open { qid, iounit } => {
            add_qid(out, qid)?;
            Ok(add_u32(out, *iounit)?)
        }
        Rmsg::Create { qid, iounit } => {
            add_qid(out, qid)?;
            Ok(add_u32(out, *iounit)?)
        }
        Rmsg::Read { piece } => add_piece(out, piece.as_slice()),
        Rmsg::Write { count } => Ok(add_u32(out, *count)?),
        Rmsg::Stat { stat } => add_entry(out, stat),
        Rmsg::Flush | Rmsg::Clunk | Rmsg::Remove | Rmsg::Wstat => Ok(()),
    }
}
