//! Replies, as bytes.

ghost use Rattle.std.specs.Prelude.{◌≡◌, IfOk, IfSome};
ghost use Rattle.std.specs.Option.{option_map};
ghost use Rattle.dis_machine.specs.Journal.{reply_in, tagged};
ghost use Rattle.dis_machine.specs.Running.{MeansReply};

use crate::doing::Doing;
use crate::state::Running;
use std::alloc::{AllocError, Global};
use styx_decoding::decode_r;
use styx_msg::{Decoded, Rmsg, StyxFault};

/// The console's link.
const CONSOLE: u32 = 1;

/// Why a reply wasn't taken.
#[derive(Drop, Debug)]
pub enum ReplyFault {
    /// Want of memory.
    NoMemory,
    /// No process waits for it. It comes back.
    Refused { frame: Vec<u8> },
}

/// The reply that the bytes are, all of them, with its tag, or `None` where they are none.
fn decode(alloc: Global, frame: &[u8]) -> Result<Option<(u16, Rmsg)>, AllocError>
    ensures { IfOk result (λ o. reply_in frame.now ≡ option_map tagged o) }
{
    match decode_r(alloc, frame) {
        Ok(Decoded::Whole { tag, message, used }) => {
            if used == frame.len() {
                Ok(Some((tag, message)))
            } else {
                Ok(None)
            }
        }
        Ok(Decoded::Short) => Ok(None),
        Err(fault) => {
            if fault == StyxFault::NoMemory {
                Err(AllocError)
            } else {
                Ok(None)
            }
        }
    }
}

impl Running {
    /// The reply that came on a link, if the process waits for it.
    pub(crate) fn reply_on(
        &self,
        alloc: Global,
        link: u32,
        frame: &[u8],
    ) -> Result<Option<Rmsg>, AllocError>
        ensures means { IfOk result (λ o. MeansReply self.now link frame.now o) }
        ensures asking { IfOk result (λ o. IfSome o (λ a. self.now.doing ≡ Doing.Asking)) }
    {
        if link != CONSOLE || self.doing != Doing::Asking {
            return Ok(None);
        }
        let Some(asking) = &self.process.printing else {
            return Ok(None);
        };
        match decode(alloc, frame)? {
            Some((tag, reply)) => {
                if u64::from(tag) == asking.writing.tag {
                    Ok(Some(reply))
                } else {
                    Ok(None)
                }
            }
            None => Ok(None),
        }
    }
}
