ghost use Rattle.std.specs.Prelude.{◌≡◌, ◌<◌, ◌≤◌, ◌^◌, ◌⊎◌, ℕ, List, length, true, false, IfOk, OnErr};
ghost use Rattle.std.specs.Io.KnownBytes.{Appends, Keeps};
ghost use Rattle.inf_ports.specs.Outside.{Rose};
ghost use Rattle.styx_msg.specs.declared.message.Rmsg.TheVariants.{Error};
ghost use Rattle.console_server.specs.Console.{Answers, Writes, IsSmall, IsShortReply};

use inf_ports::{Sink, write_whole};
use inf_text::Text;
use std::alloc::{AllocError, Global};
use styx_msg::{Rmsg, Tmsg};

/// The fid of the console's file `cons`, opened for writing.
const OUTPUT: u32 = 2;

/// Why a write is refused once the sink has failed.
const IO_ERROR: [char; 9] = ['i', '/', 'o', ' ', 'e', 'r', 'r', 'o', 'r'];

/// Why a request on another file is refused.
const UNKNOWN_FID: [char; 11] = ['u', 'n', 'k', 'n', 'o', 'w', 'n', ' ', 'f', 'i', 'd'];

/// The server of the console's link (Inferno manual, cons): a write to its file `cons` goes to the output's sink whole.
/// From the first fault of the sink on, each use of it is refused. No other request is built yet.
#[derive(Drop, Debug)]
pub struct Console {
    /// Whether its sink has failed.
    failed: bool,
}

/// A refusal with this text.
fn refusal(alloc: Global, text: &[char]) -> Result<Rmsg, AllocError>
    ensures { IfOk result (λ reply. reply ≡ Error text.now) }
{
    let mut ename = Text::new(alloc);
    ename.push_all(text)?;
    Ok(Rmsg::Error { ename })
}

impl Console {
    /// A console whose sink hasn't failed.
    pub fn new() -> Console
        ensures { result.failed ≡ false }
    {
        Console { failed: false }
    }

    /// Writes a piece to the output, whole.
    fn write<K: Sink>(
        &mut self,
        alloc: Global,
        piece: &[u8],
        out: &mut K,
    ) -> Result<Rmsg, AllocError>
        requires { length piece.now < 2 ^ 32 }
        ensures short { IfOk result IsShortReply }
        ensures written { IfOk result (λ reply. (bytes : List ℕ)
            × Writes self.old.failed piece.now reply bytes self.new.failed × Appends (K.held out.old) (K.held out.new) bytes) }
        ensures kept { OnErr result ((self.new ≡ self.old) × Keeps (K.held out.old) (K.held out.new)) }
        ensures failed { self.new.failed ≡ true → (self.old.failed ≡ true) ⊎ Rose (K.faults out.old) (K.faults out.new) }
        ensures later { K.faults out.old ≤ K.faults out.new }
    {
        let refused = refusal(alloc, &IO_ERROR)?;
        if self.failed || write_whole(out, piece).is_err() {
            self.failed = true;
            return Ok(refused);
        }
        Ok(Rmsg::Write {
            count: piece.len() as u32,
        })
    }

    /// Answers a request.
    ///
    /// # Errors
    /// Want of memory. Then nothing has changed.
    pub fn serve<K: Sink>(
        &mut self,
        alloc: Global,
        request: &Tmsg,
        out: &mut K,
    ) -> Result<Rmsg, AllocError>
        requires { IsSmall request.now }
        ensures short { IfOk result IsShortReply }
        ensures answered { IfOk result (λ reply. (bytes : List ℕ)
            × Answers self.old.failed request.now reply bytes self.new.failed × Appends (K.held out.old) (K.held out.new) bytes) }
        ensures kept { OnErr result ((self.new ≡ self.old) × Keeps (K.held out.old) (K.held out.new)) }
        ensures failed { self.new.failed ≡ true → (self.old.failed ≡ true) ⊎ Rose (K.faults out.old) (K.faults out.new) }
        ensures later { K.faults out.old ≤ K.faults out.new }
    {
        match request {
            Tmsg::Write {
                fid: OUTPUT,
                piece,
                ..
            } => self.write(alloc, piece.as_slice(), out),
            _ => refusal(alloc, &UNKNOWN_FID),
        }
    }
}
