ghost use Rattle.std.specs.Prelude.{◌≡◌, ◌<◌, ◌≤◌, length, take, IfSome, IfNone};
ghost use Rattle.std.specs.Io.KnownBytes.{Appends};
ghost use Rattle.inf_ports.specs.Outside.{AppendsPart};

use crate::sink::{Failed, Sink};
use std::io::{ErrorKind, Write};

/// How often a write that a signal interrupts is tried.
const TRIES: u32 = 1_000;

/// A writer of the standard library as a sink. It tells no content.
#[derive(Drop)]
pub struct StdSink<W> {
    writer: W,
    faults: u64,
}

impl<W: Write> StdSink<W> {
    /// A sink over this writer, with no fault yet.
    pub fn new(writer: W) -> StdSink<W>
        ensures unused { result.faults ≡ 0 }
        ensures over { result.writer ≡ writer }
    {
        StdSink { writer, faults: 0 }
    }
}

/// Hands a piece that isn't empty to a writer, past the writer's own buffer. None is a failure.
fn pass_on<W: Write>(writer: &mut W, piece: &[u8]) -> Option<usize>
    ensures within { IfSome result (λ n. n ≤ length piece.now) }
    ensures progress { IfSome result (λ n. 0 < n) }
    ensures taken { IfSome result (λ n.
        Appends (W.contents writer.old) (W.contents writer.new) (take n piece.now)) }
    ensures part { IfNone result (AppendsPart (W.contents writer.old) (W.contents writer.new) piece.now) }
{
    for _ in 0..TRIES {
        match writer.write(piece) {
            Ok(0) => return None,
            Ok(count) => {
                writer.flush().ok()?;
                return Some(count);
            }
            Err(error) => {
                if error.kind() != ErrorKind::Interrupted {
                    return None;
                }
            }
        }
    }
    None
}

impl<W: Write> Sink for StdSink<W> {
    ghost use Rattle.std.specs.Prelude.{None, IfOk, OnOk, OnErr};
    ghost use Rattle.inf_ports.specs.Outside.{Rose};

    ghost held = { λ _. None };

    ghost faults = { λ sink. sink.faults };

    fn faults(&self) -> u64 {
        self.faults
    }

    // The trait's clauses, and what the writer got, where the writer tells it.
    fn write_some(&mut self, piece: &[u8]) -> Result<usize, Failed>
        ensures within { IfOk result (λ n. n ≤ length piece.now) }
        ensures progress { IfOk result (λ n. 0 < length piece.now → 0 < n) }
        ensures taken { IfOk result (λ n.
            Appends (W.contents self.old.writer) (W.contents self.new.writer) (take n piece.now)) }
        ensures part { OnErr result
            (AppendsPart (W.contents self.old.writer) (W.contents self.new.writer) piece.now) }
        ensures failed { OnErr result (Rose self.old.faults self.new.faults) }
        ensures quiet { OnOk result (self.new.faults ≡ self.old.faults) }
        ensures later { self.old.faults ≤ self.new.faults }
    {
        if piece.is_empty() {
            return Ok(0);
        }
        match pass_on(&mut self.writer, piece) {
            Some(count) => Ok(count),
            None => {
                self.faults = self.faults.saturating_add(1);
                Err(Failed)
            }
        }
    }
}
