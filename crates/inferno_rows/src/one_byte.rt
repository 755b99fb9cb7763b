//! A sink that takes one byte at a time.

use inf_ports::{Failed, MemSink, Sink};

/// A sink in memory that takes one byte at a time.
#[derive(Drop)]
pub struct OneByte {
    pub inner: MemSink,
}

impl Sink for OneByte {
    ghost use Rattle.std.specs.Prelude.{Some};

    ghost held = { λ sink. ⟦<MemSink as Sink>⟧.held sink.inner };

    ghost faults = { λ sink. ⟦<MemSink as Sink>⟧.faults sink.inner };

    fn faults(&self) -> u64 {
        self.inner.faults()
    }

    fn write_some(&mut self, piece: &[u8]) -> Result<usize, Failed> {
        let count = piece.len().min(1);
        self.inner.write_some(&piece[..count])
    }
}
