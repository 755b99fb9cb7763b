ghost use Rattle.std.specs.Prelude.{◌≡◌, ◌<◌, ◌≤◌, ℕ, List, Option, length, take, IfOk, OnOk, OnErr};
ghost use Rattle.std.specs.Io.KnownBytes.{Appends, Keeps};
ghost use Rattle.inf_ports.specs.Outside.{Rose, AppendsPart};

/// A call failed, and the object's count of faults rose.
#[derive(Clone, Copy, PartialEq, Eq, Debug)]
pub struct Failed;

/// A place that takes bytes, one after the other.
pub trait Sink {
    /// The bytes that were taken so far, where the sink tells them.
    ghost held: { Self → Option (List ℕ) };

    /// How many calls have failed.
    ghost faults: { Self → ℕ };

    /// How many calls have failed. The count never falls, and stays at `u64::MAX` once it is there.
    fn faults(&self) -> u64
        ensures { result ≡ faults self.now };

    /// Takes a first part of the piece, and answers its length: at least 1, unless the piece is empty.
    ///
    /// # Errors
    /// `Failed`: nothing was taken, and the count rose.
    fn write_some(&mut self, piece: &[u8]) -> Result<usize, Failed>
        ensures within { IfOk result (λ n. n ≤ length piece.now) }
        ensures progress { IfOk result (λ n. 0 < length piece.now → 0 < n) }
        ensures taken { IfOk result (λ n. Appends (held self.old) (held self.new) (take n piece.now)) }
        ensures kept { OnErr result (Keeps (held self.old) (held self.new)) }
        ensures failed { OnErr result (Rose (faults self.old) (faults self.new)) }
        ensures later { faults self.old ≤ faults self.new };
}

/// Writes all the bytes, piece after piece. It takes no memory.
///
/// # Errors
/// `Failed` where a call of the sink failed: then a first part of the bytes was taken.
pub fn write_whole<K: Sink>(sink: &mut K, bytes: &[u8]) -> Result<(), Failed>
    ensures taken { OnOk result (Appends (K.held sink.old) (K.held sink.new) bytes.now) }
    ensures part { OnErr result (AppendsPart (K.held sink.old) (K.held sink.new) bytes.now) }
    ensures failed { OnErr result (Rose (K.faults sink.old) (K.faults sink.new)) }
    ensures later { K.faults sink.old ≤ K.faults sink.new }
{
    let mut taken = 0;
    while taken < bytes.len() {
        taken += sink.write_some(&bytes[taken..])?;
    }
    Ok(())
}
