//! The texts of one depth after the other.

ghost use Rattle.std.specs.Prelude.{◌≡◌, ◌<◌, ◌≤◌, length, IfOk, IfErr, OnOk};
ghost use Rattle.source_files.specs.Files.{AtPath, AtText, IsRefusal};
ghost use Rattle.source_files.specs.Reading.{IsNamedBy};
ghost use Rattle.source_files.specs.Levels.{ReadsFrom, Raises, RaisesTo, ReadsAll, ReadsTo};

use crate::fault::FilesFault;
use crate::reader::{Reader, named_in, read_all};
use inf_ports::HostTree;
use std::alloc::Global;

/// How deep includes may nest.
pub(crate) const MOST: u32 = 16;

// Reads the texts that the text with this number names, to each of which so many includes lead.
fn read_from<H: HostTree>(
    alloc: Global,
    index: usize,
    depth: u32,
    files: &mut H,
    reader: &mut Reader,
) -> Result<(), FilesFault>
    requires { index < length reader.old.texts.items }
    ensures reads { OnOk result (ReadsFrom (H.told files.old) index depth reader.old reader.new) }
    ensures refused { IfErr result (λ e. IsRefusal (H.told files.old) (H.faults files.old) (H.faults files.new) e) }
    ensures own { IfErr result (AtPath (λ p. IsNamedBy reader.old index p)) }
    ensures ends { IfErr result (AtText (λ p. ⊥)) }
    ensures kept { H.told files.new ≡ H.told files.old }
    ensures later { H.faults files.old ≤ H.faults files.new }
{
    let text = &reader.texts[index];
    let named = named_in(alloc, &text.path, text.tree.tops.as_slice())?;
    read_all(alloc, named.as_slice(), depth, files, reader)
}

// Reads what the texts from a number on name, to each of which so many includes lead; gives the number of the first of these.
fn read_level<H: HostTree>(
    alloc: Global,
    begin: usize,
    depth: u32,
    files: &mut H,
    reader: &mut Reader,
) -> Result<usize, FilesFault>
    ensures raises { IfOk result (λ end. Raises (H.told files.old) begin end depth reader.old reader.new) }
    ensures refused { IfErr result (λ e. IsRefusal (H.told files.old) (H.faults files.old) (H.faults files.new) e) }
    ensures own { IfErr result (RaisesTo (H.told files.old) begin depth reader.old) }
    ensures ends { IfErr result (AtText (λ p. ⊥)) }
    ensures kept { H.told files.new ≡ H.told files.old }
    ensures later { H.faults files.old ≤ H.faults files.new }
{
    let end = reader.texts.len();
    for index in begin..end {
        read_from(alloc, index, depth, files, reader)?;
    }
    Ok(end)
}

/// Reads what the texts name to which one include leads, what those name, and so on, up to the deepest.
///
/// # Errors
/// `Failed` where a read failed; want of memory.
pub(crate) fn read_levels<H: HostTree>(
    alloc: Global,
    files: &mut H,
    reader: &mut Reader,
) -> Result<(), FilesFault>
    ensures reads { OnOk result (ReadsAll (H.told files.old) MOST reader.old reader.new) }
    ensures refused { IfErr result (λ e. IsRefusal (H.told files.old) (H.faults files.old) (H.faults files.new) e) }
    ensures own { IfErr result (ReadsTo (H.told files.old) reader.old) }
    ensures ends { IfErr result (AtText (λ p. ⊥)) }
    ensures kept { H.told files.new ≡ H.told files.old }
    ensures later { H.faults files.old ≤ H.faults files.new }
{
    let mut begin = 0;
    for depth in 1..MOST {
        begin = read_level(alloc, begin, depth + 1, files, reader)?;
    }
    Ok(())
}
