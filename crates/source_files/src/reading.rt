//! The texts that a source includes.

ghost use Rattle.std.specs.Prelude.{◌≡◌, ◌≤◌, IfOk, IfErr};
ghost use Rattle.std.specs.List.{Contains};
ghost use Rattle.limbo_includes.specs.declared.included.Included.{Included};
ghost use Rattle.source_files.specs.Files.{AtPath, AtText, IsRefusal};
ghost use Rattle.source_files.specs.Reading.{IsFirst, IsReachable, IsRead, IsReadOnce, IsReadWhole};

use crate::fault::FilesFault;
use crate::level::read_levels;
use crate::reader::{Reader, named_in, read_all};
use inf_ports::HostTree;
use inf_text::Text;
use limbo_includes::Included;
use limbo_tree::Source;
use std::alloc::Global;
use std::collections::BTreeSet;

/// The texts that a source includes, one in the other, as far as they stand in the tree of files: each once, in the order in which
/// the includes name them, the less deep first. A text to which the most includes lead is read, and what it names is not.
///
/// # Errors
/// `Failed` where a file's read failed; that ends the reading. `Lex` and `Parse` where a text is no included text: the first such
/// text that was read, after all were read, so none that less deep texts name. Want of memory.
pub fn read_included<H: HostTree>(
    alloc: Global,
    path: &Text,
    source: &Source,
    files: &mut H,
) -> Result<Vec<Included>, FilesFault>
    ensures named { IfOk result
        (λ texts.
        (t : Included) → Contains texts.items t
        → IsRead (H.told files.old) (record { path = path.now; source = source.now.tops.items; included = texts.items }) t) }
    ensures whole { IfOk result
        (λ texts. IsReadWhole (H.told files.old) (record { path = path.now; source = source.now.tops.items; included = texts.items })) }
    ensures once { IfOk result (λ texts. IsReadOnce texts.items) }
    ensures refused { IfErr result (λ e. IsRefusal (H.told files.old) (H.faults files.old) (H.faults files.new) e) }
    ensures own { IfErr result (AtPath (IsReachable (H.told files.old) path.now source.now.tops.items)) }
    ensures first { IfErr result (AtText (IsFirst (H.told files.old) path.now source.now.tops.items)) }
    ensures kept { H.told files.new ≡ H.told files.old }
    ensures later { H.faults files.old ≤ H.faults files.new }
{
    let mut reader = Reader {
        texts: Vec::new(alloc),
        depths: Vec::new(alloc),
        asked: BTreeSet::new(alloc),
        refused: None,
    };
    let named = named_in(alloc, path, source.tops.as_slice())?;
    read_all(alloc, named.as_slice(), 1, files, &mut reader)?;
    read_levels(alloc, files, &mut reader)?;
    let Reader {
        texts,
        depths: _,
        asked: _,
        refused,
    } = reader;
    match refused {
        Some(fault) => Err(fault),
        None => Ok(texts),
    }
}
