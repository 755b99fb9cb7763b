//! What was read so far.

ghost use Rattle.std.specs.Prelude.{◌≡◌, ◌≤◌, ◌++◌, ◌∷◌, [], IfOk, IfErr, OnOk, IfSome};
ghost use Rattle.std.specs.List.{Contains};
ghost use Rattle.inf_ports.specs.Outside.{Told};
ghost use Rattle.source_files.specs.Files.{AtPath, AtText, IsRefusal};
ghost use Rattle.source_files.specs.Reading.{targets, Asks, AsksAll, Adds, Keeps, Marks};

use crate::fault::FilesFault;
use crate::tree::tree_at;
use inf_ports::HostTree;
use inf_text::Text;
use limbo_includes::{Included, target};
use limbo_tree::{Source, Top};
use std::alloc::{AllocError, Global};
use std::collections::BTreeSet;

/// The texts that were read, in order, and how many includes lead to each; all paths that were asked for; the first refusal.
#[derive(Drop)]
pub(crate) struct Reader {
    pub(crate) texts: Vec<Included>,
    pub(crate) depths: Vec<u32>,
    pub(crate) asked: BTreeSet<Text>,
    pub(crate) refused: Option<FilesFault>,
}

/// The paths that the includes of a text name, in order.
///
/// # Errors
/// Want of memory.
pub(crate) fn named_in(alloc: Global, path: &Text, tops: &[Top]) -> Result<Vec<Text>, AllocError>
    ensures { IfOk result (λ named. named.items ≡ targets path.now tops.now) }
{
    let mut named = Vec::new(alloc);
    for top in tops {
        match top {
            Top::Include { path: name, .. } => named.push(target(alloc, path, name)?)?,
            Top::Declare { .. } => {}
            Top::Define { .. } => {}
        }
    }
    Ok(named)
}

// Keeps a text.
fn keep(reader: &mut Reader, path: Text, tree: Source, depth: u32) -> Result<(), FilesFault>
    ensures added { OnOk result (Adds (record { path = path; tree = tree }) depth reader.old reader.new) }
    ensures refused { IfErr result (λ e. e ≡ FilesFault.NoMemory) }
{
    reader.texts.push(Included { path, tree })?;
    reader.depths.push(depth)?;
    Ok(())
}

// Keeps the first refusal of a text; any other ends the reading.
fn refuse(reader: &mut Reader, fault: FilesFault) -> Result<(), FilesFault>
    ensures kept { OnOk result (Keeps fault reader.old reader.new) }
    ensures refused { IfErr result (λ e. e ≡ fault) }
    ensures ends { IfErr result (AtText (λ p. ⊥)) }
{
    match fault {
        FilesFault::NoMemory => return Err(fault),
        FilesFault::Failed { .. } => return Err(fault),
        FilesFault::Lex { .. } => {}
        FilesFault::Parse { .. } => {}
    }
    if reader.refused.is_none() {
        reader.refused = Some(fault);
    }
    Ok(())
}

// Notes that a path is asked for, and tells whether it is new.
fn ask(reader: &mut Reader, path: Text) -> Result<bool, FilesFault>
    ensures marked { IfOk result (λ fresh. Marks path fresh reader.old reader.new) }
    ensures refused { IfErr result (λ e. e ≡ FilesFault.NoMemory) }
{
    Ok(reader.asked.insert(path)?)
}

// Reads the text at a path, to which so many includes lead, if it wasn't asked for before.
fn read_one<H: HostTree>(
    alloc: Global,
    path: &Text,
    depth: u32,
    files: &mut H,
    reader: &mut Reader,
) -> Result<(), FilesFault>
    ensures asks { OnOk result (Asks (H.told files.old) path.now depth reader.old reader.new) }
    ensures refused { IfErr result (λ e. IsRefusal (H.told files.old) (H.faults files.old) (H.faults files.new) e) }
    ensures own { IfErr result (AtPath (λ p. p ≡ path.now)) }
    ensures ends { IfErr result (AtText (λ p. ⊥)) }
    ensures kept { H.told files.new ≡ H.told files.old }
    ensures later { H.faults files.old ≤ H.faults files.new }
{
    if !ask(reader, path.clone()?)? {
        return Ok(());
    }
    match tree_at(alloc, path, files) {
        Ok(Some(tree)) => keep(reader, path.clone()?, tree, depth),
        Ok(None) => Ok(()),
        Err(fault) => refuse(reader, fault),
    }
}

// Reads the texts at these paths, to each of which so many includes lead, as far as they weren't asked for before.
pub(crate) fn read_all<H: HostTree>(
    alloc: Global,
    named: &[Text],
    depth: u32,
    files: &mut H,
    reader: &mut Reader,
) -> Result<(), FilesFault>
    ensures asks { OnOk result (AsksAll (H.told files.old) named.now depth reader.old reader.new) }
    ensures refused { IfErr result (λ e. IsRefusal (H.told files.old) (H.faults files.old) (H.faults files.new) e) }
    ensures own { IfErr result (AtPath (λ p. Contains named.now p)) }
    ensures ends { IfErr result (AtText (λ p. ⊥)) }
    ensures kept { H.told files.new ≡ H.told files.old }
    ensures later { H.faults files.old ≤ H.faults files.new }
{
    for path in named {
        read_one(alloc, path, depth, files, reader)?;
    }
    Ok(())
}
