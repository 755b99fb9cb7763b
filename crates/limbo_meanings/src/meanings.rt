//! What the name of each declaration means.

ghost use Rattle.std.specs.Prelude.{◌≡◌, ◌<◌, ◌+◌, ◌^◌, ◌++◌, ◌∷◌, [], ℕ, List, length, slice_index, slice_set, IfOk};
ghost use Rattle.limbo_entries.specs.Entries as entries;
ghost use Rattle.limbo_entries.specs.View.{entries_of, view_entry};
ghost use Rattle.limbo_meanings.specs.Kinds as kinds;
ghost use Rattle.limbo_meanings.specs.Meanings.{meaning_after, AreMeanings, AreCounts};

use crate::kind::Kind;
use crate::kinds::kind_of;
use limbo_entries::{Entry, Table};
use limbo_scope::Meaning;
use std::alloc::{AllocError, Global};

// The number of the next declaration of a kind, where those of each kind were counted.
fn next(counts: &mut [u32], kind: Kind) -> u32
    requires each { length counts.old ≡ 8 }
    requires room { slice_index counts.old (kinds.place kind) + 1 < 2 ^ 32 }
    ensures number { result ≡ slice_index counts.old (kinds.place kind) }
    ensures counted { counts.new ≡ slice_set counts.old (kinds.place kind) (slice_index counts.old (kinds.place kind) + 1) }
{
    let place = kind.place();
    let number = counts[place];
    counts[place] = number + 1;
    number
}

// What the name of a declaration means that stands behind those that were counted.
fn next_meaning(
    table: &Table,
    implemented: u32,
    counts: &mut [u32],
    entry: Entry,
) -> Option<Meaning>
    requires each { length counts.old ≡ 8 }
    requires room { (p : ℕ) → slice_index counts.old p + 1 < 2 ^ 32 }
    ensures meaning { (before : List entries.Entry) → AreCounts (entries_of table.now.entries.items) implemented before counts.old
        → result ≡ meaning_after (entries_of table.now.entries.items) implemented before (view_entry entry.entry) }
    ensures counted { (before : List entries.Entry) → AreCounts (entries_of table.now.entries.items) implemented before counts.old
        → AreCounts (entries_of table.now.entries.items) implemented (before ++ view_entry entry.entry ∷ []) counts.new }
{
    match kind_of(table, implemented, entry) {
        None => None,
        Some(kind) => Some(kind.numbered(next(counts, kind))),
    }
}

/// What the name of each declaration means, if the implemented module has this number.
///
/// # Errors
/// Want of memory.
pub fn find_meanings(
    alloc: Global,
    table: &Table,
    implemented: u32,
) -> Result<Vec<Option<Meaning>>, AllocError>
    ensures many { IfOk result (λ all. length all.items ≡ length table.now.entries.items) }
    ensures meanings { IfOk result (λ all. AreMeanings (entries_of table.now.entries.items) implemented all.items) }
{
    let mut counts = [0; 8];
    let mut all = Vec::with_capacity(alloc, table.entries.len())?;
    for entry in &table.entries {
        all.push(next_meaning(table, implemented, &mut counts, *entry))?;
    }
    Ok(all)
}
