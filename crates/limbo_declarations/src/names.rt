ghost use Rattle.std.specs.Prelude.{◌≡◌, ◌<◌, ℕ, length, Some, IfOk, IfErr, IfSome, IfNone};
ghost use Rattle.std.specs.List.{Contains};
ghost use Rattle.limbo_declarations.specs.Rows as told;
ghost use Rattle.limbo_declarations.specs.View.{rows_of, view_row};
ghost use Rattle.std.specs.Ordering.{nat_cmp};
ghost use Rattle.std.specs.Cmp.Lexicographic.{slice_cmp};
ghost use Rattle.std.specs.BTreeMap.{get_by};
ghost use Rattle.limbo_declarations.specs.Names.{names, IsAt, AreOnce, IsRepeated, IsAgain, IsIndex};
ghost use Rattle.limbo_declarations.specs.declared.row.Row as code_row;
ghost use Rattle.limbo_declarations.specs.declared.names.NamesFault.TheVariants.{Twice};
ghost use Rattle.limbo_declarations.specs.declared.names.RowsFault.TheVariants as rows_fault;

use crate::row::Row;
use inf_text::Text;
use std::alloc::{AllocError, AllocFailed, Global};
use std::collections::BTreeMap;

/// Why names have no index.
#[derive(Clone, Copy, PartialEq, Eq, Debug)]
pub enum NamesFault {
    /// Want of memory.
    NoMemory,
    /// The name that stands there stands before it too.
    Twice { row: usize },
}

impl From<AllocError> for NamesFault {
    ghost use Rattle.std.specs.Prelude.{◌≡◌};
    ghost use Rattle.limbo_declarations.specs.declared.names.NamesFault.TheVariants.{NoMemory};

    ghost from_gives = { λ _ e. e ≡ NoMemory };

    fn from(_error: AllocError) -> NamesFault {
        NamesFault::NoMemory
    }
}

impl<T: Drop> From<AllocFailed<T>> for NamesFault {
    ghost use Rattle.std.specs.Prelude.{◌≡◌};
    ghost use Rattle.limbo_declarations.specs.declared.names.NamesFault.TheVariants.{NoMemory};

    ghost from_gives = { λ _ e. e ≡ NoMemory };

    fn from(_error: AllocFailed<T>) -> NamesFault {
        NamesFault::NoMemory
    }
}

/// The names of a scope, each declared once.
#[derive(Drop)]
pub struct Names<'a> {
    /// The rows, as they stand in the source.
    pub rows: Vec<Row<'a>>,
    // Of each name the number of its row.
    index: BTreeMap<Text, usize>,
    ghost found: { IsIndex index (names rows.items) },
}

/// Where a name stands, by an index.
pub fn look_up(index: &BTreeMap<Text, usize>, name: &Text) -> Option<usize>
    ensures { result ≡ get_by (slice_cmp nat_cmp name.now) index.now }
{
    index.get(name).copied()
}

/// Where each of some names stands.
///
/// # Errors
/// Want of memory. `Twice` exactly where a name stands at two places: a place whose name stands before it.
pub fn index(alloc: Global, all: &[Text]) -> Result<BTreeMap<Text, usize>, NamesFault>
    ensures index { IfOk result (λ index. IsIndex index all.now) }
    ensures once { IfOk result (λ _. AreOnce all.now) }
    ensures within { IfErr result (λ e. (k : ℕ) → e ≡ Twice k → k < length all.now) }
    ensures twice { IfErr result (λ e. (k : ℕ) → e ≡ Twice k → IsRepeated all.now k) }
{
    let mut index = BTreeMap::new(alloc);
    for (number, name) in all.iter().enumerate() {
        if let Some(_before) = look_up(&index, name) {
            return Err(NamesFault::Twice { row: number });
        }
        index.insert(name.clone()?, number)?;
    }
    Ok(index)
}

// The names that rows declare.
fn texts(alloc: Global, rows: &[Row]) -> Result<Vec<Text>, AllocError>
    ensures { IfOk result (λ texts. texts.items ≡ names rows.now) }
{
    let mut texts = Vec::with_capacity(alloc, rows.len())?;
    for row in rows {
        texts.push(row.name.text.clone()?)?;
    }
    Ok(texts)
}

/// Why rows aren't those of one scope.
#[derive(Clone, Copy)]
pub enum RowsFault<'a> {
    /// Want of memory.
    NoMemory,
    /// Refusal 41: the name of this row is declared by a row before it.
    Twice { row: Row<'a> },
}

impl<'a> From<AllocError> for RowsFault<'a> {
    ghost use Rattle.std.specs.Prelude.{◌≡◌};
    ghost use Rattle.limbo_declarations.specs.declared.names.RowsFault.TheVariants.{NoMemory};

    ghost from_gives = { λ _ e. e ≡ NoMemory };

    fn from(_error: AllocError) -> RowsFault<'a> {
        RowsFault::NoMemory
    }
}

impl<'a> Names<'a> {
    /// The names of these rows.
    ///
    /// # Errors
    /// Want of memory. `Twice` exactly where a name is declared by two rows: a row whose name one before it declares.
    pub fn new(alloc: Global, rows: Vec<Row<'a>>) -> Result<Names<'a>, RowsFault<'a>>
        ensures rows { IfOk result (λ n. n.rows ≡ rows.entry) }
        ensures once { IfOk result (λ _. AreOnce (names rows.entry.items)) }
        ensures stands { IfErr result (λ e. (r : code_row.Row) → e ≡ rows_fault.Twice r → Contains rows.entry.items r) }
        ensures twice { IfErr result (λ e. (r : code_row.Row) → e ≡ rows_fault.Twice r → AreOnce (names rows.entry.items) → ⊥) }
        ensures again { IfErr result (λ e. (r : code_row.Row) → e ≡ rows_fault.Twice r → IsAgain rows.entry.items r) }
    {
        let texts = texts(alloc, &rows)?;
        match index(alloc, &texts) {
            Ok(index) => Ok(Names { rows, index }),
            Err(NamesFault::NoMemory) => Err(RowsFault::NoMemory),
            Err(NamesFault::Twice { row }) => Err(RowsFault::Twice { row: rows[row] }),
        }
    }

    /// The number of the row that declares a name.
    pub fn find(&self, name: &Text) -> Option<usize>
        ensures found { IfSome result (λ k. IsAt (names self.now.rows.items) k name.now) }
        ensures within { IfSome result (λ k. k < length self.now.rows.items) }
        ensures absent { IfNone result ((k : ℕ) → IsAt (names self.now.rows.items) k name.now → ⊥) }
    {
        look_up(&self.index, name)
    }

    /// The row that declares a name.
    pub fn row(&self, name: &Text) -> Option<Row<'a>>
        ensures found { IfSome result (λ r. Contains (rows_of self.now.rows.items) (view_row r) × (r.name.now.text ≡ name.now)) }
        ensures only { IfSome result (λ r. (s : told.Row) → Contains (rows_of self.now.rows.items) s → s.name ≡ name.now → s ≡ view_row r) }
        ensures absent { IfNone result ((s : told.Row) → Contains (rows_of self.now.rows.items) s → s.name ≡ name.now → ⊥) }
    {
        match self.find(name) {
            Some(number) => Some(self.rows[number]),
            None => None,
        }
    }
}
