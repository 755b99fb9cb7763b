//! The row of all declarations: each text is laid out where it is included first.

ghost use Rattle.std.specs.Prelude.{◌≡◌, ℕ, ◌+◌, ◌∷◌, [], ◌++◌, List, length, false, slice_set, IfErr, OnErr, OnOk};
ghost use Rattle.limbo_tree.specs.declared.source.Top.TheVariants.{Include};
ghost use Rattle.limbo_includes.specs.declared.included.Included.{Included};
ghost use Rattle.limbo_includes.specs.declared.fault.IncludeFault.TheVariants.{NoMemory};
ghost use Rattle.limbo_includes.specs.Includes.{is_include};
ghost use Rattle.limbo_includes.specs.Laying.{Lays, Blames, BlamesAt, mark_of};

use crate::fault::IncludeFault;
use crate::included::Standing;
use crate::nesting::MOST;
use crate::shelf::Shelf;
use inf_text::{Span, Text};
use limbo_tree::Top;
use std::alloc::Global;

/// How a text stands in the row.
#[derive(Clone, Copy)]
pub(crate) enum Seen {
    NotYet,
    /// It was laid out, and flattens to nothing.
    Empty,
    /// It was laid out, and declares something.
    Full,
}

/// The declarations so far, and how each text stands among them.
#[derive(Drop)]
pub(crate) struct Row<'a> {
    pub(crate) out: Vec<Standing<'a>>,
    pub(crate) seen: Vec<Seen>,
}

// Adds a declaration.
fn stand<'a>(path: &'a Text, top: &'a Top, row: &mut Row<'a>) -> Result<(), IncludeFault>
    requires { is_include top.now ≡ false }
    ensures laid { OnOk result ((included : List Included) → Lays included path.now (top.now ∷ []) row.old row.new) }
    ensures refused { IfErr result (λ e. e ≡ NoMemory) }
{
    row.out.push(Standing { path, top })?;
    Ok(())
}

// Notes how a text stands in the row, where so many declarations stood before it.
fn note(row: &mut Row<'_>, place: usize, before: usize)
    ensures out { row.new.out.items ≡ row.old.out.items }
    ensures seen { row.new.seen.items ≡ slice_set row.old.seen.items place (mark_of before (length row.old.out.items)) }
{
    let mark = if row.out.len() == before {
        Seen::Empty
    } else {
        Seen::Full
    };
    if let Some(seen) = row.seen.get_mut(place) {
        *seen = mark;
    }
}

/// Lays out what stands in a text that so many includes lead to.
///
/// # Errors
/// Want of memory, and the refusals of `IncludeFault`, at the first place in the order of the row.
#[cycle(laying)]
pub(crate) fn put_all<'a>(
    alloc: Global,
    shelf: &Shelf<'a>,
    path: &'a Text,
    tops: &'a [Top],
    depth: u32,
    row: &mut Row<'a>,
) -> Result<(), IncludeFault>
    ensures laid { OnOk result (Lays shelf.now.texts.now path.now tops.now row.old row.new) }
    ensures refused { IfErr result (λ e. Blames shelf.now.texts.now depth path.now tops.now tops.now row.old e) }
{
    for top in tops {
        put(alloc, shelf, path, top, depth, row)?;
    }
    Ok(())
}

// Lays out one declaration, or the text that an include names.
#[cycle(laying)]
fn put<'a>(
    alloc: Global,
    shelf: &Shelf<'a>,
    path: &'a Text,
    top: &'a Top,
    depth: u32,
    row: &mut Row<'a>,
) -> Result<(), IncludeFault>
    ensures laid { OnOk result (Lays shelf.now.texts.now path.now (top.now ∷ []) row.old row.new) }
    ensures refused { IfErr result (λ e. BlamesAt shelf.now.texts.now depth path.now top.now row.old e) }
{
    match top {
        Top::Include { path: name, span } => put_text(alloc, shelf, path, name, *span, depth, row),
        Top::Declare { .. } => stand(path, top, row),
        Top::Define { .. } => stand(path, top, row),
    }
}

// Lays out the text that an include names.
#[cycle(laying)]
fn put_text<'a>(
    alloc: Global,
    shelf: &Shelf<'a>,
    path: &'a Text,
    name: &'a Text,
    at: Span,
    depth: u32,
    row: &mut Row<'a>,
) -> Result<(), IncludeFault>
    ensures laid { OnOk result (Lays shelf.now.texts.now path.now (Include name.now at ∷ []) row.old row.new) }
    ensures refused { IfErr result (λ e. BlamesAt shelf.now.texts.now depth path.now (Include name.now at) row.old e) }
{
    if depth >= MOST {
        return Err(IncludeFault::TooDeep);
    }
    let Some(place) = shelf.place(alloc, path, name)? else {
        return Err(IncludeFault::NoInclude {
            path: path.clone()?,
            at,
        });
    };
    let text = &shelf.texts[place];
    match row.seen.get(place).copied().unwrap_or(Seen::NotYet) {
        Seen::Empty => Ok(()),
        Seen::Full => Err(IncludeFault::Twice {
            path: path.clone()?,
            at,
        }),
        Seen::NotYet => {
            let before = row.out.len();
            put_all(alloc, shelf, &text.path, &text.tree.tops, depth + 1, row)?;
            note(row, place, before);
            Ok(())
        }
    }
}
