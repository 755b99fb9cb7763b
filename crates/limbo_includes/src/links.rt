//! The includes of all texts, in one list.

ghost use Rattle.std.specs.Prelude.{◌≡◌, ◌++◌, length, IfOk, OnOk};
ghost use Rattle.limbo_includes.specs.Links.{links_in, links_of};
ghost use Rattle.limbo_includes.specs.View.{given};

use crate::included::Included;
use crate::shelf::Shelf;
use inf_text::{Span, Text};
use limbo_tree::{Source, Top};
use std::alloc::{AllocError, Global};

/// An include, and what it names. The texts are numbered in their order, and the given source has the number behind the last.
#[derive(Clone, Copy)]
pub(crate) struct Link {
    /// The text in which it stands.
    pub(crate) from: usize,
    /// The text that it names, if that is there.
    pub(crate) to: Option<usize>,
    pub(crate) at: Span,
}

// Adds the includes of one text.
fn push_links(
    alloc: Global,
    shelf: &Shelf<'_>,
    from: usize,
    path: &Text,
    tops: &[Top],
    links: &mut Vec<Link>,
) -> Result<(), AllocError>
    ensures { OnOk result (links.new.items ≡ links.old.items ++ links_in shelf.now.texts.now from path.now tops.now) }
{
    for top in tops {
        match top {
            Top::Include { path: name, span } => {
                let to = shelf.place(alloc, path, name)?;
                links.push(Link {
                    from,
                    to,
                    at: *span,
                })?;
            }
            Top::Declare { .. } => {}
            Top::Define { .. } => {}
        }
    }
    Ok(())
}

/// The includes of all texts, and of the given source.
///
/// # Errors
/// Want of memory.
pub(crate) fn all_links(
    alloc: Global,
    shelf: &Shelf<'_>,
    path: &Text,
    source: &Source,
) -> Result<Vec<Link>, AllocError>
    ensures { IfOk result (λ links. links.items ≡ links_of (given path.now source.now shelf.now.texts.now)) }
{
    let mut links = Vec::new(alloc);
    for (number, text) in shelf.texts.iter().enumerate() {
        push_links(
            alloc,
            shelf,
            number,
            &text.path,
            &text.tree.tops,
            &mut links,
        )?;
    }
    push_links(
        alloc,
        shelf,
        shelf.texts.len(),
        path,
        &source.tops,
        &mut links,
    )?;
    Ok(links)
}
