//! How deep includes nest, and which of them name no text: each level of includes is followed from the one above it.

ghost use Rattle.std.specs.Prelude.{◌≡◌, ◌≢◌, ℕ, ◌<◌, true, false, length, slice_get, IfOk, IfErr, IfSome, IfNone, OnOk};
ghost use Rattle.std.specs.List.{All, Contains};
ghost use Rattle.limbo_includes.specs.declared.links.Link.{Link};
ghost use Rattle.limbo_includes.specs.declared.fault.IncludeFault.TheVariants.{NoInclude};
ghost use Rattle.limbo_includes.specs.Links.{Page, pages, is_marked, IsNamed, IsLevel};
ghost use Rattle.limbo_includes.specs.Includes.{Given, IsWhole};
ghost use Rattle.limbo_includes.specs.Refusals.{Says, IsRefusalAt};
ghost use Rattle.limbo_includes.specs.View.{given};

use crate::fault::IncludeFault;
use crate::links::{Link, all_links};
use crate::shelf::Shelf;
use inf_text::Text;
use limbo_tree::Source;
use std::alloc::{AllocError, Global};

/// How deep includes may nest.
pub(crate) const MOST: u32 = 16;

// Whether the text is marked in which an include stands.
fn begins_in(link: &Link, marks: &[bool]) -> bool
    ensures { result ≡ is_marked marks.now link.now.from }
{
    marks.get(link.from).copied().unwrap_or(false)
}

// The text that an include of a marked text names.
fn named_by(link: &Link, marks: &[bool]) -> Option<usize>
    ensures some { IfSome result (λ n. (link.now.to ≡ Some n) × (is_marked marks.now link.now.from ≡ true)) }
    ensures none { IfNone result ((n : ℕ) → link.now.to ≡ Some n → is_marked marks.now link.now.from ≡ false) }
{
    if begins_in(link, marks) {
        link.to
    } else {
        None
    }
}

// Whether an include stands in a marked text.
fn goes_on(links: &[Link], marks: &[bool]) -> bool
    ensures yes { result ≡ true → (l : Link) × Contains links.now l × (is_marked marks.now l.from ≡ true) }
    ensures no { result ≡ false → (l : Link) → Contains links.now l → is_marked marks.now l.from ≡ false }
{
    for link in links {
        if begins_in(link, marks) {
            return true;
        }
    }
    false
}

// The first include of a marked text that names no text.
fn first_lost(links: &[Link], marks: &[bool]) -> Option<Link>
    ensures some { IfSome result (λ l. Contains links.now l × (is_marked marks.now l.from ≡ true) × (l.to ≡ None)) }
    ensures none { IfNone result ((l : Link) → Contains links.now l → is_marked marks.now l.from ≡ true → l.to ≢ None) }
{
    for link in links {
        if link.to.is_none() && begins_in(link, marks) {
            return Some(*link);
        }
    }
    None
}

// Marks the texts that the includes of marked texts name.
fn next_level(alloc: Global, links: &[Link], marks: &[bool]) -> Result<Vec<bool>, AllocError>
    requires { All (λ l. IfSome l.to (λ n. n < length marks.now)) links.now }
    ensures same_length { IfOk result (λ next. length next.items ≡ length marks.now) }
    ensures sound { IfOk result (λ next. (n : ℕ) → is_marked next.items n ≡ true → IsNamed links.now marks.now n) }
    ensures complete { IfOk result (λ next. (n : ℕ) → IsNamed links.now marks.now n → is_marked next.items n ≡ true) }
{
    let mut next = vec![in alloc; false; marks.len()]?;
    for link in links {
        if let Some(to) = named_by(link, marks) {
            next[to] = true;
        }
    }
    Ok(next)
}

// Marks the given source alone, which stands behind so many texts.
fn first_level(alloc: Global, texts: usize) -> Result<Vec<bool>, AllocError>
    ensures { IfOk result (λ marks. (g : Given) → length g.included ≡ texts → IsLevel g 0 marks.items) }
{
    let mut marks = vec![in alloc; false; texts]?;
    marks.push(true)?;
    Ok(marks)
}

// What is told of an include that names no text.
fn refusal(shelf: &Shelf<'_>, path: &Text, link: &Link) -> Result<IncludeFault, AllocError>
    ensures { IfOk result (λ e. IsRefusalAt path.now shelf.now.texts.now link.now e) }
{
    let including = match shelf.texts.get(link.from) {
        Some(text) => &text.path,
        None => path,
    };
    Ok(IncludeFault::NoInclude {
        path: including.clone()?,
        at: link.at,
    })
}

/// Sees that includes don't nest too deep and that each names a text.
///
/// # Errors
/// Want of memory. `TooDeep` exactly where includes nest more than 16 deep. Else `NoInclude` exactly where one names no text.
pub(crate) fn check_nesting(
    alloc: Global,
    shelf: &Shelf<'_>,
    path: &Text,
    source: &Source,
) -> Result<(), IncludeFault>
    ensures whole { OnOk result (IsWhole (given path.now source.now shelf.now.texts.now)) }
    ensures refused { IfErr result (λ e. Says (given path.now source.now shelf.now.texts.now) e) }
{
    let links = all_links(alloc, shelf, path, source)?;
    let mut lost = None;
    let mut marks = first_level(alloc, shelf.texts.len())?;
    'levels: for _ in 0..MOST {
        lost = lost.or(first_lost(&links, &marks));
        marks = next_level(alloc, &links, &marks)?;
    }
    if goes_on(&links, &marks) {
        return Err(IncludeFault::TooDeep);
    }
    match lost {
        Some(link) => Err(refusal(shelf, path, &link)?),
        None => Ok(()),
    }
}
