ghost use Rattle.std.specs.Prelude.{◌≡◌, ◌<◌, length, map, option_map, IfOk, ◌≤ℤ◌};
ghost use Rattle.limbo_cases.specs.Labels.{AtMost, Finds};
ghost use Rattle.limbo_cases.specs.Texts.{TextAtMost, text_label};
ghost use Rattle.limbo_cases.specs.Keeping.{IsKept, Keeps, IsLastBegun, held};

use crate::label::Label;
use inf_text::Text;
use std::alloc::{AllocError, Global};
use std::collections::BTreeMap;

// A label that some value fits, and its number.
#[derive(Drop)]
struct Kept<'a, T> {
    label: &'a Label<T>,
    number: usize,
}

// The last kept label that begins at a value or before it.
fn last_begun<'a, 'm, T: Ord>(
    kept: &'m BTreeMap<&'a T, Kept<'a, T>>,
    high: &'a T,
) -> Option<&'m Kept<'a, T>>
    ensures { IsLastBegun T.cmp (held T.cmp kept.now) high.now (option_map (λ k. k.now) result) }
{
    match kept.range(..=high).next_back() {
        Some((_, last)) => Some(last),
        None => None,
    }
}

// Keeps a label among those before it, if none of these overlaps it; else answers the number of one that does.
fn keep<'a, T: Ord>(
    labels: &'a [Label<T>],
    number: usize,
    kept: &mut BTreeMap<&'a T, Kept<'a, T>>,
) -> Result<Option<usize>, AllocError>
    requires there { number < length labels.now }
    requires kept { IsKept T.cmp labels.now number (held T.cmp kept.old) }
    ensures { IfOk result (Keeps T.cmp labels.now number (held T.cmp kept.new)) }
{
    let label = &labels[number];
    if label.high < label.low {
        return Ok(None);
    }
    if let Some(before) = last_begun(kept, &label.high) {
        if label.low <= before.label.high {
            return Ok(Some(before.number));
        }
    }
    kept.insert(&label.low, Kept { label, number })?;
    Ok(None)
}

/// The first label, in the order of the list, that an earlier one overlaps: the number of such an earlier one, and its own. `None`
/// exactly where no value fits two labels.
///
/// # Errors
/// Want of memory.
pub fn overlap<T: Ord>(
    alloc: Global,
    labels: &[Label<T>],
) -> Result<Option<(usize, usize)>, AllocError>
    ensures { IfOk result (Finds (AtMost T.cmp) labels.now) }
{
    let mut kept = BTreeMap::new(alloc);
    for later in 0..labels.len() {
        if let Some(earlier) = keep(labels, later, &mut kept)? {
            return Ok(Some((earlier, later)));
        }
    }
    Ok(None)
}

/// The same of ints and bigs.
///
/// # Errors
/// Want of memory.
pub fn overlapping_numbers(
    alloc: Global,
    labels: &[Label<i64>],
) -> Result<Option<(usize, usize)>, AllocError>
    ensures { IfOk result (Finds ◌≤ℤ◌ labels.now) }
{
    overlap(alloc, labels)
}

/// The same of strings, in the order of the language: by the codes of their characters.
///
/// # Errors
/// Want of memory.
pub fn overlapping_texts(
    alloc: Global,
    labels: &[Label<&Text>],
) -> Result<Option<(usize, usize)>, AllocError>
    ensures { IfOk result (Finds TextAtMost (map text_label labels.now)) }
{
    overlap(alloc, labels)
}
