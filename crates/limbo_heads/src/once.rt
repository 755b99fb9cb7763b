//! What stands once in an `alt` or a `pick`.

ghost use Rattle.std.specs.Prelude.{◌≡◌, ◌++◌, ◌↔◌, map, count_by, IsTrue, IfOk};
ghost use Rattle.limbo_typed.specs.View.{view_alt_arm, view_pick_arm, view_alt_head, heads_of};
ghost use Rattle.limbo_stmt_values.specs.limbo_stating.Alts as alts;
ghost use Rattle.limbo_stmt_values.specs.limbo_stating.Alts.{HasOneStar};
ghost use Rattle.limbo_stmt_values.specs.limbo_stating.Picks.{PickOnce, all_variants};
ghost use Rattle.limbo_heads.specs.Singles.{singles, AreOnce, waits_not, names_none};

use limbo_cases::{Label, overlap};
use limbo_typed::{AltArm, AltHead, PickArm};
use std::alloc::{AllocError, Global};

// Whether an arm waits for nothing.
fn is_star(head: &AltHead) -> bool
    ensures { result ≡ alts.is_star (view_alt_head head.now) }
{
    match head {
        AltHead::Any => true,
        _ => false,
    }
}

// How many arms of an `alt` wait for nothing.
fn stars(arms: &[AltArm]) -> usize
    ensures { result ≡ count_by waits_not arms.now }
{
    let mut count = 0;
    for arm in arms {
        if is_star(&arm.head) {
            count += 1;
        }
    }
    count
}

/// Whether `*` stands once at most in an `alt`.
pub fn has_one_star(arms: &[AltArm]) -> bool
    ensures { IsTrue result ↔ HasOneStar (heads_of (map view_alt_arm arms.now)) }
{
    stars(arms) <= 1
}

// How many arms of a `pick` name no variant.
fn nameless(arms: &[PickArm]) -> usize
    ensures { result ≡ count_by names_none arms.now }
{
    let mut count = 0;
    for arm in arms {
        if arm.variants.is_empty() {
            count += 1;
        }
    }
    count
}

// Labels of these numbers, one each.
fn push_singles(labels: &mut Vec<Label<u32>>, numbers: &[u32]) -> Result<(), AllocError>
    ensures { IfOk result (λ _. labels.new.items ≡ labels.old.items ++ singles numbers.now) }
{
    for number in numbers {
        labels.push(Label {
            low: *number,
            high: *number,
        })?;
    }
    Ok(())
}

// Labels of the variants that arms name, one each.
fn variants_in(alloc: Global, arms: &[PickArm]) -> Result<Vec<Label<u32>>, AllocError>
    ensures { IfOk result (λ ls. ls.items ≡ singles (all_variants (heads_of (map view_pick_arm arms.now)))) }
{
    let mut labels = Vec::new(alloc);
    for arm in arms {
        push_singles(&mut labels, &arm.variants)?;
    }
    Ok(labels)
}

// Whether no variant is named twice.
fn each_once(alloc: Global, arms: &[PickArm]) -> Result<bool, AllocError>
    ensures { IfOk result (λ yes. IsTrue yes ↔ AreOnce (all_variants (heads_of (map view_pick_arm arms.now)))) }
{
    let labels = variants_in(alloc, arms)?;
    Ok(overlap(alloc, &labels)?.is_none())
}

/// Whether each variant is named once at most in a `pick`, and `*` stands once at most.
///
/// # Errors
/// Want of memory.
pub fn pick_once(alloc: Global, arms: &[PickArm]) -> Result<bool, AllocError>
    ensures { IfOk result (λ yes. IsTrue yes ↔ PickOnce (heads_of (map view_pick_arm arms.now))) }
{
    let once = each_once(alloc, arms)?;
    Ok(once && nameless(arms) <= 1)
}
