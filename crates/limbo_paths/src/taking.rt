//! Which values the arms of a `case` and of a `pick` take.

ghost use Rattle.std.specs.Prelude.{◌≡◌, map};
ghost use Rattle.limbo_types.specs.View.{view_ty};
ghost use Rattle.limbo_layout.specs.View.{view_defs};
ghost use Rattle.limbo_typed.specs.View.{view_case_arm, view_pick_arm, heads_of};
ghost use Rattle.limbo_paths.specs.Walking as walking;

use limbo_forms::ref_of;
use limbo_layout::AdtDef;
use limbo_typed::{CaseArm, CasePattern, PickArm};
use limbo_types::Ty;

// Whether one of the patterns is `*`.
fn has_star(patterns: &[CasePattern]) -> bool
    ensures { result ≡ walking.has_star patterns.now }
{
    for pattern in patterns {
        if matches!(pattern, CasePattern::Any) {
            return true;
        }
    }
    false
}

/// Whether one of the arms of a `case` is `*`.
pub(crate) fn takes_rest(arms: &[CaseArm]) -> bool
    ensures { result ≡ walking.takes_rest (heads_of (map view_case_arm arms.now)) }
{
    for arm in arms {
        if has_star(&arm.patterns) {
            return true;
        }
    }
    false
}

// Whether a number is one of these.
fn has_number(number: usize, numbers: &[u32]) -> bool
    ensures { result ≡ walking.has_number number numbers.now }
{
    for n in numbers {
        if *n as usize == number {
            return true;
        }
    }
    false
}

// Whether variants that an arm of a `pick` names are this one; where it names none, it is `*`.
fn names(variant: usize, variants: &[u32]) -> bool
    ensures { result ≡ walking.names variant variants.now }
{
    variants.is_empty() || has_number(variant, variants)
}

// Whether an arm of a `pick` takes a variant.
fn takes(variant: usize, arms: &[PickArm]) -> bool
    ensures { result ≡ walking.takes variant (heads_of (map view_pick_arm arms.now)) }
{
    for arm in arms {
        if names(variant, &arm.variants) {
            return true;
        }
    }
    false
}

/// Whether each variant below a number is taken by an arm of a `pick`.
pub(crate) fn takes_each(arms: &[PickArm], count: usize) -> bool
    ensures { result ≡ walking.takes_each count (heads_of (map view_pick_arm arms.now)) }
{
    for variant in 0..count {
        if !takes(variant, arms) {
            return false;
        }
    }
    true
}

/// How many variants the adt has of which a type is a `ref`: none where it is no such type.
pub(crate) fn variants(defs: &[AdtDef], t: &Ty) -> usize
    ensures { result ≡ walking.variants (view_defs defs.now) (view_ty t.now) }
{
    match ref_of(t) {
        Some(number) => match defs.get(number as usize) {
            Some(def) => def.picks.len(),
            None => 0,
        },
        None => 0,
    }
}
