//! Whether types are one, and whether one has another as a part, without the parts of adts.

ghost use Rattle.std.specs.Prelude.{◌≡◌};
ghost use Rattle.limbo_types.specs.View.{view_ty, view_tys};
ghost use Rattle.limbo_adts.specs.Reading as reading;

use limbo_types::{Ty, equal};

// Whether two types are one, a `ref` of a variant counted as the `ref` of its adt.
#[tactic(auto, using(limbo_types::proofs::View::the_types))]
#[cycle(alike)]
fn alike(t: &Ty, u: &Ty) -> bool
    ensures { result ≡ reading.alike (view_ty t.now) (view_ty u.now) }
{
    match t {
        Ty::Array(item) => match u {
            Ty::Array(other) => alike(item, other),
            _ => false,
        },
        Ty::List(item) => match u {
            Ty::List(other) => alike(item, other),
            _ => false,
        },
        Ty::Chan(item) => match u {
            Ty::Chan(other) => alike(item, other),
            _ => false,
        },
        Ty::Tuple(parts) => match u {
            Ty::Tuple(others) => all_alike(parts, others),
            _ => false,
        },
        Ty::RefAdt(number) => is_ref(u, *number),
        Ty::RefPick { adt, .. } => is_ref(u, *adt),
        _ => equal(t, u),
    }
}

// Whether it is a `ref` of this adt, or of a variant of it.
#[tactic(auto, using(limbo_types::proofs::View::the_types))]
fn is_ref(t: &Ty, number: u32) -> bool
    ensures { result ≡ reading.is_ref (view_ty t.now) number }
{
    match t {
        Ty::RefAdt(adt) => number == *adt,
        Ty::RefPick { adt, .. } => number == *adt,
        _ => false,
    }
}

// Whether there are as many, each alike its counterpart.
#[cycle(alike)]
fn all_alike(ts: &[Ty], us: &[Ty]) -> bool
    ensures { result ≡ reading.all_alike (view_tys ts.now) (view_tys us.now) }
{
    let mut rest = us;
    for t in ts {
        let Some((u, more)) = rest.split_first() else {
            return false;
        };
        if !alike(t, u) {
            return false;
        }
        rest = more;
    }
    rest.is_empty()
}

/// Whether a type is another or has it as a part, without the parts of adts.
#[tactic(auto, using(limbo_types::proofs::View::the_types))]
#[cycle(touches)]
pub(crate) fn touches(t: &Ty, u: &Ty) -> bool
    ensures { result ≡ reading.touches (view_ty t.now) (view_ty u.now) }
{
    alike(t, u)
        || match t {
            Ty::Array(item) => touches(item, u),
            Ty::List(item) => touches(item, u),
            Ty::Chan(item) => touches(item, u),
            Ty::Tuple(parts) => any_touches(parts, u),
            _ => false,
        }
}

#[cycle(touches)]
fn any_touches(ts: &[Ty], u: &Ty) -> bool
    ensures { result ≡ reading.any_touches (view_tys ts.now) (view_ty u.now) }
{
    for t in ts {
        if touches(t, u) {
            return true;
        }
    }
    false
}
