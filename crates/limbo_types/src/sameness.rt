ghost use Rattle.std.specs.Prelude.{◌≡◌, ◌↔◌, IsTrue};
ghost use Rattle.limbo_types.specs.View.{view_ty, view_tys};
ghost use Rattle.limbo_types.specs.Same as types;

use crate::ty::Ty;

/// Whether two types are the same one.
pub fn equal(a: &Ty, b: &Ty) -> bool
    ensures { IsTrue result ↔ (view_ty a.now ≡ view_ty b.now) }
{
    same(a, b)
}

// Whether both have one form, and the same parts.
#[tactic(auto, using(crate::proofs::View::the_types))]
#[cycle(same)]
fn same(t: &Ty, u: &Ty) -> bool
    ensures { result ≡ types.same (view_ty t.now) (view_ty u.now) }
{
    match t {
        Ty::Byte => matches!(u, Ty::Byte),
        Ty::Int => matches!(u, Ty::Int),
        Ty::Big => matches!(u, Ty::Big),
        Ty::Chars => matches!(u, Ty::Chars),
        Ty::Nothing => matches!(u, Ty::Nothing),
        Ty::Nil => matches!(u, Ty::Nil),
        Ty::Array(item) => match u {
            Ty::Array(other) => same(item, other),
            _ => false,
        },
        Ty::List(item) => match u {
            Ty::List(other) => same(item, other),
            _ => false,
        },
        Ty::Chan(item) => match u {
            Ty::Chan(other) => same(item, other),
            _ => false,
        },
        Ty::Tuple(parts) => match u {
            Ty::Tuple(others) => all_same(parts, others),
            _ => false,
        },
        Ty::Adt(number) => match u {
            Ty::Adt(other) => number == other,
            _ => false,
        },
        Ty::RefAdt(number) => match u {
            Ty::RefAdt(other) => number == other,
            _ => false,
        },
        Ty::RefPick { adt, variant } => match u {
            Ty::RefPick {
                adt: other,
                variant: chosen,
            } => adt == other && variant == chosen,
            _ => false,
        },
        Ty::Module(number) => match u {
            Ty::Module(other) => number == other,
            _ => false,
        },
    }
}

// Whether there are as many, each the same as its counterpart.
#[tactic(auto, using(crate::proofs::View::the_types))]
#[cycle(same)]
fn all_same(ts: &[Ty], us: &[Ty]) -> bool
    ensures { result ≡ types.all_same (view_tys ts.now) (view_tys us.now) }
{
    let mut rest = us;
    for t in ts {
        let Some((u, more)) = rest.split_first() else {
            return false;
        };
        if !same(t, u) {
            return false;
        }
        rest = more;
    }
    rest.is_empty()
}
