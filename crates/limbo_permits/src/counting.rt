//! How many nodes a type has.

ghost use Rattle.std.specs.Prelude.{◌↔◌, ◌≤◌, IsTrue, map};
ghost use Rattle.limbo_types.specs.View.{view_ty, view_tys};
ghost use Rattle.limbo_permits.specs.Permits.{nodes, all_nodes, most_nodes};
ghost use Rattle.limbo_permits.specs.Counting.{Leaves};

use limbo_types::Ty;

const MOST_NODES: u32 = 4096;

// What is left of so many when a type's nodes are taken away, if there are as many.
#[tactic(auto, using(limbo_types::proofs::View::the_types, crate::proofs::Counts::one_node))]
#[cycle(counting)]
fn left_of(left: u32, t: &Ty) -> Option<u32>
    ensures { Leaves left (nodes (view_ty t.now)) result }
{
    if left == 0 {
        return None;
    }
    match t {
        Ty::Array(item) => left_of(left - 1, item),
        Ty::List(item) => left_of(left - 1, item),
        Ty::Chan(item) => left_of(left - 1, item),
        Ty::Tuple(parts) => left_of_all(left - 1, parts),
        _ => Some(left - 1),
    }
}

#[cycle(counting)]
fn left_of_all(left: u32, ts: &[Ty]) -> Option<u32>
    ensures { Leaves left (all_nodes (view_tys ts.now)) result }
{
    let mut rest = left;
    for t in ts {
        match left_of(rest, t) {
            Some(less) => rest = less,
            None => return None,
        }
    }
    Some(rest)
}

/// Whether a type, written out, isn't too long.
pub(crate) fn is_small(t: &Ty) -> bool
    ensures { IsTrue result ↔ (nodes (view_ty t.now) ≤ most_nodes) }
{
    left_of(MOST_NODES, t).is_some()
}
