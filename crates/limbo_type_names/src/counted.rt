//! Types with the numbers of their nodes. A type has at most 4,096, so what goes down one has an end that doesn't hang on the source:
//! names by `type` can double a type, or nest it, each time.

ghost use Rattle.std.specs.Prelude.{◌≡◌, ◌+◌, ◌≤◌, IfOk, IfErr};
ghost use Rattle.limbo_types.specs.Types.{ArrayOf, ListOf, ChanOf};
ghost use Rattle.limbo_types.specs.View.{view_ty};
ghost use Rattle.limbo_type_names.specs.Sizes.{size};

use limbo_types::{Ty, copy};
use std::alloc::{AllocError, Global};

/// A type, with the number of its nodes.
#[derive(Drop)]
pub struct Counted {
    pub ty: Ty,
    pub nodes: u32,
    ghost counted: { nodes ≡ size (view_ty ty) },
    ghost small: { nodes ≤ 4096 },
}

/// A type of one node.
pub(crate) fn leaf(ty: Ty) -> Counted
    requires one { size (view_ty ty) ≡ 1 }
    ensures { view_ty result.ty ≡ view_ty ty }
{
    Counted { ty, nodes: 1 }
}

/// So many nodes and some more, if they aren't too many.
///
/// # Errors
/// Above 4,096, as want of memory.
pub(crate) fn with_more(nodes: u32, more: u32) -> Result<u32, AllocError>
    requires few { nodes ≤ 4096 }
    requires few_more { more ≤ 4096 }
    ensures sum { IfOk result (λ n. n ≡ nodes + more) }
    ensures small { IfOk result (λ n. n ≤ 4096) }
{
    if nodes + more > 4096 {
        return Err(AllocError);
    }
    Ok(nodes + more)
}

/// `array of` a type.
///
/// # Errors
/// Want of memory.
#[tactic(auto, using(limbo_types::proofs::View::the_types))]
pub(crate) fn array_of(alloc: Global, item: Counted) -> Result<Counted, AllocError>
    ensures { IfOk result (λ c. view_ty c.ty ≡ ArrayOf (view_ty item.ty)) }
{
    let Counted { ty, nodes } = item;
    let nodes = with_more(1, nodes)?;
    let item = Box::new(alloc, ty)?;
    Ok(Counted {
        ty: Ty::Array(item),
        nodes,
    })
}

/// `list of` a type.
///
/// # Errors
/// Want of memory.
#[tactic(auto, using(limbo_types::proofs::View::the_types))]
pub(crate) fn list_of(alloc: Global, item: Counted) -> Result<Counted, AllocError>
    ensures { IfOk result (λ c. view_ty c.ty ≡ ListOf (view_ty item.ty)) }
{
    let Counted { ty, nodes } = item;
    let nodes = with_more(1, nodes)?;
    let item = Box::new(alloc, ty)?;
    Ok(Counted {
        ty: Ty::List(item),
        nodes,
    })
}

/// `chan of` a type.
///
/// # Errors
/// Want of memory.
#[tactic(auto, using(limbo_types::proofs::View::the_types))]
pub(crate) fn chan_of(alloc: Global, item: Counted) -> Result<Counted, AllocError>
    ensures { IfOk result (λ c. view_ty c.ty ≡ ChanOf (view_ty item.ty)) }
{
    let Counted { ty, nodes } = item;
    let nodes = with_more(1, nodes)?;
    let item = Box::new(alloc, ty)?;
    Ok(Counted {
        ty: Ty::Chan(item),
        nodes,
    })
}

/// The same type once more.
///
/// # Errors
/// Want of memory.
pub(crate) fn copy_of(alloc: Global, of: &Counted) -> Result<Counted, AllocError>
    ensures { IfOk result (λ c. view_ty c.ty ≡ view_ty of.now.ty) }
{
    let ty = copy(alloc, &of.ty)?;
    Ok(Counted {
        ty,
        nodes: of.nodes,
    })
}
