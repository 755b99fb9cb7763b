//! What a written type means, by what is known of the names in it.

ghost use Rattle.std.specs.Prelude.{◌≡◌, IfOk, IfErr, map};
ghost use Rattle.limbo_tree.specs.Types as tree;
ghost use Rattle.limbo_tree.specs.View.{view_type, tys_of};
ghost use Rattle.limbo_types.specs.View.{view_ty};
ghost use Rattle.limbo_unknown.specs.Written.{in_type, in_types};
ghost use Rattle.limbo_type_names.specs.Means.{Means};
ghost use Rattle.limbo_type_names.specs.Writes.{Fails};
ghost use Rattle.limbo_type_names.specs.Working.{entries_in, Sees, AreReady, FailsPart};

use crate::counted::{Counted, array_of, chan_of, leaf, list_of, with_more};
use crate::fault::TypeFault;
use crate::known::Known;
use limbo_tree::TypeTree;
use limbo_types::Ty;
use std::alloc::Global;

/// The type that a written type means.
///
/// # Errors
/// Want of memory. `Unknown` and `NotAType` exactly where a name in it isn't there or is no type: the first such.
#[tactic(auto, using(limbo_types::proofs::View::the_types))]
#[cycle(meaning)]
pub(crate) fn type_in(
    alloc: Global,
    known: Known,
    scope: Option<u32>,
    of: &TypeTree,
) -> Result<Counted, TypeFault>
    requires sees { Sees known }
    requires ready { AreReady known scope (in_type (view_type of.now)) }
    ensures means { IfOk result (λ c. Means (entries_in known.entry.naming.now) known.entry.naming.now.implemented scope
        (view_type of.now) (view_ty c.ty)) }
    ensures fails { IfErr result (λ e. Fails (entries_in known.entry.naming.now) known.entry.naming.now.implemented scope of.now e) }
{
    match of {
        TypeTree::Byte { .. } => Ok(leaf(Ty::Byte)),
        TypeTree::Int { .. } => Ok(leaf(Ty::Int)),
        TypeTree::Big { .. } => Ok(leaf(Ty::Big)),
        TypeTree::String { .. } => Ok(leaf(Ty::Chars)),
        TypeTree::Array { element, .. } => match type_in(alloc, known, scope, element) {
            Ok(item) => Ok(array_of(alloc, item)?),
            Err(fault) => Err(fault),
        },
        TypeTree::List { element, .. } => match type_in(alloc, known, scope, element) {
            Ok(item) => Ok(list_of(alloc, item)?),
            Err(fault) => Err(fault),
        },
        TypeTree::Chan { element, .. } => match type_in(alloc, known, scope, element) {
            Ok(item) => Ok(chan_of(alloc, item)?),
            Err(fault) => Err(fault),
        },
        TypeTree::Ref { of, span } => known.referred(scope, of, *span),
        TypeTree::Named { name, span } => known.named(alloc, scope, name, *span),
        TypeTree::Tuple { parts, .. } => tuple_in(alloc, known, scope, parts),
    }
}

// The tuple of the types that several mean.
#[tactic(auto, using(limbo_types::proofs::View::the_types))]
#[cycle(meaning)]
fn tuple_in(
    alloc: Global,
    known: Known,
    scope: Option<u32>,
    parts: &[TypeTree],
) -> Result<Counted, TypeFault>
    requires sees { Sees known }
    requires ready { AreReady known scope (in_types (tys_of (map view_type parts.now))) }
    ensures means { IfOk result (λ c. Means (entries_in known.entry.naming.now) known.entry.naming.now.implemented scope
        (tree.Tuple (tys_of (map view_type parts.now))) (view_ty c.ty)) }
    ensures fails { IfErr result (λ e. FailsPart (entries_in known.entry.naming.now) known.entry.naming.now.implemented scope parts.now e) }
{
    let mut types = Vec::new(alloc);
    let mut nodes = 1;
    for part in parts {
        match type_in(alloc, known, scope, part) {
            Ok(item) => {
                let Counted { ty, nodes: more } = item;
                nodes = with_more(nodes, more)?;
                types.push(ty)?;
            }
            Err(fault) => return Err(fault),
        }
    }
    Ok(Counted {
        ty: Ty::Tuple(types),
        nodes,
    })
}
