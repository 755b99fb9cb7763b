//! Which stores are allowed.

ghost use Rattle.std.specs.Prelude.{◌↔◌, IsTrue, map};
ghost use Rattle.limbo_types.specs.View.{view_ty};
ghost use Rattle.limbo_adts.specs.Table.{defs_of};
ghost use Rattle.limbo_typed.specs.Typed.{ToParts};
ghost use Rattle.limbo_typed.specs.View.{view_node, view_pattern, patterns_of};
ghost use Rattle.limbo_stores.specs.Stores.{CopyCloses, SendCloses, RefusesPattern, RefusesStore};
ghost use Rattle.limbo_stores.specs.Telling.{Tells};

use crate::outcome::{Store, closing, worse};
use crate::place::place_store;
use limbo_adts::Adts;
use limbo_typed::{Pattern, TNode};
use limbo_types::Ty;

/// Whether values may be stored as a pattern says, as in an arm that receives, given the number of the adt `FD` of `Sys`, where it is
/// there.
#[cycle(patterns)]
pub fn pattern_store(adts: &Adts, fd: Option<u32>, pattern: &Pattern) -> Store
    ensures { Tells result (RefusesPattern (defs_of adts.now) fd (view_pattern pattern.now)) }
{
    match pattern {
        Pattern::Place(place) => place_store(adts, fd, place),
        Pattern::Nothing => Store::Allowed,
        Pattern::Tuple(parts) => parts_store(adts, fd, parts),
    }
}

#[cycle(patterns)]
fn parts_store(adts: &Adts, fd: Option<u32>, parts: &[Pattern]) -> Store
    ensures { Tells result (RefusesPattern (defs_of adts.now) fd (ToParts (patterns_of (map view_pattern parts.now)))) }
{
    let mut told = Store::Allowed;
    for part in parts {
        told = worse(told, pattern_store(adts, fd, part));
    }
    told
}

// Whether what is copied into an array of this type may name the array.
fn copy_closes(adts: &Adts, array: &Ty) -> bool
    ensures { IsTrue result ↔ CopyCloses (defs_of adts.now) (view_ty array.now) }
{
    match array {
        Ty::Array(element) => adts.reaches(element, array),
        _ => false,
    }
}

/// Whether what is sent on a channel of this type may name the channel, as in an arm that sends.
pub fn send_closes(adts: &Adts, channel: &Ty) -> bool
    ensures { IsTrue result ↔ SendCloses (defs_of adts.now) (view_ty channel.now) }
{
    match channel {
        Ty::Chan(value) => adts.reaches(value, channel),
        _ => false,
    }
}

/// Whether the store that an expression makes is allowed, given the number of the adt `FD` of `Sys`, where it is there. An expression
/// that stores nothing is.
pub fn store(adts: &Adts, fd: Option<u32>, node: &TNode) -> Store
    ensures { Tells result (RefusesStore (defs_of adts.now) fd (view_node node.now)) }
{
    match node {
        TNode::Assign { pattern, .. } => pattern_store(adts, fd, pattern),
        TNode::Update { place, .. } => place_store(adts, fd, place),
        TNode::Step { place, .. } => place_store(adts, fd, place),
        TNode::Copy { array, .. } => closing(copy_closes(adts, &array.ty)),
        TNode::Send { channel, .. } => closing(send_closes(adts, &channel.ty)),
        _ => Store::Allowed,
    }
}
