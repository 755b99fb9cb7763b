//! What a value is where a type is asked for.

ghost use Rattle.std.specs.Prelude.{◌≡◌, IfOk, IsTrue, false, map, [], ◌∷◌};
ghost use Rattle.limbo_types.specs.Types.{ListOf};
ghost use Rattle.limbo_types.specs.View.{view_ty};
ghost use Rattle.limbo_typed.specs.Typed.{Expr};
ghost use Rattle.limbo_typed.specs.View.{view_expr, view_node, view_exprs, view_item, items_of, view_optional};
ghost use Rattle.limbo_standing.specs.Standing.{Settles};
ghost use Rattle.limbo_standing.specs.Settling as settling;
ghost use Rattle.limbo_standing.specs.Settling.{Tells};

use limbo_forms::{element_of, is_nil, is_reference, is_same};
use limbo_typed::{Item, Operation, TExpr, TNode};
use limbo_types::{Ty, copy};
use std::alloc::{AllocError, Global};
use std::mem;

// Whether a type has a `nil`.
#[tactic(auto, using(limbo_types::proofs::View::the_types, crate::proofs::Nodes::other_nil))]
fn has_nil(t: &Ty) -> bool
    ensures { result ≡ settling.has_nil (view_ty t.now) }
{
    match t {
        Ty::Chars => true,
        _ => is_reference(t),
    }
}

#[tactic(auto, using(limbo_typed::proofs::View::the_exprs, crate::proofs::Nodes::no_open_nil))]
fn is_open_nil(node: &TNode) -> bool
    ensures { result ≡ settling.is_open_nil (view_node node.now) }
{
    matches!(node, TNode::OpenNil)
}

// Whether a type is a `ref` of a variant, where the `ref` of its adt is asked for.
#[tactic(auto, using(limbo_types::proofs::View::the_types, crate::proofs::Nodes::no_variant, crate::proofs::Nodes::no_ref_asked))]
fn stands_variant(asked: &Ty, t: &Ty) -> bool
    ensures { result ≡ settling.stands_variant (view_ty asked.now) (view_ty t.now) }
{
    match asked {
        Ty::RefAdt(number) => match t {
            Ty::RefPick { adt, .. } => number == adt,
            _ => false,
        },
        _ => false,
    }
}

// The value where a type is asked for, and whether it stands there.
#[tactic(auto, using(limbo_typed::proofs::View::the_exprs))]
#[cycle(settling)]
fn settle_value(alloc: Global, value: &mut TExpr, asked: &Ty) -> Result<bool, AllocError>
    ensures { IfOk result (λ yes. Tells (settling.settled (view_ty asked.now) (view_expr value.old)) yes (view_expr value.new)) }
{
    if is_same(&value.ty, asked) {
        return Ok(true);
    }
    if is_nil(&value.ty) && is_open_nil(&value.node) {
        if !has_nil(asked) {
            return Ok(false);
        }
        value.ty = copy(alloc, asked)?;
        value.node = TNode::Nil;
        return Ok(true);
    }
    if stands_variant(asked, &value.ty) {
        return Ok(true);
    }
    let settled = settle_node(alloc, &mut value.node, asked)?;
    if settled {
        value.ty = copy(alloc, asked)?;
    }
    Ok(settled)
}

#[tactic(auto, using(crate::proofs::Nodes::not_applied))]
#[cycle(settling)]
fn settle_node(alloc: Global, node: &mut TNode, asked: &Ty) -> Result<bool, AllocError>
    ensures { IfOk result (λ yes. Tells (settling.settled_node (view_ty asked.now) (view_node node.old)) yes (view_node node.new)) }
{
    match node {
        TNode::Apply { operation, args } => Ok(settle_args(alloc, args, *operation, asked)?),
        _ => settle_filled(alloc, node, asked),
    }
}

// The same of an array with its elements. What isn't one is nothing there.
#[tactic(auto, using(crate::proofs::Nodes::filled_never))]
#[cycle(settling)]
fn settle_filled(alloc: Global, node: &mut TNode, asked: &Ty) -> Result<bool, AllocError>
    ensures { IfOk result (λ yes. Tells (settling.filled_node (view_ty asked.now) (view_node node.old)) yes (view_node node.new)) }
{
    let Some(element) = element_of(asked) else {
        return Ok(false);
    };
    let TNode::Filled {
        length,
        mut items,
        mut rest,
    } = mem::replace(node, TNode::Nil)
    else {
        return Ok(false);
    };
    if !settle_items(alloc, &mut items, element)? {
        return Ok(false);
    }
    if !settle_rest(alloc, &mut rest, element)? {
        return Ok(false);
    }
    *node = TNode::Filled {
        length,
        items,
        rest,
    };
    Ok(true)
}

#[tactic(auto, using(limbo_types::proofs::View::the_types, crate::proofs::Nodes::no_parts, crate::proofs::Runs::listed_tys))]
#[cycle(settling)]
fn settle_args(
    alloc: Global,
    args: &mut [TExpr],
    operation: Operation,
    asked: &Ty,
) -> Result<bool, AllocError>
    ensures { IfOk result (λ yes. Tells (settling.settled_args (view_ty asked.now) operation (view_exprs args.old))
        yes (view_exprs args.new)) }
{
    match asked {
        Ty::Tuple(parts) => {
            if is_tuple(operation) {
                Ok(settle_each(alloc, args, parts)?)
            } else {
                Ok(false)
            }
        }
        Ty::List(item) => {
            if is_list(operation) {
                settle_all(alloc, args, item)
            } else if is_cons(operation) {
                settle_pair(alloc, args, item, asked)
            } else {
                Ok(false)
            }
        }
        _ => Ok(false),
    }
}

// Whether an operation is the one that makes a tuple, a list, or a list of a value and a list.
#[tactic(auto, using(crate::proofs::Nodes::not_tuple))]
fn is_tuple(operation: Operation) -> bool
    ensures { result ≡ settling.is_tuple operation }
{
    matches!(operation, Operation::Tuple)
}

#[tactic(auto, using(crate::proofs::Nodes::not_list))]
fn is_list(operation: Operation) -> bool
    ensures { result ≡ settling.is_list operation }
{
    matches!(operation, Operation::List)
}

#[tactic(auto, using(crate::proofs::Nodes::not_cons))]
fn is_cons(operation: Operation) -> bool
    ensures { result ≡ settling.is_cons operation }
{
    matches!(operation, Operation::Cons)
}

// Values, each where a type of its own is asked for.
#[cycle(settling)]
fn settle_each(alloc: Global, values: &mut [TExpr], asked: &[Ty]) -> Result<bool, AllocError>
    ensures { IfOk result (λ yes. Tells (settling.settled_each (map view_ty asked.now) (view_exprs values.old))
        yes (view_exprs values.new)) }
{
    let mut rest = asked;
    for value in values.iter_mut() {
        let Some((t, more)) = rest.split_first() else {
            return Ok(false);
        };
        if !settle_value(alloc, value, t)? {
            return Ok(false);
        }
        rest = more;
    }
    Ok(rest.is_empty())
}

// Values, all where one type is asked for.
#[cycle(settling)]
fn settle_all(alloc: Global, values: &mut [TExpr], asked: &Ty) -> Result<bool, AllocError>
    ensures { IfOk result (λ yes. Tells (settling.settled_all (view_ty asked.now) (view_exprs values.old)) yes (view_exprs values.new)) }
{
    for value in values.iter_mut() {
        if !settle_value(alloc, value, asked)? {
            return Ok(false);
        }
    }
    Ok(true)
}

// The operands of `::`: the first where the type of items is asked for, the other where the list's is.
#[cycle(settling)]
fn settle_pair(
    alloc: Global,
    values: &mut [TExpr],
    item: &Ty,
    list: &Ty,
) -> Result<bool, AllocError>
    ensures { IfOk result (λ yes. Tells (settling.settled_each (view_ty item.now ∷ view_ty list.now ∷ []) (view_exprs values.old))
        yes (view_exprs values.new)) }
{
    if values.len() != 2 {
        return Ok(false);
    }
    let mut asked = item;
    for value in values.iter_mut() {
        if !settle_value(alloc, value, asked)? {
            return Ok(false);
        }
        asked = list;
    }
    Ok(true)
}

// The elements of an array that have an index.
#[cycle(settling)]
fn settle_items(alloc: Global, items: &mut [Item], asked: &Ty) -> Result<bool, AllocError>
    ensures { IfOk result (λ yes. Tells (settling.settled_items (view_ty asked.now) (items_of (map view_item items.old)))
        yes (items_of (map view_item items.new))) }
{
    for item in items.iter_mut() {
        if !settle_value(alloc, &mut item.value, asked)? {
            return Ok(false);
        }
    }
    Ok(true)
}

// The element that stands at each other index.
#[tactic(auto, using(limbo_typed::proofs::View::the_exprs))]
#[cycle(settling)]
fn settle_rest(alloc: Global, rest: &mut Option<Box<TExpr>>, asked: &Ty) -> Result<bool, AllocError>
    ensures { IfOk result (λ yes. Tells (settling.settled_rest (view_ty asked.now) (view_optional rest.old)) yes (view_optional rest.new)) }
{
    match rest {
        Some(value) => settle_value(alloc, value, asked),
        None => Ok(true),
    }
}

/// Lets a value stand where a type is asked for: an open `nil` becomes a `nil` of that type, in a tuple, a list or an array as well, and
/// the types of these follow. It answers whether the value stands; where it doesn't, nothing is said of what is left of it.
///
/// # Errors
/// Want of memory.
pub fn settle(alloc: Global, value: &mut TExpr, asked: &Ty) -> Result<bool, AllocError>
    // It is what the value is there.
    ensures settled { IfOk result (λ yes. IsTrue yes → Settles (view_ty asked.now) (view_expr value.old) (view_expr value.new)) }
    // Where it answers false, the value is nothing there.
    ensures refused { IfOk result (λ yes. yes ≡ false → (e : Expr) → Settles (view_ty asked.now) (view_expr value.old) e → ⊥) }
{
    settle_value(alloc, value, asked)
}
