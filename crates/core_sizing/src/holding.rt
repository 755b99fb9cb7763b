//! Which expressions may get references while they are evaluated.

ghost use Rattle.std.specs.Prelude.{◌≡◌, ◌||◌, map};
ghost use Rattle.limbo_types.specs.View.{view_ty};
ghost use Rattle.limbo_layout.specs.View.{view_defs};
ghost use Rattle.limbo_typed.specs.View.{view_expr, view_exprs, view_node, view_optional, view_pattern, view_place, view_place_node};
ghost use Rattle.limbo_typed.specs.View.{patterns_of};
ghost use Rattle.limbo_meaning.specs.Evaluation.{may_hold, some_may_hold, work_refers};
ghost use Rattle.limbo_meaning.specs.Program.{operands_at, operands_to, operating, printed_of, term_of, terms_of};
ghost use Rattle.core_sizing.specs.Holding.{expr_holds, exprs_hold, is_absent, is_print, node_holds, pattern_holds, patterns_hold};
ghost use Rattle.core_sizing.specs.Holding.{place_holds, way_holds};

use limbo_typed::{Operation, Pattern, Place, PlaceNode, Printed, TExpr, TNode};
use limbo_types::Ty;
use value_extents::Extents;

/// Whether the evaluation of an expression may get references.
pub fn may_hold(extents: &Extents<'_>, e: &TExpr) -> bool
    ensures { result ≡ may_hold (view_defs extents.now) (term_of (view_expr e.now)) }
{
    expr_holds(extents, e)
}

/// Whether that of one of several may.
pub fn some_may_hold(extents: &Extents<'_>, es: &[TExpr]) -> bool
    ensures { result ≡ some_may_hold (view_defs extents.now) (terms_of (view_exprs es.now)) }
{
    exprs_hold(extents, es)
}

/// The same of arguments that are printed.
pub fn printed_may_hold(extents: &Extents<'_>, es: &[TExpr]) -> bool
    ensures { result ≡ some_may_hold (view_defs extents.now) (printed_of (view_exprs es.now)) }
{
    exprs_hold(extents, es)
}

/// The same of what leads to a place.
pub fn operands_may_hold(extents: &Extents<'_>, place: &PlaceNode) -> bool
    ensures { result ≡ some_may_hold (view_defs extents.now) (operands_at (view_place_node place.now)) }
{
    way_holds(extents, place)
}

/// The same of what leads to the places of a pattern.
pub fn pattern_may_hold(extents: &Extents<'_>, pattern: &Pattern) -> bool
    ensures { result ≡ some_may_hold (view_defs extents.now) (operands_to (view_pattern pattern.now)) }
{
    pattern_holds(extents, pattern)
}

// Whether an operation itself gets references where it gives a value of this type.
#[tactic(auto, using(crate::proofs::Others::operates))]
fn operation_holds(extents: &Extents<'_>, ty: &Ty, operation: &Operation) -> bool
    ensures { result ≡ work_refers (view_defs extents.now) (view_ty ty.now) (operating operation.now) }
{
    match operation {
        Operation::List => true,
        Operation::Tuple => false,
        Operation::Adt { .. } => false,
        _ => extents.refers(ty),
    }
}

#[tactic(auto, using(limbo_typed::proofs::View::the_exprs))]
fn is_absent(e: &Option<Box<TExpr>>) -> bool
    ensures { result ≡ is_absent (view_optional e.now) }
{
    match e {
        None => true,
        Some(_) => false,
    }
}

// Whether a print is in this part of the language.
fn is_print(printed: &Printed, file: &Option<Box<TExpr>>) -> bool
    ensures { result ≡ is_print printed.now (view_optional file.now) }
{
    match printed {
        Printed::Print => is_absent(file),
        Printed::Fprint => false,
        Printed::Sprint => is_absent(file),
    }
}

#[cycle(holding)]
pub(crate) fn expr_holds(extents: &Extents<'_>, e: &TExpr) -> bool
    ensures { result ≡ expr_holds (view_defs extents.now) (view_expr e.now) }
{
    node_holds(extents, &e.ty, &e.node)
}

#[cycle(holding)]
fn node_holds(extents: &Extents<'_>, ty: &Ty, node: &TNode) -> bool
    ensures { result ≡ node_holds (view_defs extents.now) (view_ty ty.now) (view_node node.now) }
{
    match node {
        TNode::Read(place) => place_holds(extents, place),
        TNode::Part { whole, .. } => expr_holds(extents, whole),
        TNode::Apply { operation, args } => {
            operation_holds(extents, ty, operation) || exprs_hold(extents, args)
        }
        TNode::Lazy { left, right, .. } => one_holds(extents, left, right),
        TNode::Assign { pattern, value } => {
            pattern_holds(extents, pattern) || expr_holds(extents, value)
        }
        TNode::Update { place, value, .. } => {
            place_holds(extents, place) || expr_holds(extents, value)
        }
        TNode::Step { place, .. } => place_holds(extents, place),
        TNode::Copy { array, from, value } => {
            expr_holds(extents, array) || one_holds(extents, from, value)
        }
        TNode::Filled { .. } => true,
        TNode::Channel { size } => is_absent(size),
        TNode::Call { args, .. } => extents.refers(ty) || exprs_hold(extents, args),
        TNode::Print {
            printed,
            file,
            args,
            ..
        } => is_print(printed, file) && exprs_hold(extents, args),
        _ => false,
    }
}

// Whether one of two expressions may get references.
#[cycle(holding)]
fn one_holds(extents: &Extents<'_>, first: &TExpr, second: &TExpr) -> bool
    ensures { result ≡ expr_holds (view_defs extents.now) (view_expr first.now)
        || expr_holds (view_defs extents.now) (view_expr second.now) }
{
    expr_holds(extents, first) || expr_holds(extents, second)
}

#[cycle(holding)]
fn exprs_hold(extents: &Extents<'_>, es: &[TExpr]) -> bool
    ensures { result ≡ exprs_hold (view_defs extents.now) (view_exprs es.now) }
{
    for e in es {
        if expr_holds(extents, e) {
            return true;
        }
    }
    false
}

#[cycle(holding)]
fn place_holds(extents: &Extents<'_>, place: &Place) -> bool
    ensures { result ≡ place_holds (view_defs extents.now) (view_place place.now) }
{
    extents.refers(&place.ty) || way_holds(extents, &place.at)
}

#[cycle(holding)]
fn way_holds(extents: &Extents<'_>, place: &PlaceNode) -> bool
    ensures { result ≡ way_holds (view_defs extents.now) (view_place_node place.now) }
{
    match place {
        PlaceNode::Local(_) => false,
        PlaceNode::Global(_) => false,
        PlaceNode::Field { whole, .. } => way_holds(extents, &whole.at),
        PlaceNode::Element { array, index } => one_holds(extents, array, index),
        PlaceNode::Character { text, index } => {
            way_holds(extents, &text.at) || expr_holds(extents, index)
        }
        PlaceNode::Target { reference } => expr_holds(extents, reference),
    }
}

#[cycle(holding)]
fn pattern_holds(extents: &Extents<'_>, pattern: &Pattern) -> bool
    ensures { result ≡ pattern_holds (view_defs extents.now) (view_pattern pattern.now) }
{
    match pattern {
        Pattern::Place(place) => way_holds(extents, &place.at),
        Pattern::Nothing => false,
        Pattern::Tuple(parts) => patterns_hold(extents, parts),
    }
}

#[cycle(holding)]
fn patterns_hold(extents: &Extents<'_>, parts: &[Pattern]) -> bool
    ensures { result ≡ patterns_hold (view_defs extents.now) (patterns_of (map view_pattern parts.now)) }
{
    for part in parts {
        if pattern_holds(extents, part) {
            return true;
        }
    }
    false
}
