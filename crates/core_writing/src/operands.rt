//! The operands of an expression, in the order in which they are evaluated.

ghost use Rattle.std.specs.Prelude.{◌≡◌, ◌+◌, ◌≤◌, IfOk, List, OnOk, map};
ghost use Rattle.limbo_layout.specs.Adts.{Def};
ghost use Rattle.limbo_types.specs.Types.{Ty as Typed};
ghost use Rattle.limbo_typed.specs.declared.print.Piece.{Piece};
ghost use Rattle.limbo_typed.specs.View.{view_expr, view_exprs, view_optional, view_place_node, view_pattern, patterns_of};
ghost use Rattle.limbo_meaning.specs.Trees.{MoreTerms};
ghost use Rattle.limbo_meaning.specs.Program.{only_term, operands_among, operands_at, operands_to, term_of, terms_before};
ghost use Rattle.core_frames.specs.Sizes.{expr_size, exprs_size, way_size, pattern_size, patterns_size};
ghost use Rattle.core_writing.specs.Operands.{operands_in, operands_size, printed_operands, terms_as, terms_in};

use limbo_typed::{Pattern, PlaceNode, Printed, TExpr, TNode};
use std::alloc::{AllocError, Global};

/// An operand: an expression, and whether it stands there as it is printed.
#[derive(Clone, Copy)]
pub struct Operand<'a> {
    pub expr: &'a TExpr,
    pub printed: bool,
}

// Adds an expression.
#[tactic(auto, using(crate::proofs::Collected::terms_push, crate::proofs::Collected::size_push))]
fn add_expr<'a>(operands: &mut Vec<Operand<'a>>, expr: &'a TExpr) -> Result<(), AllocError>
    ensures terms { OnOk result (terms_in operands.new.items
        ≡ terms_before (terms_in operands.old.items) (only_term (term_of (view_expr expr.now)))) }
    ensures size { (defs : List Def) → OnOk result (operands_size defs operands.new.items
        ≡ operands_size defs operands.old.items + expr_size defs (view_expr expr.now)) }
{
    operands.push(Operand {
        expr,
        printed: false,
    })?;
    Ok(())
}

// Adds expressions, as they are printed or not.
fn add_exprs<'a>(
    operands: &mut Vec<Operand<'a>>,
    exprs: &'a [TExpr],
    printed: bool,
) -> Result<(), AllocError>
    ensures terms { OnOk result (terms_in operands.new.items
        ≡ terms_before (terms_in operands.old.items) (terms_as printed (view_exprs exprs.now))) }
    ensures size { (defs : List Def) → OnOk result (operands_size defs operands.new.items
        ≡ operands_size defs operands.old.items + exprs_size defs (view_exprs exprs.now)) }
{
    for expr in exprs {
        operands.push(Operand { expr, printed })?;
    }
    Ok(())
}

// Adds the operands of a place.
#[tactic(auto, using(limbo_typed::proofs::View::the_exprs, crate::proofs::Collected::collecting))]
fn add_place<'a>(operands: &mut Vec<Operand<'a>>, node: &'a PlaceNode) -> Result<(), AllocError>
    ensures terms { OnOk result (terms_in operands.new.items
        ≡ terms_before (terms_in operands.old.items) (operands_at (view_place_node node.now))) }
    ensures size { (defs : List Def) → OnOk result (operands_size defs operands.new.items
        ≤ operands_size defs operands.old.items + way_size defs (view_place_node node.now)) }
{
    match node {
        PlaceNode::Local(_) => Ok(()),
        PlaceNode::Global(_) => Ok(()),
        PlaceNode::Field { whole, .. } => {
            add_place(operands, &whole.at)?;
            Ok(())
        }
        PlaceNode::Element { array, index } => {
            add_expr(operands, array)?;
            add_expr(operands, index)?;
            Ok(())
        }
        PlaceNode::Character { text, index } => {
            add_place(operands, &text.at)?;
            add_expr(operands, index)?;
            Ok(())
        }
        PlaceNode::Target { reference } => {
            add_expr(operands, reference)?;
            Ok(())
        }
    }
}

// Adds the operands of a pattern's places.
#[cycle(patterns)]
#[tactic(auto, using(limbo_typed::proofs::View::the_exprs, crate::proofs::Collected::collecting))]
fn add_pattern<'a>(operands: &mut Vec<Operand<'a>>, pattern: &'a Pattern) -> Result<(), AllocError>
    ensures terms { OnOk result (terms_in operands.new.items
        ≡ terms_before (terms_in operands.old.items) (operands_to (view_pattern pattern.now))) }
    ensures size { (defs : List Def) → OnOk result (operands_size defs operands.new.items
        ≤ operands_size defs operands.old.items + pattern_size defs (view_pattern pattern.now)) }
{
    match pattern {
        Pattern::Place(place) => {
            add_place(operands, &place.at)?;
            Ok(())
        }
        Pattern::Nothing => Ok(()),
        Pattern::Tuple(patterns) => {
            add_patterns(operands, patterns)?;
            Ok(())
        }
    }
}

// Adds those of patterns in a row.
#[cycle(patterns)]
fn add_patterns<'a>(
    operands: &mut Vec<Operand<'a>>,
    patterns: &'a [Pattern],
) -> Result<(), AllocError>
    ensures terms { OnOk result (terms_in operands.new.items
        ≡ terms_before (terms_in operands.old.items) (operands_among (patterns_of (map view_pattern patterns.now)))) }
    ensures size { (defs : List Def) → OnOk result (operands_size defs operands.new.items
        ≤ operands_size defs operands.old.items + patterns_size defs (patterns_of (map view_pattern patterns.now))) }
{
    for pattern in patterns {
        add_pattern(operands, pattern)?;
    }
    Ok(())
}

// Adds the operands of an assignment.
#[tactic(auto, using(crate::proofs::Collected::collecting))]
fn add_assigned<'a>(
    operands: &mut Vec<Operand<'a>>,
    pattern: &'a Pattern,
    value: &'a TExpr,
) -> Result<(), AllocError>
    ensures terms { OnOk result (terms_in operands.new.items
        ≡ terms_before (terms_in operands.old.items)
        (terms_before (operands_to (view_pattern pattern.now)) (only_term (term_of (view_expr value.now))))) }
    ensures size { (defs : List Def) → OnOk result (operands_size defs operands.new.items
        ≤ operands_size defs operands.old.items + (pattern_size defs (view_pattern pattern.now) + expr_size defs (view_expr value.now))) }
{
    add_pattern(operands, pattern)?;
    add_expr(operands, value)?;
    Ok(())
}

// Adds three expressions.
#[tactic(auto, using(crate::proofs::Collected::collecting))]
fn add_three<'a>(
    operands: &mut Vec<Operand<'a>>,
    first: &'a TExpr,
    second: &'a TExpr,
    third: &'a TExpr,
) -> Result<(), AllocError>
    ensures terms { OnOk result (terms_in operands.new.items
        ≡ terms_before (terms_in operands.old.items) (MoreTerms (term_of (view_expr first.now))
        (MoreTerms (term_of (view_expr second.now)) (only_term (term_of (view_expr third.now)))))) }
    ensures size { (defs : List Def) → OnOk result (operands_size defs operands.new.items
        ≡ operands_size defs operands.old.items
        + (expr_size defs (view_expr first.now) + (expr_size defs (view_expr second.now) + expr_size defs (view_expr third.now)))) }
{
    add_expr(operands, first)?;
    add_expr(operands, second)?;
    add_expr(operands, third)?;
    Ok(())
}

// Adds the arguments of a print that is in this part of the language.
#[tactic(auto, using(limbo_typed::proofs::View::the_exprs, crate::proofs::Collected::collecting))]
fn add_printed<'a>(
    operands: &mut Vec<Operand<'a>>,
    printed: Printed,
    file: &Option<Box<TExpr>>,
    args: &'a [TExpr],
) -> Result<(), AllocError>
    ensures terms { (t : Typed) (ps : List Piece) → OnOk result (terms_in operands.new.items
        ≡ terms_before (terms_in operands.old.items) (printed_operands printed t ps (view_optional file.now) (view_exprs args.now))) }
    ensures size { (defs : List Def) → OnOk result (operands_size defs operands.new.items
        ≤ operands_size defs operands.old.items + exprs_size defs (view_exprs args.now)) }
{
    match (printed, file) {
        (Printed::Print, None) => {
            add_exprs(operands, args, true)?;
            Ok(())
        }
        (Printed::Sprint, None) => {
            add_exprs(operands, args, true)?;
            Ok(())
        }
        (Printed::Fprint, _) => Ok(()),
        (_, Some(_)) => Ok(()),
    }
}

// Adds the operands of a node that stands behind them, and none of another expression.
#[tactic(auto, using(limbo_typed::proofs::View::the_exprs, crate::proofs::Collected::collecting, crate::proofs::Forms::no_operands))]
fn add_operands<'a>(operands: &mut Vec<Operand<'a>>, e: &'a TExpr) -> Result<(), AllocError>
    ensures terms { OnOk result (terms_in operands.new.items
        ≡ terms_before (terms_in operands.old.items) (operands_in (term_of (view_expr e.now)))) }
    ensures size { (defs : List Def) → OnOk result (operands_size defs operands.new.items + 16
        ≤ operands_size defs operands.old.items + expr_size defs (view_expr e.now)) }
{
    match &e.node {
        TNode::Read(place) => {
            add_place(operands, &place.at)?;
            Ok(())
        }
        TNode::Part { whole, .. } => {
            add_expr(operands, whole)?;
            Ok(())
        }
        TNode::Apply { args, .. } => {
            add_exprs(operands, args, false)?;
            Ok(())
        }
        TNode::Assign { pattern, value } => {
            add_assigned(operands, pattern, value)?;
            Ok(())
        }
        TNode::Copy { array, from, value } => {
            add_three(operands, array, from, value)?;
            Ok(())
        }
        TNode::Call { args, .. } => {
            add_exprs(operands, args, false)?;
            Ok(())
        }
        TNode::Print {
            printed,
            file,
            args,
            ..
        } => {
            add_printed(operands, *printed, file, args)?;
            Ok(())
        }
        _ => Ok(()),
    }
}

/// The operands of a node that stands behind them, and none of another expression.
pub fn operands_of<'a>(alloc: Global, e: &'a TExpr) -> Result<Vec<Operand<'a>>, AllocError>
    ensures terms { IfOk result (λ operands. terms_in operands.items ≡ operands_in (term_of (view_expr e.now))) }
    ensures size { (defs : List Def) → IfOk result (λ operands. operands_size defs operands.items + 16
        ≤ expr_size defs (view_expr e.now)) }
{
    let mut operands = Vec::new(alloc);
    add_operands(&mut operands, e)?;
    Ok(operands)
}

/// The operands of a place.
pub fn place_operands<'a>(
    alloc: Global,
    node: &'a PlaceNode,
) -> Result<Vec<Operand<'a>>, AllocError>
    ensures terms { IfOk result (λ operands. terms_in operands.items ≡ operands_at (view_place_node node.now)) }
    ensures size { (defs : List Def) → IfOk result (λ operands. operands_size defs operands.items
        ≤ way_size defs (view_place_node node.now)) }
{
    let mut operands = Vec::new(alloc);
    add_place(&mut operands, node)?;
    Ok(operands)
}
