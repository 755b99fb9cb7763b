//! The code of statements. What is written last stands first.

ghost use Rattle.std.specs.Prelude.{◌≡◌, ◌+◌, ◌≤◌, ◌<◌, ◌^◌, [], ◌∷◌, ◌++◌, IfOk, OnOk, MatchOption, List, length, map, vec_len};
ghost use Rattle.limbo_typed.specs.View.{view_expr, view_boxed, view_stmt, view_stmts};
ghost use Rattle.typed_meaning.specs.Program as program;
ghost use Rattle.slot_code.specs.Code as slot;
ghost use Rattle.slot_code.specs.View.{view_spot, view_operand};
ghost use Rattle.typed_lower.specs.Kinds as kinds;
ghost use Rattle.typed_lower.specs.Sizes as sizes;
ghost use Rattle.typed_lower.specs.Sizes.{largest_frame};
ghost use Rattle.typed_lower.specs.Statements as statements;
ghost use Rattle.slot_writing.specs.Loops.{arounds_at, AreBehind, types_of, IsNotOne};
ghost use Rattle.slot_writing.specs.Loops as loops;
ghost use Rattle.slot_writing.specs.Terms.{view_term};
ghost use Rattle.slot_writing.specs.Weights.{weight};
ghost use Rattle.slot_writing.specs.Written.{written};

use crate::expressions::{emit_altered, emit_branches, emit_operated, emit_ready, emit_value};
use crate::kinds::{kind_in, kind_of, leaf_of};
use crate::operands::{operand_at, put};
use crate::terms::{Term, term_of};
use limbo_typed::{TExpr, TNode, TStmt, TVar};
use limbo_types::Ty;
use limbo_values::Kind;
use slot_code::{Inst, Operand, Spot};
use std::alloc::{AllocError, Global};

/// A loop around a statement: how many instructions are written where its next turn begins, and where it ends.
#[derive(Clone, Copy)]
pub(crate) struct Loop {
    pub turn: usize,
    pub end: usize,
}

// ---- expressions

// Writes the code of a term whose value goes nowhere.
#[tactic(auto, using(crate::proofs::Stated::other_effects))]
fn emit_effects(alloc: Global, code: &mut Vec<Inst>, term: Term<'_>) -> Result<(), AllocError>
    requires { weight (view_term term) ≤ largest_frame }
    ensures { OnOk result (written code.new.items ≡ statements.effects (view_term term.entry) ++ written code.old.items) }
{
    match term {
        Term::Store { into, value } => emit_value(alloc, code, term_of(value), 0, into.spot()),
        Term::Update {
            operation,
            into,
            value,
        } => {
            let left = Term::Read(into);
            emit_operated(alloc, code, operation, left, term_of(value), 0, into.spot())
        }
        Term::Step {
            operation,
            into,
            ..
        } => emit_altered(alloc, code, operation, Term::Read(into), 0, into.spot()),
        _ => {
            let kind = kind_in(term);
            emit_value(alloc, code, term, 1, Spot::Temporary { kind, number: 0 })
        }
    }
}

// Whether a node is what `load` gives.
#[tactic(auto, using(limbo_typed::proofs::View::the_exprs, crate::proofs::Others::assigns_not))]
fn loads(e: &TExpr) -> bool
    ensures { result ≡ loops.loads (view_expr e.now) }
{
    match &e.node {
        TNode::Assign { value, .. } => match &value.node {
            TNode::Load { .. } => true,
            _ => false,
        },
        _ => false,
    }
}

// Writes an expression as a statement.
#[tactic(auto, using(crate::proofs::Stated::loaded, crate::proofs::Stated::not_loaded))]
fn emit_done(alloc: Global, code: &mut Vec<Inst>, e: &TExpr) -> Result<(), AllocError>
    requires { sizes.expr_size (view_expr e.now) ≤ largest_frame }
    ensures { OnOk result (written code.new.items
        ≡ statements.done (program.evaluated (view_expr e.now)) ++ written code.old.items) }
{
    if loads(e) {
        Ok(())
    } else {
        emit_effects(alloc, code, term_of(e))
    }
}

// Writes what stands between two turns, or what a loop begins with.
fn emit_optional(
    alloc: Global,
    code: &mut Vec<Inst>,
    e: &Option<Box<TExpr>>,
) -> Result<(), AllocError>
    requires { sizes.optional_size (view_boxed e.now) ≤ largest_frame }
    ensures { OnOk result (written code.new.items ≡ statements.optional (view_boxed e.now) ++ written code.old.items) }
{
    match e {
        None => Ok(()),
        Some(e) => emit_done(alloc, code, e),
    }
}

// Writes a condition, which passes so many instructions where it doesn't hold.
fn emit_condition(
    alloc: Global,
    code: &mut Vec<Inst>,
    e: &Option<Box<TExpr>>,
    passes: usize,
) -> Result<(), AllocError>
    requires room { sizes.optional_size (view_boxed e.now) ≤ largest_frame }
    requires behind { passes ≤ vec_len code.old }
    ensures { OnOk result (written code.new.items ≡ statements.condition (view_boxed e.now) passes ++ written code.old.items) }
{
    match e {
        None => Ok(()),
        Some(e) => emit_branches(alloc, code, term_of(e), false, 0, passes),
    }
}

// Writes a `return`, with a value or without.
fn emit_returned(
    alloc: Global,
    code: &mut Vec<Inst>,
    e: &Option<Box<TExpr>>,
) -> Result<(), AllocError>
    requires { sizes.optional_size (view_boxed e.now) ≤ largest_frame }
    ensures { OnOk result (written code.new.items ≡ statements.returned (view_boxed e.now) ++ written code.old.items) }
{
    match e {
        None => put(code, Inst::Leave),
        Some(e) => {
            let term = term_of(e);
            let at = leaf_of(term);
            let value = operand_at(term, at, 0);
            put(code, Inst::Return { value })?;
            emit_ready(alloc, code, term, at, 0)
        }
    }
}

// ---- declarations

// Where the variable of this number is.
fn spot_of(variables: &[TVar], variable: u32) -> Spot
    ensures { view_spot result ≡ kinds.spot_of (program.local (types_of variables.now) variable) }
{
    let kind = match variables.get(variable as usize) {
        None => Kind::Int,
        Some(declared) => kind_of(&declared.ty),
    };
    Spot::Variable {
        kind,
        number: variable,
    }
}

// Writes that variables get a value, one after the other.
fn emit_moves(
    code: &mut Vec<Inst>,
    variables: &[TVar],
    declared: &[u32],
    from: Operand,
) -> Result<(), AllocError>
    ensures { OnOk result (written code.new.items
        ≡ statements.moves (map (program.local (types_of variables.now)) declared.now) (view_operand from) ++ written code.old.items) }
{
    match declared.split_first() {
        None => Ok(()),
        Some((variable, more)) => {
            emit_moves(code, variables, more, from)?;
            let into = spot_of(variables, *variable);
            put(code, Inst::Move { into, from })
        }
    }
}

// The one number of a list that has one.
fn only(numbers: &[u32]) -> Option<u32>
    ensures { MatchOption result (IsNotOne numbers.now) (λ x. numbers.now ≡ x ∷ []) }
{
    match numbers.split_first() {
        None => None,
        Some((number, more)) => match more.split_first() {
            None => Some(*number),
            Some(_) => None,
        },
    }
}

// Writes that variables get the value of a term, if they aren't one.
#[tactic(auto, using(crate::proofs::Stated::literal_sets, crate::proofs::Stated::other_sets))]
fn emit_several(
    alloc: Global,
    code: &mut Vec<Inst>,
    variables: &[TVar],
    declared: &[u32],
    term: Term<'_>,
) -> Result<(), AllocError>
    requires room { weight (view_term term) ≤ largest_frame }
    requires several { IsNotOne declared.now }
    ensures { OnOk result (written code.new.items
        ≡ statements.sets (map (program.local (types_of variables.now)) declared.now) (view_term term.entry) (kinds.leaf
        (view_term term.entry))
        ++ written code.old.items) }
{
    match term {
        Term::Literal { .. } => match leaf_of(term) {
            None => Ok(()),
            Some(from) => emit_moves(code, variables, declared, from),
        },
        _ => {
            let kind = kind_in(term);
            let kept = Spot::Temporary { kind, number: 0 };
            emit_moves(code, variables, declared, Operand::In(kept))?;
            emit_value(alloc, code, term, 1, kept)
        }
    }
}

// Writes that variables get the value of a term.
fn emit_sets(
    alloc: Global,
    code: &mut Vec<Inst>,
    variables: &[TVar],
    declared: &[u32],
    term: Term<'_>,
) -> Result<(), AllocError>
    requires { weight (view_term term) ≤ largest_frame }
    ensures { OnOk result (written code.new.items
        ≡ statements.sets (map (program.local (types_of variables.now)) declared.now) (view_term term.entry) (kinds.leaf
        (view_term term.entry))
        ++ written code.old.items) }
{
    match only(declared) {
        None => emit_several(alloc, code, variables, declared, term),
        Some(variable) => emit_value(alloc, code, term, 0, spot_of(variables, variable)),
    }
}

// Writes a declaration, which gives zero where no value is written.
fn emit_declared(
    alloc: Global,
    code: &mut Vec<Inst>,
    variables: &[TVar],
    declared: &[u32],
    value: &Option<Box<TExpr>>,
) -> Result<(), AllocError>
    requires { sizes.optional_size (view_boxed value.now) ≤ largest_frame }
    ensures { OnOk result (written code.new.items
        ≡ statements.sets (map (program.local (types_of variables.now)) declared.now)
        (program.declared_value (types_of variables.now) (view_boxed value.now))
        (kinds.leaf (program.declared_value (types_of variables.now) (view_boxed value.now)))
        ++ written code.old.items) }
{
    match value {
        None => {
            let zero = Term::Literal {
                ty: &Ty::Int,
                value: 0,
            };
            emit_sets(alloc, code, variables, declared, zero)
        }
        Some(e) => emit_sets(alloc, code, variables, declared, term_of(e)),
    }
}

// ---- jumps

// Writes a `break` of the loop of this number.
fn put_break(code: &mut Vec<Inst>, around: &[Loop], number: u32) -> Result<(), AllocError>
    requires { AreBehind (length code.old.items) around.now }
    ensures { OnOk result (written code.new.items
        ≡ slot.Jump (statements.around_at (arounds_at (length code.old.items) around.now) number).end ∷ written code.old.items) }
{
    let passes = match around.get(number as usize) {
        None => 0,
        Some(one) => code.len() - one.end,
    };
    put(code, Inst::Jump { passes })
}

// Writes a `continue` of it.
fn put_continue(code: &mut Vec<Inst>, around: &[Loop], number: u32) -> Result<(), AllocError>
    requires { AreBehind (length code.old.items) around.now }
    ensures { OnOk result (written code.new.items
        ≡ slot.Jump (statements.around_at (arounds_at (length code.old.items) around.now) number).turn ∷ written code.old.items) }
{
    let passes = match around.get(number as usize) {
        None => 0,
        Some(one) => code.len() - one.turn,
    };
    put(code, Inst::Jump { passes })
}

// One more loop around.
fn inside(alloc: Global, around: &[Loop], turn: usize, end: usize) -> Result<Vec<Loop>, AllocError>
    ensures { IfOk result (λ all. all.items ≡ record { turn = turn; end = end } ∷ around.now) }
{
    let mut all = Vec::new(alloc);
    all.push(Loop { turn, end })?;
    all.extend_from_slice(around)?;
    Ok(all)
}

// Writes how far back control goes at the end of a loop, over what was written there: the loop ended behind so many instructions.
fn put_back(code: &mut Vec<Inst>, mark: usize)
    requires { mark < vec_len code.old }
    ensures { (front back : List slot.Inst) (last : slot.Inst) → written code.old.items ≡ front ++ last ∷ back → length back ≡ mark
        → written code.new.items ≡ front ++ slot.Back (length front) ∷ back }
{
    let by = code.len() - mark - 1;
    code[mark] = Inst::Back { by };
}

// Writes the way round the other part of an `if`, which is written behind so many instructions.
fn put_round(code: &mut Vec<Inst>, mark: usize) -> Result<(), AllocError>
    requires { mark ≤ vec_len code.old }
    ensures { (other back : List slot.Inst) → written code.old.items ≡ other ++ back → length back ≡ mark
        → OnOk result (written code.new.items ≡ loops.round other ++ back) }
{
    let passes = code.len() - mark;
    if passes == 0 {
        return Ok(());
    }
    put(code, Inst::Jump { passes })
}

// ---- statements

// Writes an `if`.
#[cycle(statements)]
fn emit_if(
    alloc: Global,
    code: &mut Vec<Inst>,
    variables: &[TVar],
    around: &[Loop],
    condition: &TExpr,
    then: &[TStmt],
    other: &[TStmt],
) -> Result<(), AllocError>
    requires test { sizes.expr_size (view_expr condition.now) ≤ largest_frame }
    requires first { sizes.stmts_size (view_stmts then.now) ≤ largest_frame }
    requires second { sizes.stmts_size (view_stmts other.now) ≤ largest_frame }
    requires behind { AreBehind (length code.old.items) around.now }
    ensures { OnOk result (written code.new.items
        ≡ loops.chosen (types_of variables.now) (arounds_at (length code.old.items) around.now) (view_expr condition.now)
        (view_stmts then.now) (view_stmts other.now)
        ++ written code.old.items) }
{
    let mark = code.len();
    emit_stmts(alloc, code, variables, around, other)?;
    let passed = code.len();
    put_round(code, mark)?;
    emit_stmts(alloc, code, variables, around, then)?;
    let passes = code.len() - passed;
    emit_branches(alloc, code, term_of(condition), false, 0, passes)
}

// Writes a loop that tests first, from its body on: the way back, and what stands between two turns, are written.
#[cycle(statements)]
fn emit_turns(
    alloc: Global,
    code: &mut Vec<Inst>,
    variables: &[TVar],
    around: &[Loop],
    mark: usize,
    condition: &Option<Box<TExpr>>,
    body: &[TStmt],
) -> Result<(), AllocError>
    requires test { sizes.optional_size (view_boxed condition.now) ≤ largest_frame }
    requires inner { sizes.stmts_size (view_stmts body.now) ≤ largest_frame }
    requires behind { AreBehind mark around.now }
    requires begun { mark < vec_len code.old }
    ensures { (next back : List slot.Inst) (last : slot.Inst) → written code.old.items ≡ next ++ last ∷ back → length back ≡ mark
        → OnOk result (written code.new.items
        ≡ loops.looped (types_of variables.now) (arounds_at mark around.now) (view_boxed condition.now) next (view_stmts body.now)
        ++ back) }
{
    let all = inside(alloc, around, code.len(), mark)?;
    emit_stmts(alloc, code, variables, &all, body)?;
    let passes = code.len() - mark;
    emit_condition(alloc, code, condition, passes)?;
    put_back(code, mark);
    Ok(())
}

// Writes a loop that tests last.
#[cycle(statements)]
fn emit_do(
    alloc: Global,
    code: &mut Vec<Inst>,
    variables: &[TVar],
    around: &[Loop],
    condition: &Option<Box<TExpr>>,
    body: &[TStmt],
) -> Result<(), AllocError>
    requires test { sizes.optional_size (view_boxed condition.now) ≤ largest_frame }
    requires inner { sizes.stmts_size (view_stmts body.now) ≤ largest_frame }
    requires behind { AreBehind (length code.old.items) around.now }
    ensures { OnOk result (written code.new.items
        ≡ loops.done_first (types_of variables.now) (arounds_at (length code.old.items) around.now) (view_boxed condition.now)
        (view_stmts body.now)
        ++ written code.old.items) }
{
    let mark = code.len();
    put(code, Inst::Back { by: 0 })?;
    emit_condition(alloc, code, condition, 1)?;
    let all = inside(alloc, around, code.len(), mark)?;
    emit_stmts(alloc, code, variables, &all, body)?;
    put_back(code, mark);
    Ok(())
}

// Writes a `while`.
#[cycle(statements)]
fn emit_while(
    alloc: Global,
    code: &mut Vec<Inst>,
    variables: &[TVar],
    around: &[Loop],
    condition: &Option<Box<TExpr>>,
    body: &[TStmt],
) -> Result<(), AllocError>
    requires test { sizes.optional_size (view_boxed condition.now) ≤ largest_frame }
    requires inner { sizes.stmts_size (view_stmts body.now) ≤ largest_frame }
    requires behind { AreBehind (length code.old.items) around.now }
    ensures { OnOk result (written code.new.items
        ≡ loops.looped (types_of variables.now) (arounds_at (length code.old.items) around.now) (view_boxed condition.now) []
        (view_stmts body.now)
        ++ written code.old.items) }
{
    let mark = code.len();
    put(code, Inst::Back { by: 0 })?;
    emit_turns(alloc, code, variables, around, mark, condition, body)
}

// Writes a `for` behind what it begins with.
#[cycle(statements)]
fn emit_for(
    alloc: Global,
    code: &mut Vec<Inst>,
    variables: &[TVar],
    around: &[Loop],
    condition: &Option<Box<TExpr>>,
    next: &Option<Box<TExpr>>,
    body: &[TStmt],
) -> Result<(), AllocError>
    requires test { sizes.optional_size (view_boxed condition.now) ≤ largest_frame }
    requires step { sizes.optional_size (view_boxed next.now) ≤ largest_frame }
    requires inner { sizes.stmts_size (view_stmts body.now) ≤ largest_frame }
    requires behind { AreBehind (length code.old.items) around.now }
    ensures { OnOk result (written code.new.items
        ≡ loops.looped (types_of variables.now) (arounds_at (length code.old.items) around.now) (view_boxed condition.now)
        (statements.optional (view_boxed next.now)) (view_stmts body.now)
        ++ written code.old.items) }
{
    let mark = code.len();
    put(code, Inst::Back { by: 0 })?;
    emit_optional(alloc, code, next)?;
    emit_turns(alloc, code, variables, around, mark, condition, body)
}

// Writes a statement.
#[cycle(statements)]
fn emit_stmt(
    alloc: Global,
    code: &mut Vec<Inst>,
    variables: &[TVar],
    around: &[Loop],
    s: &TStmt,
) -> Result<(), AllocError>
    requires room { sizes.stmt_size (view_stmt s.now) ≤ largest_frame }
    requires behind { AreBehind (length code.old.items) around.now }
    ensures { OnOk result (written code.new.items
        ≡ statements.stmt_code (types_of variables.now) (arounds_at (length code.old.items) around.now) (view_stmt s.now)
        ++ written code.old.items) }
{
    match s {
        TStmt::Block(body) => emit_stmts(alloc, code, variables, around, body),
        TStmt::Declare {
            variables: declared,
            value,
        } => emit_declared(alloc, code, variables, declared, value),
        TStmt::Eval(e) => emit_done(alloc, code, e),
        TStmt::If {
            condition,
            then,
            other,
        } => emit_if(alloc, code, variables, around, condition, then, other),
        TStmt::While { condition, body } => {
            emit_while(alloc, code, variables, around, condition, body)
        }
        TStmt::Do { body, condition } => {
            emit_do(alloc, code, variables, around, condition, body)
        }
        TStmt::For {
            first,
            condition,
            next,
            body,
        } => {
            emit_for(alloc, code, variables, around, condition, next, body)?;
            emit_optional(alloc, code, first)
        }
        TStmt::Break(number) => put_break(code, around, *number),
        TStmt::Continue(number) => put_continue(code, around, *number),
        TStmt::Return(value) => emit_returned(alloc, code, value),
        _ => Ok(()),
    }
}

/// Writes statements in a row.
#[cycle(statements)]
pub(crate) fn emit_stmts(
    alloc: Global,
    code: &mut Vec<Inst>,
    variables: &[TVar],
    around: &[Loop],
    body: &[TStmt],
) -> Result<(), AllocError>
    requires room { sizes.stmts_size (view_stmts body.now) ≤ largest_frame }
    requires behind { AreBehind (length code.old.items) around.now }
    ensures { OnOk result (written code.new.items
        ≡ statements.stmts_code (types_of variables.now) (arounds_at (length code.old.items) around.now) (view_stmts body.now)
        ++ written code.old.items) }
{
    let mut i = body.len();
    while 0 < i {
        i -= 1;
        emit_stmt(alloc, code, variables, around, &body[i])?;
    }
    Ok(())
}
