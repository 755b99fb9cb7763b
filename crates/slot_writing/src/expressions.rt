//! The code of expressions: it evaluates a term and leaves its value at a place. What is written last stands first.

ghost use Rattle.std.specs.Prelude.{◌≡◌, ◌+◌, ◌≤◌, ◌^◌, suc, ◌∷◌, ◌++◌, OnOk, option_map, vec_len};
ghost use Rattle.limbo_typed.specs.View.{view_expr, view_exprs};
ghost use Rattle.typed_meaning.specs.Program as program;
ghost use Rattle.slot_code.specs.Code as slot;
ghost use Rattle.slot_code.specs.View.{view_spot, view_operand};
ghost use Rattle.typed_lower.specs.Kinds as kinds;
ghost use Rattle.typed_lower.specs.Terms as terms;
ghost use Rattle.typed_lower.specs.Terms.{code_of, branches, one, two, part_of, parts_of};
ghost use Rattle.slot_writing.specs.Operands.{ready_at};
ghost use Rattle.slot_writing.specs.Operands as operands;
ghost use Rattle.slot_writing.specs.Terms.{view_term, view_taker, arguments};
ghost use Rattle.slot_writing.specs.Weights.{weight, weights};
ghost use Rattle.slot_writing.specs.Written.{written};

use crate::conditions::{Condition, Operands, condition_of, decides, operands_of, passed};
use crate::kinds::{
    kind_in, kind_of, leaf_of, left_taking, makes_call, right_taking, standing, taken,
};
use crate::operands::{
    operand_at, put, put_answer, put_branch, put_kept, put_leaf, put_old, put_taker, put_test,
    put_truth,
};
use crate::terms::{Taker, Term, term_of};
use limbo_typed::{Connective, Given, Operation, TExpr};
use limbo_values::Kind;
use slot_code::{Inst, Operand, Spot};
use std::alloc::{AllocError, Global};
use typed_lower::Taking;

/// Writes what a term needs before an instruction takes it: nothing where it stands there.
#[cycle(expressions)]
pub(crate) fn emit_ready(
    alloc: Global,
    code: &mut Vec<Inst>,
    term: Term<'_>,
    at: Option<Operand>,
    d: u32,
) -> Result<(), AllocError>
    requires { d + weight (view_term term) + 1 ≤ 2 ^ 31 }
    ensures { OnOk result (written code.new.items
        ≡ (ready_at d (view_term term.entry) (option_map view_operand at)).before ++ written code.old.items) }
{
    match at {
        Some(_) => Ok(()),
        None => {
            let kind = kind_in(term);
            emit_value(
                alloc,
                code,
                term,
                d + 1,
                Spot::Temporary { kind, number: d },
            )
        }
    }
}

// Writes what two terms need before an instruction takes both.
#[cycle(expressions)]
fn emit_operands(
    alloc: Global,
    code: &mut Vec<Inst>,
    first: Taking,
    second: Taking,
    left: Term<'_>,
    right: Term<'_>,
    d: u32,
) -> Result<(), AllocError>
    requires { d + (weight (view_term left) + weight (view_term right)) + 2 ≤ 2 ^ 31 }
    ensures { OnOk result (written code.new.items
        ≡ (ready_at d (view_term left.entry) (operands.standing first (view_term left.entry) (view_term right.entry))).before
        ++ (ready_at (suc d) (view_term right.entry) (operands.taken second (view_term right.entry))).before ++ written code.old.items) }
{
    emit_ready(alloc, code, right, taken(second, right), d + 1)?;
    emit_ready(alloc, code, left, standing(first, left, right), d)
}

// Writes an operation on one value.
#[cycle(expressions)]
pub(crate) fn emit_altered(
    alloc: Global,
    code: &mut Vec<Inst>,
    operation: Operation,
    term: Term<'_>,
    d: u32,
    into: Spot,
) -> Result<(), AllocError>
    requires { d + weight (view_term term) + 1 ≤ 2 ^ 31 }
    ensures { OnOk result (written code.new.items
        ≡ one (ready_at d (view_term term.entry) (operands.taken (terms.left_taking operation) (view_term term.entry)))
        (λ x. slot.Alter operation (view_spot into) x)
        ++ written code.old.items) }
{
    let at = taken(left_taking(operation), term);
    let of = operand_at(term, at, d);
    put(
        code,
        Inst::Alter {
            operation,
            into,
            of,
        },
    )?;
    emit_ready(alloc, code, term, at, d)
}

// Writes an operation on two values.
#[cycle(expressions)]
pub(crate) fn emit_operated(
    alloc: Global,
    code: &mut Vec<Inst>,
    operation: Operation,
    left: Term<'_>,
    right: Term<'_>,
    d: u32,
    into: Spot,
) -> Result<(), AllocError>
    requires { d + (weight (view_term left) + weight (view_term right)) + 2 ≤ 2 ^ 31 }
    ensures { OnOk result (written code.new.items
        ≡ two (ready_at d (view_term left.entry) (operands.standing (terms.left_taking operation) (view_term left.entry)
        (view_term right.entry)))
        (ready_at (suc d) (view_term right.entry) (operands.taken (terms.right_taking operation) (view_term right.entry)))
        (λ x y. slot.Operate operation (view_spot into) x y)
        ++ written code.old.items) }
{
    let before = left_taking(operation);
    let behind = right_taking(operation);
    let first = operand_at(left, standing(before, left, right), d);
    let second = operand_at(right, taken(behind, right), d + 1);
    put(
        code,
        Inst::Operate {
            operation,
            into,
            left: first,
            right: second,
        },
    )?;
    emit_operands(alloc, code, before, behind, left, right, d)
}

// Writes what an operation gives.
#[cycle(expressions)]
fn emit_applied(
    alloc: Global,
    code: &mut Vec<Inst>,
    operation: Operation,
    args: &[TExpr],
    d: u32,
    into: Spot,
) -> Result<(), AllocError>
    requires { d + weights (program.terms_of (view_exprs args.now)) + 2 ≤ 2 ^ 31 }
    ensures { OnOk result (written code.new.items
        ≡ terms.applied operation (parts_of (program.terms_of (view_exprs args.now))) d (view_spot into) ++ written code.old.items) }
{
    match operands_of(args) {
        Operands::One(e) => emit_altered(alloc, code, operation, term_of(e), d, into),
        Operands::Two(left, right) => {
            emit_operated(
                alloc,
                code,
                operation,
                term_of(left),
                term_of(right),
                d,
                into,
            )
        }
        Operands::Other => Ok(()),
    }
}

// Writes `&&` or `||` as a condition.
#[cycle(expressions)]
fn emit_connected(
    alloc: Global,
    code: &mut Vec<Inst>,
    connective: Connective,
    left: Term<'_>,
    right: Term<'_>,
    where_true: bool,
    d: u32,
    passes: usize,
) -> Result<(), AllocError>
    requires room { d + (weight (view_term left) + weight (view_term right)) + 1 ≤ 2 ^ 31 }
    requires behind { passes ≤ vec_len code.old }
    ensures { OnOk result (written code.new.items
        ≡ terms.connected connective (part_of (view_term left.entry)) (part_of (view_term right.entry)) where_true d passes
        ++ written code.old.items) }
{
    let mark = code.len();
    emit_branches(alloc, code, right, where_true, d, passes)?;
    let through = passed(connective, where_true, code.len() - mark, passes);
    emit_branches(alloc, code, left, decides(connective), d, through)
}

/// Writes a condition, from where control passes so many instructions where it holds, or where it doesn't.
#[cycle(expressions)]
pub(crate) fn emit_branches(
    alloc: Global,
    code: &mut Vec<Inst>,
    term: Term<'_>,
    where_true: bool,
    d: u32,
    passes: usize,
) -> Result<(), AllocError>
    requires room { d + weight (view_term term) + 1 ≤ 2 ^ 31 }
    requires behind { passes ≤ vec_len code.old }
    ensures { OnOk result (written code.new.items ≡ branches where_true d (view_term term.entry) passes ++ written code.old.items) }
{
    match condition_of(term) {
        Condition::Connected {
            connective,
            left,
            right,
        } => emit_connected(
            alloc,
            code,
            connective,
            term_of(left),
            term_of(right),
            where_true,
            d,
            passes,
        ),
        Condition::Compared {
            comparison,
            kind,
            left,
            right,
        } => {
            let left = term_of(left);
            let right = term_of(right);
            let first = operand_at(left, standing(Taking::Own, left, right), d);
            let second = operand_at(right, taken(Taking::Short, right), d + 1);
            put_branch(code, where_true, kind, comparison, first, second, passes)?;
            emit_operands(alloc, code, Taking::Own, Taking::Short, left, right, d)
        }
        Condition::Tested => {
            put_test(code, term, where_true, d, passes)?;
            emit_ready(alloc, code, term, leaf_of(term), d)
        }
    }
}

// Writes the arguments from one on, each where the call takes it.
#[cycle(expressions)]
fn emit_rest(
    alloc: Global,
    code: &mut Vec<Inst>,
    taker: Taker<'_>,
    args: &[TExpr],
    number: u32,
    d: u32,
) -> Result<(), AllocError>
    requires numbers { number + weights (arguments taker (view_exprs args.now)) ≤ 2 ^ 31 }
    requires room { d + weights (arguments taker (view_exprs args.now)) ≤ 2 ^ 31 }
    ensures { OnOk result (written code.new.items
        ≡ terms.all_put number (parts_of (arguments taker.entry (view_exprs args.now))) d ++ written code.old.items) }
{
    match args.split_first() {
        None => Ok(()),
        Some((e, rest)) => {
            emit_rest(alloc, code, taker, rest, number + 1, d)?;
            let term = taker.argument(e);
            let kind = kind_in(term);
            emit_value(alloc, code, term, d, Spot::Argument { kind, number })
        }
    }
}

// Writes that a call or a print is made ready, and its first argument.
#[cycle(expressions)]
fn emit_first(
    alloc: Global,
    code: &mut Vec<Inst>,
    taker: Taker<'_>,
    term: Term<'_>,
    d: u32,
) -> Result<(), AllocError>
    requires { d + weight (view_term term) + 1 ≤ 2 ^ 31 }
    ensures { OnOk result (written code.new.items
        ≡ terms.first_put (kinds.makes_call (view_term term.entry)) (part_of (view_term term.entry)) (view_taker taker.entry) d
        ++ written code.old.items) }
{
    let kind = kind_in(term);
    let into = Spot::Argument { kind, number: 0 };
    if makes_call(term) {
        let kept = Spot::Temporary { kind, number: d };
        let from = Operand::In(kept);
        put(code, Inst::Hand { into, from })?;
        put_taker(alloc, code, taker)?;
        emit_value(alloc, code, term, d + 1, kept)
    } else {
        emit_value(alloc, code, term, d, into)?;
        put_taker(alloc, code, taker)
    }
}

// Writes what stands in front of a call or a print.
#[cycle(expressions)]
fn emit_arguments(
    alloc: Global,
    code: &mut Vec<Inst>,
    taker: Taker<'_>,
    args: &[TExpr],
    d: u32,
) -> Result<(), AllocError>
    requires { d + weights (arguments taker (view_exprs args.now)) + 1 ≤ 2 ^ 31 }
    ensures { OnOk result (written code.new.items
        ≡ terms.made_ready (view_taker taker.entry) (parts_of (arguments taker.entry (view_exprs args.now))) d
        ++ written code.old.items) }
{
    match args.split_first() {
        None => put_taker(alloc, code, taker),
        Some((e, rest)) => {
            emit_rest(alloc, code, taker, rest, 1, d)?;
            emit_first(alloc, code, taker, taker.argument(e), d)
        }
    }
}

/// Writes the code of a term, which leaves its value at a place.
#[cycle(expressions)]
pub(crate) fn emit_value(
    alloc: Global,
    code: &mut Vec<Inst>,
    term: Term<'_>,
    d: u32,
    into: Spot,
) -> Result<(), AllocError>
    requires { d + weight (view_term term) ≤ 2 ^ 31 }
    ensures { OnOk result (written code.new.items ≡ code_of d (view_term term.entry) (view_spot into) ++ written code.old.items) }
{
    match term {
        Term::Missing => Ok(()),
        Term::Literal { .. } => put_leaf(code, term, into),
        Term::Read(_) => put_leaf(code, term, into),
        Term::Apply { operation, args } => emit_applied(alloc, code, operation, args, d, into),
        Term::Widened(e) => {
            let operation = Operation::Convert {
                from: Kind::Byte,
                to: Kind::Int,
            };
            emit_altered(alloc, code, operation, term_of(e), d, into)
        }
        Term::Lazy {
            connective,
            left,
            right,
        } => {
            put_truth(code, into)?;
            emit_connected(
                alloc,
                code,
                connective,
                term_of(left),
                term_of(right),
                false,
                d,
                2,
            )
        }
        Term::Store {
            into: variable,
            value,
        } => {
            let value = term_of(value);
            let kind = kind_in(value);
            let kept = Spot::Temporary { kind, number: d };
            put_kept(code, variable.spot(), kept, into)?;
            emit_value(alloc, code, value, d + 1, kept)
        }
        Term::Update {
            operation,
            into: variable,
            value,
        } => {
            let kind = variable.kind();
            let kept = Spot::Temporary { kind, number: d };
            put_kept(code, variable.spot(), kept, into)?;
            let left = Term::Read(variable);
            emit_operated(alloc, code, operation, left, term_of(value), d, kept)
        }
        Term::Step {
            operation,
            given,
            into: variable,
        } => match given {
            Given::Old => put_old(code, operation, variable, d, into),
            Given::New => {
                let kind = variable.kind();
                let kept = Spot::Temporary { kind, number: d };
                put_kept(code, variable.spot(), kept, into)?;
                emit_altered(alloc, code, operation, Term::Read(variable), d, kept)
            }
        },
        Term::Call { ty, function, args } => {
            let kind = kind_of(ty);
            let arguments = args.len();
            put(
                code,
                Inst::Call {
                    kind,
                    function,
                    arguments,
                    into,
                },
            )?;
            emit_arguments(alloc, code, Taker::Function(function), args, d)
        }
        Term::Print { format, args } => {
            put_answer(code, args.len(), d, into)?;
            emit_arguments(alloc, code, Taker::Format(format), args, d)
        }
    }
}
