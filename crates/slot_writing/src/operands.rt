//! Instructions and their operands. What is written last stands first.

ghost use Rattle.std.specs.Prelude.{◌≡◌, [], ◌∷◌, ◌++◌, IfOk, OnOk, option_map, pos};
ghost use Rattle.slot_code.specs.Code as slot;
ghost use Rattle.slot_code.specs.Code.{Temporary, In, Number};
ghost use Rattle.slot_code.specs.View.{view_spot, view_operand, view_inst};
ghost use Rattle.limbo_values.specs.declared.number.Kind.TheVariants.{Int};
ghost use Rattle.limbo_values.specs.declared.operator.Comparison.TheVariants.{Unequal};
ghost use Rattle.typed_lower.specs.Kinds as kinds;
ghost use Rattle.typed_lower.specs.Terms as terms;
ghost use Rattle.slot_writing.specs.Operands as operands;
ghost use Rattle.slot_writing.specs.Terms.{view_variable, view_term, view_taker};
ghost use Rattle.slot_writing.specs.Written.{written};

use crate::kinds::{kind_in, leaf_of};
use crate::terms::{Taker, Term, Variable};
use limbo_typed::{Operation, Piece};
use limbo_values::{Comparison, Kind};
use slot_code::{Inst, Operand, Spot};
use std::alloc::{AllocError, Global};

/// Writes one instruction.
#[tactic(auto, using(crate::proofs::Written::written_put))]
pub(crate) fn put(code: &mut Vec<Inst>, inst: Inst) -> Result<(), AllocError>
    ensures { OnOk result (written code.new.items ≡ view_inst inst ∷ written code.old.items) }
{
    code.push(inst)?;
    Ok(())
}

// The comparison that holds where this one doesn't.
fn opposite(comparison: Comparison) -> Comparison
    ensures { result ≡ terms.opposite comparison }
{
    match comparison {
        Comparison::Equal => Comparison::Unequal,
        Comparison::Unequal => Comparison::Equal,
        Comparison::Less => Comparison::AtLeast,
        Comparison::AtMost => Comparison::Greater,
        Comparison::Greater => Comparison::AtMost,
        Comparison::AtLeast => Comparison::Less,
    }
}

/// Writes a branch where a comparison holds, or where it doesn't.
pub(crate) fn put_branch(
    code: &mut Vec<Inst>,
    where_true: bool,
    kind: Kind,
    comparison: Comparison,
    left: Operand,
    right: Operand,
    passes: usize,
) -> Result<(), AllocError>
    ensures { OnOk result (written code.new.items
        ≡ terms.branch where_true kind comparison (view_operand left) (view_operand right) passes ∷ written code.old.items) }
{
    let comparison = if where_true {
        comparison
    } else {
        opposite(comparison)
    };
    put(
        code,
        Inst::Branch {
            kind,
            comparison,
            left,
            right,
            passes,
        },
    )
}

/// What an instruction takes of a term that stands there, or that a temporary has.
pub(crate) fn operand_at(term: Term<'_>, at: Option<Operand>, d: u32) -> Operand
    ensures { view_operand result ≡ (operands.ready_at d (view_term term.entry) (option_map view_operand at)).operand }
{
    match at {
        Some(operand) => operand,
        None => Operand::In(Spot::Temporary {
            kind: kind_in(term),
            number: d,
        }),
    }
}

/// Writes the test of a term's value.
pub(crate) fn put_test(
    code: &mut Vec<Inst>,
    term: Term<'_>,
    where_true: bool,
    d: u32,
    passes: usize,
) -> Result<(), AllocError>
    ensures { OnOk result (written code.new.items
        ≡ terms.branch where_true (kinds.kind_in (view_term term.entry)) Unequal
        (operands.ready_at d (view_term term.entry) (kinds.leaf (view_term term.entry))).operand (Number (pos 0)) passes
        ∷ written code.old.items) }
{
    let left = operand_at(term, leaf_of(term), d);
    put_branch(
        code,
        where_true,
        kind_in(term),
        Comparison::Unequal,
        left,
        Operand::Number(0),
        passes,
    )
}

/// Writes a move of a leaf.
pub(crate) fn put_leaf(code: &mut Vec<Inst>, term: Term<'_>, into: Spot) -> Result<(), AllocError>
    ensures { OnOk result (written code.new.items
        ≡ terms.from_leaf (kinds.leaf (view_term term.entry)) (view_spot into) ++ written code.old.items) }
{
    match leaf_of(term) {
        None => Ok(()),
        Some(from) => put(code, Inst::Move { into, from }),
    }
}

/// Writes where a value goes that stands in a temporary: into a place, and on.
pub(crate) fn put_kept(
    code: &mut Vec<Inst>,
    to: Spot,
    kept: Spot,
    into: Spot,
) -> Result<(), AllocError>
    ensures { OnOk result (written code.new.items
        ≡ slot.Move (view_spot to) (In (view_spot kept)) ∷ slot.Hand (view_spot into) (In (view_spot kept)) ∷ written code.old.items) }
{
    let from = Operand::In(kept);
    put(code, Inst::Hand { into, from })?;
    put(code, Inst::Move { into: to, from })
}

/// Writes what stands behind the code of a condition whose 1 or 0 is asked for.
pub(crate) fn put_truth(code: &mut Vec<Inst>, into: Spot) -> Result<(), AllocError>
    ensures { OnOk result (written code.new.items
        ≡ slot.Hand (view_spot into) (Number (pos 1)) ∷ slot.Skip 1 ∷ slot.Hand (view_spot into) (Number (pos 0))
        ∷ written code.old.items) }
{
    let from = Operand::Number(0);
    put(code, Inst::Hand { into, from })?;
    put(code, Inst::Skip { passes: 1 })?;
    let from = Operand::Number(1);
    put(code, Inst::Hand { into, from })
}

/// Writes `++` or `--` behind a place, whose old value goes to a temporary first.
pub(crate) fn put_old(
    code: &mut Vec<Inst>,
    operation: Operation,
    variable: Variable<'_>,
    d: u32,
    into: Spot,
) -> Result<(), AllocError>
    ensures { OnOk result (written code.new.items
        ≡ slot.Move (Temporary (kinds.kind_at (view_variable variable.entry)) d) (In (kinds.spot_of (view_variable variable.entry)))
        ∷ slot.Alter operation (kinds.spot_of (view_variable variable.entry)) (In (Temporary (kinds.kind_at
        (view_variable variable.entry)) d))
        ∷ slot.Hand (view_spot into) (In (Temporary (kinds.kind_at (view_variable variable.entry)) d)) ∷ written code.old.items) }
{
    let to = variable.spot();
    let kept = Spot::Temporary {
        kind: variable.kind(),
        number: d,
    };
    let of = Operand::In(kept);
    put(code, Inst::Hand { into, from: of })?;
    put(
        code,
        Inst::Alter {
            operation,
            into: to,
            of,
        },
    )?;
    let from = Operand::In(to);
    put(code, Inst::Move { into: kept, from })
}

/// Writes a print, whose answer comes to a temporary and is handed on.
pub(crate) fn put_answer(
    code: &mut Vec<Inst>,
    arguments: usize,
    d: u32,
    into: Spot,
) -> Result<(), AllocError>
    ensures { OnOk result (written code.new.items ≡ terms.answered arguments d (view_spot into) ++ written code.old.items) }
{
    let answer = Spot::Temporary {
        kind: Kind::Int,
        number: d,
    };
    let from = Operand::In(answer);
    put(code, Inst::Hand { into, from })?;
    put(
        code,
        Inst::Print {
            arguments,
            into: answer,
        },
    )
}

fn copied_piece(piece: &Piece) -> Result<Piece, AllocError>
    ensures { IfOk result (λ p. p ≡ piece.now) }
{
    match piece {
        Piece::Chars(text) => Ok(Piece::Chars(text.clone()?)),
        Piece::Hole(hole) => Ok(Piece::Hole(*hole)),
    }
}

// The pieces of a format once more.
fn copied(alloc: Global, pieces: &[Piece]) -> Result<Vec<Piece>, AllocError>
    ensures { IfOk result (λ v. v.items ≡ pieces.now) }
{
    let mut copies = Vec::new(alloc);
    for piece in pieces {
        copies.push(copied_piece(piece)?)?;
    }
    Ok(copies)
}

/// Writes that a call or a print is made ready.
pub(crate) fn put_taker(
    alloc: Global,
    code: &mut Vec<Inst>,
    taker: Taker<'_>,
) -> Result<(), AllocError>
    ensures { OnOk result (written code.new.items ≡ view_taker taker.entry ∷ written code.old.items) }
{
    match taker {
        Taker::Function(function) => put(code, Inst::Begin { function }),
        Taker::Format(format) => {
            let pieces = copied(alloc, format)?;
            put(code, Inst::Format { pieces })
        }
    }
}
