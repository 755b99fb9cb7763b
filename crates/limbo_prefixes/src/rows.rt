//! The table of operators before one operand: for an operand of which type there is a row, and what it says.

ghost use Rattle.std.specs.Prelude.{◌≡◌, IfOk, IfSome, IfNone, option_map};
ghost use Rattle.limbo_types.specs.Types.{Byte, ArrayOf};
ghost use Rattle.limbo_types.specs.View.{view_ty};
ghost use Rattle.limbo_layout.specs.View.{view_defs};
ghost use Rattle.limbo_prefixes.specs.Rows as rows;
ghost use Rattle.limbo_prefixes.specs.Rows.{UnaryRow, BytesRow};
ghost use Rattle.limbo_prefixes.specs.Choosing as choosing;
ghost use Rattle.limbo_prefixes.specs.RowView.{view_one};

use crate::signs::{altering, converting};
use limbo_forms::{
    is_bytes, is_int, is_settled, is_text, item_of, kind_of, of_kind, ref_of, sequence_of,
};
use limbo_layout::AdtDef;
use limbo_tree::UnaryOp;
use limbo_typed::Operation;
use limbo_types::{Ty, copy};
use limbo_values::{Kind, Unary};
use std::alloc::{AllocError, Global};

/// A row for one operand.
#[derive(Drop)]
pub struct OneRow {
    pub operand: Ty,
    pub operation: Operation,
    pub result: Ty,
}

// An operator on one number.
#[tactic(auto, using(limbo_types::proofs::View::the_types))]
fn alter_row(unary: Unary, t: &Ty) -> Option<OneRow>
    ensures { option_map view_one result ≡ choosing.alter_row unary (view_ty t.now) }
{
    let kind = kind_of(t)?;
    Some(OneRow {
        operand: of_kind(kind),
        operation: Operation::Alter { unary, kind },
        result: of_kind(kind),
    })
}

#[tactic(auto, using(crate::proofs::Others::not_byte_kind))]
fn is_byte_kind(kind: Kind) -> bool
    ensures { result ≡ choosing.is_byte_kind kind }
{
    matches!(kind, Kind::Byte)
}

// `byte`, `int` and `big` of a number, and `int` and `big` of a string.
#[tactic(auto, using(limbo_types::proofs::View::the_types))]
fn convert_row(to: Kind, t: &Ty) -> Option<OneRow>
    ensures { option_map view_one result ≡ choosing.convert_row to (view_ty t.now) }
{
    if let Some(from) = kind_of(t) {
        return Some(OneRow {
            operand: of_kind(from),
            operation: Operation::Convert { from, to },
            result: of_kind(to),
        });
    }
    if !is_text(t) || is_byte_kind(to) {
        return None;
    }
    Some(OneRow {
        operand: Ty::Chars,
        operation: Operation::ReadNumber(to),
        result: of_kind(to),
    })
}

// The type `array of byte`.
#[tactic(auto, using(limbo_types::proofs::View::the_types))]
fn bytes(alloc: Global) -> Result<Ty, AllocError>
    ensures { IfOk result (λ t. view_ty t ≡ ArrayOf Byte) }
{
    Ok(Ty::Array(Box::new(alloc, Ty::Byte)?))
}

// `string` of a number and of an array of bytes.
#[tactic(auto, using(limbo_types::proofs::View::the_types))]
fn string_row(alloc: Global, t: &Ty) -> Result<Option<OneRow>, AllocError>
    ensures { IfOk result (λ r. option_map view_one r ≡ choosing.string_row (view_ty t.now)) }
{
    if let Some(kind) = kind_of(t) {
        return Ok(Some(OneRow {
            operand: of_kind(kind),
            operation: Operation::NumberText(kind),
            result: Ty::Chars,
        }));
    }
    if !is_bytes(t) {
        return Ok(None);
    }
    Ok(Some(OneRow {
        operand: bytes(alloc)?,
        operation: Operation::BytesText,
        result: Ty::Chars,
    }))
}

#[tactic(auto, using(limbo_types::proofs::View::the_types))]
fn length_row(alloc: Global, t: &Ty) -> Result<Option<OneRow>, AllocError>
    ensures { IfOk result (λ r. option_map view_one r ≡ choosing.length_row (view_ty t.now)) }
{
    let Some(sequence) = sequence_of(t) else {
        return Ok(None);
    };
    if !is_settled(t) {
        return Ok(None);
    }
    Ok(Some(OneRow {
        operand: copy(alloc, t)?,
        operation: Operation::Length(sequence),
        result: Ty::Int,
    }))
}

// Whether an adt of this number has variants.
fn is_pick(defs: &[AdtDef], number: u32) -> bool
    ensures { result ≡ choosing.is_pick (view_defs defs.now) number }
{
    match defs.get(number as usize) {
        Some(def) => !def.picks.is_empty(),
        None => false,
    }
}

#[tactic(auto, using(limbo_types::proofs::View::the_types))]
fn tag_row(alloc: Global, defs: &[AdtDef], t: &Ty) -> Result<Option<OneRow>, AllocError>
    ensures { IfOk result (λ r. option_map view_one r ≡ choosing.tag_row (view_defs defs.now) (view_ty t.now)) }
{
    let Some(adt) = ref_of(t) else {
        return Ok(None);
    };
    if !is_pick(defs, adt) {
        return Ok(None);
    }
    Ok(Some(OneRow {
        operand: copy(alloc, t)?,
        operation: Operation::Tag,
        result: Ty::Int,
    }))
}

// The type of a list's items, where it is known.
fn settled_item(t: &Ty) -> Option<&Ty>
    ensures { option_map (λ i. view_ty i.now) result ≡ choosing.settled_item (view_ty t.now) }
{
    let item = item_of(t)?;
    if is_settled(item) { Some(item) } else { None }
}

#[tactic(auto, using(limbo_types::proofs::View::the_types))]
fn head_row(alloc: Global, t: &Ty) -> Result<Option<OneRow>, AllocError>
    ensures { IfOk result (λ r. option_map view_one r ≡ choosing.head_row (view_ty t.now)) }
{
    let Some(item) = settled_item(t) else {
        return Ok(None);
    };
    Ok(Some(OneRow {
        operand: Ty::List(Box::new(alloc, copy(alloc, item)?)?),
        operation: Operation::Head,
        result: copy(alloc, item)?,
    }))
}

#[tactic(auto, using(limbo_types::proofs::View::the_types))]
fn tail_row(alloc: Global, t: &Ty) -> Result<Option<OneRow>, AllocError>
    ensures { IfOk result (λ r. option_map view_one r ≡ choosing.tail_row (view_ty t.now)) }
{
    let Some(item) = settled_item(t) else {
        return Ok(None);
    };
    Ok(Some(OneRow {
        operand: Ty::List(Box::new(alloc, copy(alloc, item)?)?),
        operation: Operation::Tail,
        result: Ty::List(Box::new(alloc, copy(alloc, item)?)?),
    }))
}

#[tactic(auto, using(limbo_types::proofs::View::the_types))]
fn not_row(t: &Ty) -> Option<OneRow>
    ensures { option_map view_one result ≡ choosing.not_row (view_ty t.now) }
{
    if !is_int(t) {
        return None;
    }
    Some(OneRow {
        operand: Ty::Int,
        operation: Operation::Not,
        result: Ty::Int,
    })
}

#[tactic(auto, using(crate::proofs::Others::no_other))]
fn other_row(
    alloc: Global,
    defs: &[AdtDef],
    op: UnaryOp,
    t: &Ty,
) -> Result<Option<OneRow>, AllocError>
    ensures { IfOk result (λ r. option_map view_one r ≡ choosing.other_row (view_defs defs.now) op (view_ty t.now)) }
{
    match op {
        UnaryOp::Not => Ok(not_row(t)),
        UnaryOp::Hd => head_row(alloc, t),
        UnaryOp::Tl => tail_row(alloc, t),
        UnaryOp::Len => length_row(alloc, t),
        UnaryOp::Tagof => tag_row(alloc, defs, t),
        UnaryOp::String => string_row(alloc, t),
        _ => Ok(None),
    }
}

fn choose_unary(
    alloc: Global,
    defs: &[AdtDef],
    op: UnaryOp,
    t: &Ty,
) -> Result<Option<OneRow>, AllocError>
    ensures { IfOk result (λ r. option_map view_one r ≡ choosing.unary_row (view_defs defs.now) op (view_ty t.now)) }
{
    if let Some(unary) = altering(op) {
        return Ok(alter_row(unary, t));
    }
    if let Some(to) = converting(op) {
        return Ok(convert_row(to, t));
    }
    other_row(alloc, defs, op, t)
}

/// The row of an operator before an operand of this type, if there is one. `ref`, `*` and `<-` have none here, since they say more than
/// types do, and of `++` and `--` the operand is a place besides.
///
/// # Errors
/// Want of memory.
pub fn unary_row(
    alloc: Global,
    defs: &[AdtDef],
    op: UnaryOp,
    t: &Ty,
) -> Result<Option<OneRow>, AllocError>
    // The table has the row.
    ensures found { IfOk result (λ r. IfSome r (λ r. UnaryRow (view_defs defs.now) op (view_ty t.now) (view_one r))) }
    // Where there is none, the table has none.
    ensures none { IfOk result (λ r. IfNone r ((other : rows.OneRow) → UnaryRow (view_defs defs.now) op (view_ty t.now) other → ⊥)) }
{
    choose_unary(alloc, defs, op, t)
}

#[tactic(auto, using(limbo_types::proofs::View::the_types))]
fn choose_bytes(alloc: Global, t: &Ty) -> Result<Option<OneRow>, AllocError>
    ensures { IfOk result (λ r. option_map view_one r ≡ choosing.bytes_row (view_ty t.now)) }
{
    if !is_text(t) {
        return Ok(None);
    }
    Ok(Some(OneRow {
        operand: Ty::Chars,
        operation: Operation::TextBytes,
        result: bytes(alloc)?,
    }))
}

/// The row of `array of byte` before an operand of this type, if there is one.
///
/// # Errors
/// Want of memory.
pub fn bytes_row(alloc: Global, t: &Ty) -> Result<Option<OneRow>, AllocError>
    // The table has the row.
    ensures found { IfOk result (λ r. IfSome r (λ r. BytesRow (view_ty t.now) (view_one r))) }
    // Where there is none, the table has none.
    ensures none { IfOk result (λ r. IfNone r ((other : rows.OneRow) → BytesRow (view_ty t.now) other → ⊥)) }
{
    choose_bytes(alloc, t)
}
