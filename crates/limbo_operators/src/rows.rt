//! The table of operators between two operands: for operands of which types there is a row, and what it says.

ghost use Rattle.std.specs.Prelude.{◌≡◌, IfOk, IfSome, IfNone, Some, option_map};
ghost use Rattle.limbo_types.specs.Types.{Int};
ghost use Rattle.limbo_types.specs.View.{view_ty};
ghost use Rattle.limbo_typed.specs.declared.operation.Connective.{Connective};
ghost use Rattle.limbo_operators.specs.Rows as rows;
ghost use Rattle.limbo_operators.specs.Rows.{BinaryRow, LazyRow, UpdateRow};
ghost use Rattle.limbo_operators.specs.Choosing as choosing;
ghost use Rattle.limbo_operators.specs.RowView.{view_row};

use crate::signs::{Binary, updating};
use limbo_forms::{
    is_channel, is_int, is_nil, is_reference, is_same, is_settled, is_text, item_of, kind_of,
    of_kind, ref_of, same_kind,
};
use limbo_standing::{join, or_nil};
use limbo_tree::AssignOp;
use limbo_typed::{Connective, Operation};
use limbo_types::{Ty, copy};
use limbo_values::{Comparison, Operator, Shift};
use std::alloc::{AllocError, Global};

/// A row for two operands: the types that are asked of them, the operation on their values, and the type of what it gives.
#[derive(Drop)]
pub struct Row {
    pub left: Ty,
    pub right: Ty,
    pub operation: Operation,
    pub result: Ty,
}

#[tactic(auto, using(crate::proofs::Others::not_add))]
fn is_add(operator: Operator) -> bool
    ensures { result ≡ choosing.is_add operator }
{
    matches!(operator, Operator::Add)
}

// `+ - * / % & ^ |` of two numbers of one kind, and `+` of two strings.
#[tactic(auto, using(limbo_types::proofs::View::the_types))]
fn arithmetic_row(operator: Operator, left: &Ty, right: &Ty) -> Option<Row>
    ensures { option_map view_row result ≡ choosing.arithmetic_row operator (view_ty left.now) (view_ty right.now) }
{
    if is_text(left) && is_text(right) && is_add(operator) {
        return Some(Row {
            left: Ty::Chars,
            right: Ty::Chars,
            operation: Operation::Join,
            result: Ty::Chars,
        });
    }
    let kind = same_kind(left, right)?;
    Some(Row {
        left: of_kind(kind),
        right: of_kind(kind),
        operation: Operation::Arithmetic { operator, kind },
        result: of_kind(kind),
    })
}

#[tactic(auto, using(limbo_types::proofs::View::the_types))]
fn shift_row(shift: Shift, left: &Ty, right: &Ty) -> Option<Row>
    ensures { option_map view_row result ≡ choosing.shift_row shift (view_ty left.now) (view_ty right.now) }
{
    let kind = kind_of(left)?;
    if !is_int(right) {
        return None;
    }
    Some(Row {
        left: of_kind(kind),
        right: Ty::Int,
        operation: Operation::Shift { shift, kind },
        result: of_kind(kind),
    })
}

// `==` and `!=`, as they compare references.
#[tactic(auto, using(crate::proofs::Others::not_identifying))]
fn identifying(comparison: Comparison) -> Option<Operation>
    ensures { result ≡ choosing.identifying comparison }
{
    match comparison {
        Comparison::Equal => Some(Operation::Identical),
        Comparison::Unequal => Some(Operation::Distinct),
        _ => None,
    }
}

// Whether values of two types can be the same reference.
fn are_like(left: &Ty, right: &Ty) -> bool
    ensures { result ≡ choosing.are_like (view_ty left.now) (view_ty right.now) }
{
    match ref_of(left) {
        Some(adt) => match ref_of(right) {
            Some(other) => other == adt,
            None => false,
        },
        None => is_channel(left) && is_same(left, right),
    }
}

fn may_be_nil(t: &Ty) -> bool
    ensures { result ≡ choosing.may_be_nil (view_ty t.now) }
{
    is_reference(t) && is_settled(t)
}

// The row of a comparison whose operands are as asked.
#[tactic(auto, using(limbo_types::proofs::View::the_types))]
fn compared(
    alloc: Global,
    operation: Operation,
    left: &Ty,
    right: &Ty,
) -> Result<Option<Row>, AllocError>
    ensures { IfOk result (λ r. option_map view_row r ≡ Some (rows.row (view_ty left.now) (view_ty right.now) operation Int)) }
{
    Ok(Some(Row {
        left: copy(alloc, left)?,
        right: copy(alloc, right)?,
        operation,
        result: Ty::Int,
    }))
}

// A comparison of references.
fn reference_row(
    alloc: Global,
    operation: Operation,
    left: &Ty,
    right: &Ty,
) -> Result<Option<Row>, AllocError>
    ensures { IfOk result (λ r. option_map view_row r ≡ choosing.reference_row operation (view_ty left.now) (view_ty right.now)) }
{
    if is_nil(right) {
        if may_be_nil(left) {
            return compared(alloc, operation, left, left);
        }
        return Ok(None);
    }
    if is_nil(left) {
        if may_be_nil(right) {
            return compared(alloc, operation, right, right);
        }
        return Ok(None);
    }
    if are_like(left, right) {
        return compared(alloc, operation, left, right);
    }
    Ok(None)
}

#[tactic(auto, using(crate::proofs::Others::is_ordering))]
fn is_order(comparison: Comparison) -> bool
    ensures { result ≡ choosing.is_order comparison }
{
    match comparison {
        Comparison::Equal => false,
        Comparison::Unequal => false,
        _ => true,
    }
}

// A comparison of two strings, of which one may be an open `nil`; of `<` and its like both may.
#[tactic(auto, using(limbo_types::proofs::View::the_types))]
fn text_row(comparison: Comparison, left: &Ty, right: &Ty) -> Option<Row>
    ensures { option_map view_row result ≡ choosing.text_row comparison (view_ty left.now) (view_ty right.now) }
{
    if !is_order(comparison) && is_nil(left) && is_nil(right) {
        return None;
    }
    Some(Row {
        left: Ty::Chars,
        right: Ty::Chars,
        operation: Operation::CompareChars(comparison),
        result: Ty::Int,
    })
}

#[tactic(auto, using(limbo_types::proofs::View::the_types))]
fn compare_row(
    alloc: Global,
    comparison: Comparison,
    left: &Ty,
    right: &Ty,
) -> Result<Option<Row>, AllocError>
    ensures { IfOk result (λ r. option_map view_row r ≡ choosing.compare_row comparison (view_ty left.now) (view_ty right.now)) }
{
    if is_text(left) && is_text(right) {
        return Ok(text_row(comparison, left, right));
    }
    let Some(kind) = kind_of(left) else {
        let Some(operation) = identifying(comparison) else {
            return Ok(None);
        };
        return reference_row(alloc, operation, left, right);
    };
    if !is_same(left, right) {
        return Ok(None);
    }
    Ok(Some(Row {
        left: of_kind(kind),
        right: of_kind(kind),
        operation: Operation::Compare { comparison, kind },
        result: Ty::Int,
    }))
}

// The row of `::` for operands whose items have this type together.
#[tactic(auto, using(limbo_types::proofs::View::the_types))]
fn cons_of(alloc: Global, left: &Ty, right: &Ty, joined: Ty) -> Result<Row, AllocError>
    ensures { IfOk result (λ r. view_row r ≡ choosing.cons_of (view_ty left.now) (view_ty right.now) (view_ty joined)) }
{
    if !is_settled(&joined) {
        return Ok(Row {
            left: copy(alloc, left)?,
            right: copy(alloc, right)?,
            operation: Operation::Cons,
            result: Ty::List(Box::new(alloc, Ty::Nil)?),
        });
    }
    Ok(Row {
        right: Ty::List(Box::new(alloc, copy(alloc, &joined)?)?),
        result: Ty::List(Box::new(alloc, copy(alloc, &joined)?)?),
        operation: Operation::Cons,
        left: joined,
    })
}

fn cons_row(alloc: Global, left: &Ty, right: &Ty) -> Result<Option<Row>, AllocError>
    ensures { IfOk result (λ r. option_map view_row r ≡ choosing.cons_row (view_ty left.now) (view_ty right.now)) }
{
    let Some(item) = item_of(right) else {
        return Ok(None);
    };
    let mut found = None;
    if !join(alloc, &mut found, left)? {
        return Ok(None);
    }
    if !join(alloc, &mut found, item)? {
        return Ok(None);
    }
    Ok(Some(cons_of(alloc, left, right, or_nil(found))?))
}

fn choose_binary(
    alloc: Global,
    sign: Binary,
    left: &Ty,
    right: &Ty,
) -> Result<Option<Row>, AllocError>
    ensures { IfOk result (λ r. option_map view_row r ≡ choosing.binary_row sign (view_ty left.now) (view_ty right.now)) }
{
    match sign {
        Binary::Arithmetic(operator) => Ok(arithmetic_row(operator, left, right)),
        Binary::Shift(shift) => Ok(shift_row(shift, left, right)),
        Binary::Compare(comparison) => compare_row(alloc, comparison, left, right),
        Binary::Cons => cons_row(alloc, left, right),
        Binary::Lazy(_) => Ok(None),
    }
}

/// The row of an operator between two operands of these types, if there is one. `&&` and `||` have none here: see `lazy_row`.
///
/// # Errors
/// Want of memory.
pub fn binary_row(
    alloc: Global,
    sign: Binary,
    left: &Ty,
    right: &Ty,
) -> Result<Option<Row>, AllocError>
    // The table has the row.
    ensures found { IfOk result (λ r. IfSome r (λ r. BinaryRow sign (view_ty left.now) (view_ty right.now) (view_row r))) }
    // Where there is none, the table has none.
    ensures none { IfOk result (λ r. IfNone r ((other : rows.Row) → BinaryRow sign (view_ty left.now) (view_ty right.now) other → ⊥)) }
{
    choose_binary(alloc, sign, left, right)
}

fn choose_lazy(sign: Binary, left: &Ty, right: &Ty) -> Option<Connective>
    ensures { result ≡ choosing.lazy_row sign (view_ty left.now) (view_ty right.now) }
{
    match sign {
        Binary::Lazy(connective) => {
            if is_int(left) && is_int(right) {
                Some(connective)
            } else {
                None
            }
        }
        Binary::Arithmetic(_) => None,
        Binary::Shift(_) => None,
        Binary::Compare(_) => None,
        Binary::Cons => None,
    }
}

/// Whether an operator is `&&` or `||` of two ints, and which.
pub fn lazy_row(sign: Binary, left: &Ty, right: &Ty) -> Option<Connective>
    ensures found { IfSome result (λ c. LazyRow sign (view_ty left.now) (view_ty right.now) c) }
    ensures none { IfNone result ((c : Connective) → LazyRow sign (view_ty left.now) (view_ty right.now) c → ⊥) }
{
    choose_lazy(sign, left, right)
}

fn choose_update(
    alloc: Global,
    op: AssignOp,
    place: &Ty,
    value: &Ty,
) -> Result<Option<Row>, AllocError>
    ensures { IfOk result (λ r. option_map view_row r ≡ choosing.update_row op (view_ty place.now) (view_ty value.now)) }
{
    let Some(sign) = updating(op) else {
        return Ok(None);
    };
    let Some(row) = choose_binary(alloc, sign, place, value)? else {
        return Ok(None);
    };
    if is_same(&row.left, place) && is_same(&row.result, place) {
        return Ok(Some(row));
    }
    Ok(None)
}

/// The row of an assignment with an operator to a place of a type, if there is one.
///
/// # Errors
/// Want of memory.
pub fn update_row(
    alloc: Global,
    op: AssignOp,
    place: &Ty,
    value: &Ty,
) -> Result<Option<Row>, AllocError>
    // The table has the row.
    ensures found { IfOk result (λ r. IfSome r (λ r. UpdateRow op (view_ty place.now) (view_ty value.now) (view_row r))) }
    // Where there is none, the table has none.
    ensures none { IfOk result (λ r. IfNone r ((other : rows.Row) → UpdateRow op (view_ty place.now) (view_ty value.now) other → ⊥)) }
{
    choose_update(alloc, op, place, value)
}
