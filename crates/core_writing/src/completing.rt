//! Nodes behind their operands.

ghost use Rattle.std.specs.Prelude.{◌≡◌, ◌+◌, ◌<◌, ◌≤◌, ◌^◌, [], ◌∷◌, IfOk, List, vec_len};
ghost use Rattle.limbo_types.specs.Types.{Ty as Typed};
ghost use Rattle.limbo_types.specs.View.{view_ty};
ghost use Rattle.limbo_layout.specs.Adts.{Def};
ghost use Rattle.limbo_layout.specs.Layout.{limit};
ghost use Rattle.limbo_layout.specs.View.{view_defs};
ghost use Rattle.limbo_typed.specs.View.{view_expr, view_optional, view_pattern, view_place_node};
ghost use Rattle.limbo_meaning.specs.Operations.{size_of};
ghost use Rattle.limbo_meaning.specs.Trees.{Assign, Call, Literal, Print, Read, TakePart, Terms};
ghost use Rattle.limbo_meaning.specs.Program.{aims_in, operating, term_of, way_of};
ghost use Rattle.limbo_typed.specs.declared.stmt.Constant.TheVariants.{Chars, Number};
ghost use Rattle.core_data.specs.View.{view_work};
ghost use Rattle.core_code.specs.Terms as terms;
ghost use Rattle.core_frames.specs.Sizes.{expr_size};
ghost use Rattle.core_parts.specs.Lowered.{view_lowered, view_lowered_all};
ghost use Rattle.core_parts.specs.Nodes as nodes;
ghost use Rattle.core_writing.specs.Completed.{channelled, completed, unlowered};
ghost use Rattle.core_writing.specs.Operands.{operands_in, printing_node};

use crate::moves::{move_out, tuple_of, value_of};
use crate::types::{operand_types, printed_types, type_of};
use core_data::Work;
use core_parts::{
    Lowered, LoweredAll, add_aims, assign, call, copy_into, copy_pieces, gather, give, join, link,
    pick, print, slot_in, way_of,
};
use inf_text::Text;
use limbo_typed::{Operation, Pattern, Piece, Place, Printed, TExpr, TNode};
use limbo_types::{Ty, copy};
use std::alloc::{AllocError, Global};
use value_extents::Extents;

// A node that gives a value of a type.
fn give_copy(
    alloc: Global,
    all: LoweredAll,
    ty: &Ty,
    work: Work,
    references: u32,
) -> Result<Lowered, AllocError>
    requires { all.free + 1 < 2 ^ 32 }
    ensures { IfOk result (λ l. view_lowered l ≡ nodes.gave (view_ty ty.now) (view_work work) references (view_lowered_all all)) }
{
    let ty = copy(alloc, ty)?;
    let l = give(alloc, all, ty, work, references)?;
    Ok(l)
}

// What isn't of this part of the language.
fn skip(alloc: Global, all: LoweredAll) -> Result<Lowered, AllocError>
    requires { all.free + 1 < 2 ^ 32 }
    ensures { IfOk result (λ l. view_lowered l ≡ unlowered (view_lowered_all all)) }
{
    let LoweredAll {
        each,
        drops,
        values: _,
        free,
    } = all;
    let code = join(alloc, each)?;
    Ok(Lowered {
        code,
        drops,
        value: free,
        free: free + 1,
    })
}

// A read.
fn complete_read(
    alloc: Global,
    extents: &Extents<'_>,
    place: &Place,
    all: LoweredAll,
) -> Result<Lowered, AllocError>
    requires free { all.free + 1 < 2 ^ 32 }
    requires size { size_of (view_defs extents.now) (view_ty place.now.ty) ≤ limit }
    ensures { IfOk result (λ l. (us : List Typed) → view_lowered l ≡ terms.node (view_defs extents.now) us (view_ty place.now.ty)
        (Read (way_of (view_place_node place.now.at))) (view_lowered_all all)) }
{
    let way = way_of(alloc, &place.at)?;
    let references = extents.count(&place.ty);
    let l = give_copy(alloc, all, &place.ty, Work::Read(way), references)?;
    Ok(l)
}

// A part of the only operand.
fn complete_part(
    alloc: Global,
    extents: &Extents<'_>,
    ty: &Ty,
    whole: &TExpr,
    part: u32,
    all: LoweredAll,
) -> Result<Lowered, AllocError>
    requires { all.free + 1 < 2 ^ 32 }
    ensures { IfOk result (λ l. view_lowered l ≡ terms.node (view_defs extents.now)
        (terms.type_of (view_defs extents.now) (term_of (view_expr whole.now)) ∷ []) (view_ty ty.now) (TakePart part)
        (view_lowered_all all)) }
{
    let whole = type_of(alloc, whole)?;
    let from = slot_in(&all.values, 0);
    let moved = move_out(extents, &whole, part, from, all.free)?;
    let ty = copy(alloc, ty)?;
    let l = pick(alloc, all, ty, part, moved)?;
    Ok(l)
}

// A tuple or an adt's value.
fn complete_parts(
    alloc: Global,
    extents: &Extents<'_>,
    ty: &Ty,
    operation: Operation,
    all: LoweredAll,
) -> Result<Lowered, AllocError>
    requires { all.free + vec_len all.values + 1 < 2 ^ 32 }
    ensures { IfOk result (λ l. view_lowered l ≡ terms.gathers (view_defs extents.now) (view_ty ty.now) operation (view_lowered_all all)) }
{
    let ty = copy(alloc, ty)?;
    let whole = value_of(alloc, extents, ty, operation, all.free, &all.values)?;
    let l = gather(alloc, all, operation, whole)?;
    Ok(l)
}

// An operation.
fn complete_operation(
    alloc: Global,
    extents: &Extents<'_>,
    ty: &Ty,
    operation: Operation,
    all: LoweredAll,
) -> Result<Lowered, AllocError>
    requires room { all.free + vec_len all.values + 1 < 2 ^ 32 }
    requires size { size_of (view_defs extents.now) (view_ty ty.now) ≤ limit }
    ensures { IfOk result (λ l. (us : List Typed) → view_lowered l
        ≡ terms.node (view_defs extents.now) us (view_ty ty.now) (operating operation) (view_lowered_all all)) }
{
    match operation {
        Operation::List => {
            let l = link(alloc, all, ty)?;
            Ok(l)
        }
        Operation::Tuple => {
            let l = complete_parts(alloc, extents, ty, operation, all)?;
            Ok(l)
        }
        Operation::Adt { .. } => {
            let l = complete_parts(alloc, extents, ty, operation, all)?;
            Ok(l)
        }
        _ => {
            let references = extents.count(ty);
            let l = give_copy(alloc, all, ty, Work::Operate(operation), references)?;
            Ok(l)
        }
    }
}

// An assignment.
fn complete_assignment(
    alloc: Global,
    pattern: &Pattern,
    all: LoweredAll,
) -> Result<Lowered, AllocError>
    ensures { IfOk result (λ l. (defs : List Def) (us : List Typed) (t : Typed) → view_lowered l
        ≡ terms.node defs us t (Assign (aims_in [] (view_pattern pattern.now))) (view_lowered_all all)) }
{
    let mut aims = Vec::new(alloc);
    add_aims(alloc, &mut aims, &[], pattern)?;
    let l = assign(alloc, all, aims)?;
    Ok(l)
}

// A new channel.
#[tactic(auto, using(limbo_typed::proofs::View::the_exprs))]
fn complete_channel(
    alloc: Global,
    ty: &Ty,
    size: &Option<Box<TExpr>>,
    all: LoweredAll,
) -> Result<Lowered, AllocError>
    requires { all.free + 1 < 2 ^ 32 }
    ensures { IfOk result (λ l. (defs : List Def) → view_lowered l
        ≡ channelled defs (view_ty ty.now) (view_optional size.now) (view_lowered_all all)) }
{
    match size {
        None => {
            let LoweredAll {
                each,
                drops,
                values: _,
                free,
            } = all;
            let bare = LoweredAll {
                each,
                drops,
                values: Vec::new(alloc),
                free,
            };
            let l = give_copy(alloc, bare, ty, Work::Channel, 1)?;
            Ok(l)
        }
        Some(_) => skip(alloc, all),
    }
}

// A call.
fn complete_call(
    alloc: Global,
    extents: &Extents<'_>,
    e: &TExpr,
    function: u32,
    all: LoweredAll,
) -> Result<Lowered, AllocError>
    requires room { all.free + vec_len all.values + 1 < 2 ^ 32 }
    requires size { size_of (view_defs extents.now) (view_ty e.now.ty) ≤ limit }
    ensures { IfOk result (λ l. view_lowered l ≡ terms.node (view_defs extents.now)
        (terms.types_in (view_defs extents.now) (operands_in (term_of (view_expr e.now)))) (view_ty e.now.ty) (Call function)
        (view_lowered_all all)) }
{
    let types = operand_types(alloc, e)?;
    let whole = tuple_of(alloc, extents, 0, types, all.free, &all.values)?;
    let references = extents.count(&e.ty);
    let ty = copy(alloc, &e.ty)?;
    let l = call(alloc, all, ty, function, references, &whole)?;
    Ok(l)
}

// A print whose text is written: its operands stand behind another text.
fn complete_written(
    alloc: Global,
    extents: &Extents<'_>,
    e: &TExpr,
    format: &[Piece],
    all: LoweredAll,
) -> Result<Lowered, AllocError>
    requires { all.free + vec_len all.values + 1 < 2 ^ 32 }
    ensures { IfOk result (λ l. (t : Typed) → view_lowered l ≡ terms.node (view_defs extents.now)
        (terms.types_in (view_defs extents.now) (operands_in (term_of (view_expr e.now)))) t (Print format.now) (view_lowered_all all)) }
{
    let types = printed_types(alloc, e)?;
    let whole = tuple_of(alloc, extents, 1, types, all.free, &all.values)?;
    let pieces = copy_pieces(alloc, format)?;
    let l = print(alloc, all, pieces, &whole)?;
    Ok(l)
}

// A print, and a text that is made as for one.
#[tactic(auto, using(limbo_typed::proofs::View::the_exprs))]
fn complete_print(
    alloc: Global,
    extents: &Extents<'_>,
    e: &TExpr,
    printed: Printed,
    file: &Option<Box<TExpr>>,
    format: &[Piece],
    all: LoweredAll,
) -> Result<Lowered, AllocError>
    requires { all.free + vec_len all.values + 1 < 2 ^ 32 }
    ensures { IfOk result (λ l. (ts : Terms)
        → operands_in (term_of (view_expr e.now))
        ≡ operands_in (printing_node printed (view_ty e.now.ty) format.now (view_optional file.now) ts)
        → view_lowered l ≡ completed (view_defs extents.now)
        (printing_node printed (view_ty e.now.ty) format.now (view_optional file.now) ts) (view_lowered_all all)) }
{
    match (printed, file) {
        (Printed::Print, None) => {
            let l = complete_written(alloc, extents, e, format, all)?;
            Ok(l)
        }
        (Printed::Sprint, None) => {
            let pieces = copy_pieces(alloc, format)?;
            let l = give_copy(alloc, all, &e.ty, Work::Sprint(pieces), 0)?;
            Ok(l)
        }
        (Printed::Fprint, _) => skip(alloc, all),
        (_, Some(_)) => skip(alloc, all),
    }
}

// A number.
fn complete_number(
    alloc: Global,
    ty: &Ty,
    value: &i64,
    all: LoweredAll,
) -> Result<Lowered, AllocError>
    requires { all.free + 1 < 2 ^ 32 }
    ensures { IfOk result (λ l. (defs : List Def) (us : List Typed) → view_lowered l
        ≡ terms.node defs us (view_ty ty.now) (Literal (Number value.now)) (view_lowered_all all)) }
{
    let l = give_copy(alloc, all, ty, Work::Number(*value), 0)?;
    Ok(l)
}

// A string.
fn complete_chars(
    alloc: Global,
    ty: &Ty,
    text: &Text,
    all: LoweredAll,
) -> Result<Lowered, AllocError>
    requires { all.free + 1 < 2 ^ 32 }
    ensures { IfOk result (λ l. (defs : List Def) (us : List Typed) → view_lowered l
        ≡ terms.node defs us (view_ty ty.now) (Literal (Chars text.now)) (view_lowered_all all)) }
{
    let text = text.clone()?;
    let l = give_copy(alloc, all, ty, Work::Chars(text), 0)?;
    Ok(l)
}

/// What stands behind the operands of an expression, of whose code nothing else is written.
#[tactic(auto, using(limbo_typed::proofs::View::the_exprs, crate::proofs::Forms::no_node, crate::proofs::Small::smalls))]
pub(crate) fn complete(
    alloc: Global,
    extents: &Extents<'_>,
    e: &TExpr,
    all: LoweredAll,
) -> Result<Lowered, AllocError>
    requires room { all.free + vec_len all.values + 1 < 2 ^ 32 }
    requires size { expr_size (view_defs extents.now) (view_expr e.now) ≤ limit }
    ensures { IfOk result (λ l. view_lowered l
        ≡ completed (view_defs extents.now) (term_of (view_expr e.now)) (view_lowered_all all)) }
{
    match &e.node {
        TNode::Number(value) => {
            let l = complete_number(alloc, &e.ty, value, all)?;
            Ok(l)
        }
        TNode::Chars(text) => {
            let l = complete_chars(alloc, &e.ty, text, all)?;
            Ok(l)
        }
        TNode::Nil => {
            let l = give_copy(alloc, all, &e.ty, Work::Nil, 0)?;
            Ok(l)
        }
        TNode::Read(place) => {
            let l = complete_read(alloc, extents, place, all)?;
            Ok(l)
        }
        TNode::Part { whole, part } => {
            let l = complete_part(alloc, extents, &e.ty, whole, *part, all)?;
            Ok(l)
        }
        TNode::Apply { operation, .. } => {
            let l = complete_operation(alloc, extents, &e.ty, *operation, all)?;
            Ok(l)
        }
        TNode::Assign { pattern, .. } => {
            let l = complete_assignment(alloc, pattern, all)?;
            Ok(l)
        }
        TNode::Copy { .. } => {
            let l = copy_into(alloc, all)?;
            Ok(l)
        }
        TNode::Channel { size } => {
            let l = complete_channel(alloc, &e.ty, size, all)?;
            Ok(l)
        }
        TNode::Call { function, .. } => {
            let l = complete_call(alloc, extents, e, *function, all)?;
            Ok(l)
        }
        TNode::Print {
            printed,
            file,
            format,
            ..
        } => {
            let l = complete_print(alloc, extents, e, *printed, file, format, all)?;
            Ok(l)
        }
        _ => {
            let l = skip(alloc, all)?;
            Ok(l)
        }
    }
}
