//! The code of declarations: the value goes to each of the variables.

ghost use Rattle.std.specs.Prelude.{◌≡◌, ◌≤◌, IfOk, List, map, slice_index_or};
ghost use Rattle.limbo_types.specs.Types.{Int, Ty as Typed};
ghost use Rattle.limbo_types.specs.View.{view_ty};
ghost use Rattle.limbo_layout.specs.Layout.{limit};
ghost use Rattle.limbo_layout.specs.View.{view_defs};
ghost use Rattle.limbo_typed.specs.View.{view_boxed, view_var};
ghost use Rattle.limbo_meaning.specs.Trees.{Assign, Evaluated, Node};
ghost use Rattle.limbo_meaning.specs.Values.{nothing};
ghost use Rattle.limbo_layout.specs.Adts.{Def};
ghost use Rattle.limbo_meaning.specs.Program.{declared_value, local, only_term};
ghost use Rattle.core_code.specs.Terms.{lower};
ghost use Rattle.core_frames.specs.Sizes.{declared_size, some_size, types_in};
ghost use Rattle.core_parts.specs.Aims.{view_aim};
ghost use Rattle.core_parts.specs.Lowered.{view_lowered};

use crate::lowering::lower_expr;
use core_data::{Inst, Known, Root};
use core_parts::{Aim, Lowered, LoweredAll, assign, begin, put};
use limbo_typed::{TExpr, TVar};
use limbo_types::{Ty, copy};
use std::alloc::{AllocError, Global};
use value_extents::Extents;

// The type of the variable of this number.
#[tactic(auto, using(limbo_types::proofs::View::the_types, crate::proofs::Locals::type_there, crate::proofs::Locals::type_none))]
fn local_type(alloc: Global, variables: &[TVar], number: u32) -> Result<Ty, AllocError>
    ensures { IfOk result (λ t. view_ty t ≡ slice_index_or (types_in (map view_var variables.now)) number Int) }
{
    let at = number as usize;
    if at < variables.len() {
        let ty = copy(alloc, &variables[at].ty)?;
        Ok(ty)
    } else {
        Ok(Ty::Int)
    }
}

// The variables as the places of an assignment.
fn local_aims(alloc: Global, variables: &[TVar], numbers: &[u32]) -> Result<Vec<Aim>, AllocError>
    ensures { IfOk result (λ aims. map view_aim aims.items ≡ map (local (types_in (map view_var variables.now))) numbers.now) }
{
    let mut aims = Vec::new(alloc);
    for number in numbers {
        let ty = local_type(alloc, variables, *number)?;
        let way = begin(alloc, Root::Local(*number));
        let part = Vec::new(alloc);
        aims.push(Aim { part, ty, way })?;
    }
    Ok(aims)
}

// The code of the value: zero or `nil` where there is none.
fn lower_value(
    alloc: Global,
    extents: &Extents<'_>,
    value: &Option<Box<TExpr>>,
) -> Result<Lowered, AllocError>
    requires { some_size (view_defs extents.now) (view_boxed value.now) ≤ limit }
    ensures { (types : List Typed) → IfOk result (λ l. view_lowered l
        ≡ lower (view_defs extents.now) 0 (declared_value types (view_boxed value.now))) }
{
    match value {
        Some(e) => {
            let l = lower_expr(alloc, extents, 0, e)?;
            Ok(l)
        }
        None => {
            let l = lower_nothing(alloc)?;
            Ok(l)
        }
    }
}

// What a variable begins with that is declared without a value.
fn lower_nothing(alloc: Global) -> Result<Lowered, AllocError>
    ensures { (defs : List Def) → IfOk result (λ l. view_lowered l ≡ lower defs 0 (Evaluated nothing)) }
{
    let mut code = Vec::new(alloc);
    put(
        &mut code,
        Inst::Known {
            value: Known::Nothing,
            into: 0,
        },
    )?;
    Ok(Lowered {
        code,
        drops: Vec::new(alloc),
        value: 0,
        free: 1,
    })
}

/// The code of a declaration.
///
/// # Errors
/// Want of memory.
pub fn lower_declared(
    alloc: Global,
    extents: &Extents<'_>,
    variables: &[TVar],
    numbers: &[u32],
    value: &Option<Box<TExpr>>,
) -> Result<Lowered, AllocError>
    requires { declared_size (view_defs extents.now) (types_in (map view_var variables.now)) numbers.now (view_boxed value.now) ≤ limit }
    ensures { IfOk result (λ l. view_lowered l ≡ lower (view_defs extents.now) 0
        (Node Int (Assign (map (local (types_in (map view_var variables.now))) numbers.now))
        (only_term (declared_value (types_in (map view_var variables.now)) (view_boxed value.now))))) }
{
    let operand = lower_value(alloc, extents, value)?;
    let mut all = LoweredAll::new(alloc, 0);
    all.add(operand)?;
    let aims = local_aims(alloc, variables, numbers)?;
    let l = assign(alloc, all, aims)?;
    Ok(l)
}
