//! The code of functions and modules.

ghost use Rattle.std.specs.Prelude.{◌≡◌, ◌*◌, ◌<◌, ◌≤◌, [], ◌∷◌, ◌++◌, IfOk, OnOk, None, Err, map, max};
ghost use Rattle.limbo_types.specs.View.{view_ty};
ghost use Rattle.limbo_layout.specs.View.{view_defs};
ghost use Rattle.limbo_typed.specs.View.{view_var, view_stmts, view_function};
ghost use Rattle.limbo_typed.specs.View as typed;
ghost use Rattle.limbo_meaning.specs.Program.{all_before, routine_of, program_of};
ghost use Rattle.limbo_meaning.specs.Trees.{Done};
ghost use Rattle.core_code.specs.Code as core;
ghost use Rattle.core_code.specs.Sizes.{module_nodes, instructions};
ghost use Rattle.core_code.specs.Statements.{block_code, block_slots, function_of, code_of};
ghost use Rattle.core_data.specs.View.{view_program};
ghost use Rattle.core_data.specs.View as view;
ghost use Rattle.core_sizing.specs.declared.fault.SizeFault.TheVariants as fault;
ghost use Rattle.core_frames.specs.Sizes.{frame_size, stmts_size, largest_frame, FrameTooLarge};
ghost use Rattle.limbo_lower.specs.Frames.{FramesFit};
ghost use Rattle.limbo_lower.specs.Loops.{defs_in, types_in};

use crate::statements::{Function, Loop, Written, emit_block, put};
use core_data::{CoreFn, CoreProgram, Inst};
use core_sizing::{SizeFault, module_extents};
use limbo_typed::{TFn, TStmt, TVar, TypedModule};
use limbo_types::{Ty, copy};
use std::alloc::{AllocError, Global};
use value_extents::Extents;

// The types of variables.
fn types_of(alloc: Global, variables: &[TVar]) -> Result<Vec<Ty>, AllocError>
    ensures { IfOk result (λ ts. map view_ty ts.items ≡ map (λ v. v.ty) (map view_var variables.now)) }
{
    let mut types = Vec::new(alloc);
    for variable in variables {
        types.push(copy(alloc, &variable.ty)?)?;
    }
    Ok(types)
}

// The code of a function's body, from its beginning on, and how many slots it needs.
fn body_of(f: Function<'_>, body: &[TStmt]) -> Result<Written, AllocError>
    requires { stmts_size (defs_in f) (types_in f) (view_stmts body.now) ≤ largest_frame }
    ensures code { IfOk result (λ w. map view.view_inst w.code.items
        ≡ block_code (defs_in f.entry) [] (all_before (types_in f.entry) (view_stmts body.now) Done) ++ core.Return None ∷ []) }
    ensures slots { IfOk result (λ w. w.slots
        ≡ max 1 (block_slots (defs_in f.entry) (all_before (types_in f.entry) (view_stmts body.now) Done))) }
{
    let mut out = Written {
        code: Vec::new(f.alloc),
        slots: 1,
    };
    let around: Vec<Loop> = Vec::new(f.alloc);
    put(&mut out.code, Inst::Return { from: None })?;
    emit_block(f, &mut out, &around, body)?;
    out.code.reverse();
    Ok(out)
}

// The code of a function, whose frame isn't too large.
fn lower_function(alloc: Global, extents: &Extents<'_>, f: &TFn) -> Result<CoreFn, AllocError>
    requires { frame_size (view_defs extents.now) (view_function f.now) ≤ largest_frame }
    ensures { IfOk result (λ c. view.view_function c ≡ function_of (view_defs extents.now) (routine_of (view_function f.now))) }
{
    let function = Function {
        alloc,
        extents,
        variables: &f.variables,
    };
    let Written { code, slots } = body_of(function, &f.body)?;
    Ok(CoreFn {
        variables: types_of(alloc, &f.variables)?,
        slots,
        code,
    })
}

// The code of functions, none of whose frames is too large.
fn lower_functions(
    alloc: Global,
    extents: &Extents<'_>,
    functions: &[TFn],
) -> Result<Vec<CoreFn>, AllocError>
    requires { FramesFit (view_defs extents.now) functions.now }
    ensures { IfOk result (λ cs. map view.view_function cs.items
        ≡ map (λ f. function_of (view_defs extents.now) (routine_of (view_function f))) functions.now) }
{
    let mut lowered = Vec::new(alloc);
    for f in functions {
        lowered.push(lower_function(alloc, extents, f)?)?;
    }
    Ok(lowered)
}

/// The three-address code of a checked module over values.
///
/// # Errors
/// `FrameTooLarge` only where a function's frame or the module's variables pass 65,536 bytes, and such a module has no code; `NoMemory`.
pub fn lower(alloc: Global, module: &TypedModule) -> Result<CoreProgram, SizeFault>
    ensures code { IfOk result (λ c. view_program (typed.view_module «module».now).adts c
        ≡ code_of (program_of (typed.view_module «module».now))) }

    // It is no longer than the module, but for a factor.
    ensures few { IfOk result (λ c. instructions (view_program (typed.view_module «module».now).adts c).functions
        ≤ 8 * module_nodes (typed.view_module «module».now)) }

    // Exactly the modules with small frames have code, as far as memory goes.
    ensures fits { IfOk result (λ _. FrameTooLarge (typed.view_module «module».now) → ⊥) }
    ensures too_large { result ≡ Err fault.FrameTooLarge → FrameTooLarge (typed.view_module «module».now) }
{
    let extents = module_extents(alloc, module)?;
    let functions = lower_functions(alloc, &extents, &module.functions)?;
    Ok(CoreProgram { functions })
}
