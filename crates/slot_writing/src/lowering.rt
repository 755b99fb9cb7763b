//! The code of functions and modules.

ghost use Rattle.std.specs.Prelude.{◌≡◌, ◌*◌, ◌<◌, ◌≤◌, [], ◌∷◌, ◌++◌, IfOk, OnOk, map};
ghost use Rattle.limbo_typed.specs.View.{view_var, view_stmts, view_function, view_module};
ghost use Rattle.limbo_typed.specs.View as typed;
ghost use Rattle.system_model.specs.Values.{Num};
ghost use Rattle.typed_meaning.specs.Values.{fitted};
ghost use Rattle.typed_meaning.specs.Program as program;
ghost use Rattle.slot_code.specs.Code as slot;
ghost use Rattle.slot_code.specs.View.{view_inst, view_global};
ghost use Rattle.slot_code.specs.View as view;
ghost use Rattle.typed_lower.specs.Statements as statements;
ghost use Rattle.typed_lower.specs.Statements.{function_code, module_code};
ghost use Rattle.typed_lower.specs.Sizes.{frame_size, stmts_size, largest_frame, nodes, instructions, FrameTooLarge};
ghost use Rattle.slot_writing.specs.Loops.{types_of};

use crate::fault::LowerFault;
use crate::kinds::{kind_of, number_kind, wrapped};
use crate::operands::put;
use crate::sizes::{frame_fits, globals_fit};
use crate::statements::{Loop, emit_stmts};
use limbo_typed::{Constant, Initial, TFn, TVar, TypedModule};
use limbo_values::Kind;
use slot_code::{GlobalVariable, Inst, SlotFn, SlotModule};
use std::alloc::{AllocError, Global};

// Of which kind variables are.
fn kinds_of(alloc: Global, variables: &[TVar]) -> Result<Vec<Option<Kind>>, AllocError>
    ensures { IfOk result (λ ks. ks.items ≡ map (λ v. statements.number_kind v.ty) (map view_var variables.now)) }
{
    let mut kinds = Vec::new(alloc);
    for variable in variables {
        kinds.push(number_kind(&variable.ty))?;
    }
    Ok(kinds)
}

// The instructions of a function, which are written from the last to the first.
#[tactic(auto, using(crate::proofs::Turned::turned_round, crate::proofs::Turned::written_none))]
fn code_of(alloc: Global, f: &TFn) -> Result<Vec<Inst>, AllocError>
    requires { stmts_size (view_stmts f.now.body.items) ≤ largest_frame }
    ensures { IfOk result (λ code. map view_inst code.items
        ≡ statements.stmts_code (types_of f.now.variables.items) [] (view_stmts f.now.body.items) ++ slot.Leave ∷ []) }
{
    let around: Vec<Loop> = Vec::new(alloc);
    let mut code = Vec::new(alloc);
    put(&mut code, Inst::Leave)?;
    emit_stmts(alloc, &mut code, &f.variables, &around, &f.body)?;
    code.reverse();
    Ok(code)
}

// The code of a function, whose frame isn't too large.
fn lower_function(alloc: Global, f: &TFn) -> Result<SlotFn, LowerFault>
    ensures code { IfOk result (λ c. view.view_function c ≡ function_code (view_function f.now)) }
    ensures fits { OnOk result (frame_size (view_function f.now) ≤ largest_frame) }
    ensures too_large { result ≡ Err LowerFault.FrameTooLarge → largest_frame < frame_size (view_function f.now) }
{
    if !frame_fits(f) {
        return Err(LowerFault::FrameTooLarge);
    }
    let code = code_of(alloc, f)?;
    Ok(SlotFn {
        name: f.name.clone()?,
        variables: kinds_of(alloc, &f.variables)?,
        parameters: f.of.args.len(),
        answer: kind_of(&f.of.answer),
        code,
    })
}

fn constant_value(constant: &Constant) -> i64
    ensures { Num result ≡ program.constant_value constant.now }
{
    match constant {
        Constant::Number(n) => *n,
        Constant::Chars(_) => 0,
    }
}

// What the variable of this number begins with, before it is fitted to its type.
fn initial_of(initials: &[Initial], number: usize) -> i64
    ensures { Num result ≡ program.initial_of number initials.now }
{
    for initial in initials {
        if initial.global as usize == number {
            return constant_value(&initial.value);
        }
    }
    0
}

// A variable of the module.
fn global_of(variable: &TVar, initial: i64) -> GlobalVariable
    ensures { view_global result
        ≡ statements.global_code (view_var variable.now) (fitted (view_var variable.now).ty (Num initial)) }
{
    GlobalVariable {
        kind: number_kind(&variable.ty),
        initial: wrapped(kind_of(&variable.ty), initial),
    }
}

// The variables of the module.
fn globals_of(
    alloc: Global,
    variables: &[TVar],
    initials: &[Initial],
) -> Result<Vec<GlobalVariable>, AllocError>
    ensures { IfOk result (λ all. map view_global all.items
        ≡ statements.globals_code (map view_var variables.now) (program.initials_from 0 (map view_var variables.now) initials.now)) }
{
    let mut all = Vec::new(alloc);
    let mut number: usize = 0;
    for variable in variables {
        all.push(global_of(variable, initial_of(initials, number)))?;
        number += 1;
    }
    Ok(all)
}

// The code of a module, as it is defined.
fn lowered(alloc: Global, module: &TypedModule) -> Result<SlotModule, LowerFault>
    ensures code { IfOk result (λ c. view.view_module c ≡ module_code (typed.view_module «module».now)) }
    ensures fits { IfOk result (λ _. FrameTooLarge (typed.view_module «module».now) → ⊥) }
    ensures too_large { result ≡ Err LowerFault.FrameTooLarge → FrameTooLarge (typed.view_module «module».now) }
{
    if !globals_fit(&module.globals) {
        return Err(LowerFault::FrameTooLarge);
    }
    let mut functions = Vec::new(alloc);
    for f in &module.functions {
        functions.push(lower_function(alloc, f)?)?;
    }
    Ok(SlotModule {
        name: module.name.clone()?,
        globals: globals_of(alloc, &module.globals, &module.initials)?,
        functions,
    })
}

/// The three-address code of a checked module.
///
/// # Errors
/// `FrameTooLarge` only where a function's frame or the module's variables pass 65,536 bytes, and such a module has no code; `NoMemory`.
pub fn lower(alloc: Global, module: &TypedModule) -> Result<SlotModule, LowerFault>
    ensures code { IfOk result (λ c. view.view_module c ≡ module_code (typed.view_module «module».now)) }

    // It is no longer than the module, but for a factor.
    ensures few { IfOk result (λ c. instructions (view.view_module c).functions ≤ 8 * nodes (typed.view_module «module».now)) }

    // Exactly the modules with small frames have code, as far as memory goes.
    ensures fits { IfOk result (λ _. FrameTooLarge (typed.view_module «module».now) → ⊥) }
    ensures too_large { result ≡ Err LowerFault.FrameTooLarge → FrameTooLarge (typed.view_module «module».now) }
{
    lowered(alloc, module)
}
