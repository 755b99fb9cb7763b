//! Functions.

ghost use Rattle.std.specs.Prelude.{◌≡◌, ◌&&◌, map, not};
ghost use Rattle.limbo_types.specs.View.{view_ty, view_fn};
ghost use Rattle.limbo_typed.specs.View as typed;
ghost use Rattle.typed_part.specs.Part as part;
ghost use Rattle.typed_part.specs.Seen.{function_inside};

use crate::inside::{Inside, Loops};
use crate::kinds::{is_nothing, is_number, is_word, same};
use crate::loading::loads_first;
use crate::statements::are_stmts;
use inf_text::is_spelled;
use limbo_typed::{TFn, TVar, TypedModule};
use limbo_types::Ty;

/// Whether variables have a number or one reference each.
pub(crate) fn are_words(variables: &[TVar]) -> bool
    ensures { result ≡ part.all part.is_word (part.types_in (map typed.view_var variables.now)) }
{
    for variable in variables {
        if !is_word(&variable.ty) {
            return false;
        }
    }
    true
}

// Whether variables begin with some of these types.
fn begin_with(types: &[Ty], variables: &[TVar]) -> bool
    ensures { result ≡ part.begin_with (map view_ty types.now) (part.types_in (map typed.view_var variables.now)) }
{
    match types.split_first() {
        None => true,
        Some((t, more)) => match variables.split_first() {
            None => false,
            Some((variable, others)) => same(t, &variable.ty) && begin_with(more, others),
        },
    }
}

// Whether a function is of no adt, each of its variables has a number or one reference, and it answers a number or nothing.
fn is_plain(f: &TFn) -> bool
    ensures { result ≡ part.is_plain (typed.view_function f.now) }
{
    f.owner.is_none()
        && are_words(&f.variables)
        && begin_with(&f.of.args, &f.variables)
        && (is_number(&f.of.answer) || is_nothing(&f.of.answer))
}

// Whether it is the function with which a module begins.
fn is_init(f: &TFn) -> bool
    ensures { result ≡ part.is_init (typed.view_function f.now) }
{
    is_spelled(f.name.as_slice(), "init")
}

/// Whether some function is the one with which a module begins.
pub(crate) fn has_init(functions: &[TFn]) -> bool
    ensures { result ≡ not (part.is_none (part.init_in (map typed.view_function functions.now))) }
{
    for f in functions {
        if is_init(f) {
            return true;
        }
    }
    false
}

// The module's variable that this function begins by loading `Sys` into.
fn init_loads(system: Option<u32>, functions: &[TFn]) -> Option<u32>
    ensures { result ≡ part.body_loads system (part.init_in (map typed.view_function functions.now)) }
{
    for f in functions {
        if is_init(f) {
            return loads_first(system, &f.body);
        }
    }
    None
}

// Whether a function's statements are in the part, where the module begins by loading `Sys` into this variable.
#[tactic(auto, using(crate::proofs::Loops::the_depth))]
fn has_body(module: &TypedModule, loaded: Option<u32>, f: &TFn) -> bool
    ensures { result ≡ part.are_stmts (function_inside (typed.view_module module.now) loaded (typed.view_function f.now)) 0
        (typed.view_function f.now).body }
{
    let inside = Inside {
        variables: &f.variables,
        answer: &f.of.answer,
        globals: &module.globals,
        functions: &module.functions,
        system: module.system,
        loaded,
    };
    are_stmts(inside, Loops::Outside, &f.body)
}

// The same of the whole function.
fn is_function(module: &TypedModule, loaded: Option<u32>, f: &TFn) -> bool
    ensures { result ≡ (part.is_plain (typed.view_function f.now)
        && part.are_stmts (function_inside (typed.view_module module.now) loaded (typed.view_function f.now)) 0
        (typed.view_function f.now).body) }
{
    is_plain(f) && has_body(module, loaded, f)
}

/// Whether all functions of a module are in the part.
pub(crate) fn are_functions(module: &TypedModule) -> bool
    ensures { result ≡ part.all (part.is_function (typed.view_module module.now)) (typed.view_module module.now).functions }
{
    let loaded = init_loads(module.system, &module.functions);
    for f in &module.functions {
        if !is_function(module, loaded, f) {
            return false;
        }
    }
    true
}
