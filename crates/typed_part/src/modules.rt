//! Modules.

ghost use Rattle.std.specs.Prelude.{◌≡◌};
ghost use Rattle.limbo_typed.specs.View as typed;
ghost use Rattle.typed_part.specs.Part as part;

use crate::functions::{are_functions, are_words, has_init};
use limbo_typed::{Constant, Initial, TypedModule};

// Whether a variable of the module begins with a number.
fn is_initial(initial: &Initial) -> bool
    ensures { result ≡ part.is_initial initial.now }
{
    match &initial.value {
        Constant::Number(_) => true,
        Constant::Chars(_) => false,
    }
}

fn are_initials(initials: &[Initial]) -> bool
    ensures { result ≡ part.all part.is_initial initials.now }
{
    for initial in initials {
        if !is_initial(initial) {
            return false;
        }
    }
    true
}

// Whether none of these characters is 0.
fn is_name(chars: &[char]) -> bool
    ensures { result ≡ part.is_name chars.now }
{
    for c in chars {
        if *c == '\0' {
            return false;
        }
    }
    true
}

/// Whether a checked module is in the part of the language that the compiler takes.
pub fn is_part(module: &TypedModule) -> bool
    ensures { result ≡ part.is_part (typed.view_module module.now) }
{
    are_words(&module.globals)
        && are_initials(&module.initials)
        && is_name(module.name.as_slice())
        && are_functions(module)
}

/// Whether it also has a function with which it begins, so that it runs.
pub fn runs(module: &TypedModule) -> bool
    ensures { result ≡ part.runs (typed.view_module module.now) }
{
    is_part(module) && has_init(&module.functions)
}
