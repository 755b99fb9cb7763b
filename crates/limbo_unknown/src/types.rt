//! The names of types.

ghost use Rattle.std.specs.Prelude.{map};
ghost use Rattle.limbo_tree.specs.View.{view_type, view_boxed_type, view_param, view_fn, tys_of};
ghost use Rattle.limbo_naming.specs.Told.{Knows};
ghost use Rattle.limbo_unknown.specs.Written.{in_type, in_types, in_params, in_answer, in_function};
ghost use Rattle.limbo_unknown.specs.Lacking.{IsTold};

use crate::names::missing_qual;
use inf_text::Span;
use limbo_naming::Naming;
use limbo_tree::{FnType, Param, TypeTree};

/// Where a name of a type stands that isn't there.
#[tactic(auto, using(limbo_tree::proofs::Exprs::the_type_views), unfolding(limbo_tree::specs::View::view_types))]
#[cycle(types)]
pub(crate) fn missing_in_type(naming: &Naming, scope: Option<u32>, of: &TypeTree) -> Option<Span>
    requires names { Knows naming.now }
    ensures { IsTold naming.now scope (in_type (view_type of.now)) result }
{
    match of {
        TypeTree::Named { name, .. } => missing_qual(naming, scope, name),
        TypeTree::Ref { of, .. } => missing_qual(naming, scope, of),
        TypeTree::Array { element, .. } => missing_in_type(naming, scope, element),
        TypeTree::List { element, .. } => missing_in_type(naming, scope, element),
        TypeTree::Chan { element, .. } => missing_in_type(naming, scope, element),
        TypeTree::Tuple { parts, .. } => missing_in_types(naming, scope, parts),
        _ => None,
    }
}

/// The same of several types.
#[cycle(types)]
pub(crate) fn missing_in_types(
    naming: &Naming,
    scope: Option<u32>,
    types: &[TypeTree],
) -> Option<Span>
    requires names { Knows naming.now }
    ensures { IsTold naming.now scope (in_types (tys_of (map view_type types.now))) result }
{
    for of in types {
        if let Some(at) = missing_in_type(naming, scope, of) {
            return Some(at);
        }
    }
    None
}

// The same of the types of parameters.
fn missing_in_params(naming: &Naming, scope: Option<u32>, params: &[Param]) -> Option<Span>
    requires names { Knows naming.now }
    ensures { IsTold naming.now scope (in_params (map view_param params.now)) result }
{
    for param in params {
        if let Some(at) = missing_in_type(naming, scope, &param.of) {
            return Some(at);
        }
    }
    None
}

// The same of the type of an answer, if there is one.
fn missing_in_answer(
    naming: &Naming,
    scope: Option<u32>,
    answer: &Option<Box<TypeTree>>,
) -> Option<Span>
    requires names { Knows naming.now }
    ensures { IsTold naming.now scope (in_answer (view_boxed_type answer.now)) result }
{
    match answer {
        None => None,
        Some(of) => missing_in_type(naming, scope, of),
    }
}

/// The same of what a function takes and answers.
pub(crate) fn missing_in_function(naming: &Naming, scope: Option<u32>, of: &FnType) -> Option<Span>
    requires names { Knows naming.now }
    ensures { IsTold naming.now scope (in_function (view_fn of.now)) result }
{
    match missing_in_params(naming, scope, &of.params) {
        Some(at) => Some(at),
        None => missing_in_answer(naming, scope, &of.answer),
    }
}
