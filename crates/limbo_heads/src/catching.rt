//! What the name of a handler has in an arm.

ghost use Rattle.std.specs.Prelude.{◌≡◌, ◌↔◌, map, option_map, slice_get, IsTrue, IfOk, IfSome, IfNone};
ghost use Rattle.limbo_types.specs.View.{view_ty};
ghost use Rattle.limbo_typed.specs.Sound.{Each};
ghost use Rattle.limbo_typed.specs.View.{view_exception};
ghost use Rattle.limbo_refusals.specs.Refusals.{NoneIs};
ghost use Rattle.limbo_context.specs.View.{view_context};
ghost use Rattle.limbo_stmt_values.specs.limbo_stating.Handlers.{Carries, AllCarry, IsCaught};

use limbo_context::Context;
use limbo_typed::{HandlerPattern, TException};
use limbo_types::{Ty, copy_all, equal};
use std::alloc::{AllocError, Global};

// The types of the values of an exception.
fn values_at(exceptions: &[TException], number: u32) -> Option<&[Ty]>
    ensures { option_map (λ ts. map view_ty ts.now) result
        ≡ option_map (λ x. x.values) (slice_get (map view_exception exceptions.now) number) }
{
    match exceptions.get(number as usize) {
        Some(exception) => Some(&exception.values),
        None => None,
    }
}

// The types of the values of the declared exception that a pattern takes.
fn carried<'a>(context: &'a Context, pattern: &HandlerPattern) -> Option<&'a [Ty]>
    ensures found { IfSome result (λ ts. Carries (view_context context.now) pattern.now (map view_ty ts.now)) }
    ensures none { IfNone result (NoneIs (Carries (view_context context.now) pattern.now)) }
{
    match pattern {
        HandlerPattern::Declared(number) => values_at(&context.exceptions, *number),
        _ => None,
    }
}

// Whether types are the same, each as its counterpart.
fn are_same(ts: &[Ty], us: &[Ty]) -> bool
    ensures { IsTrue result ↔ (map view_ty ts.now ≡ map view_ty us.now) }
{
    if ts.len() != us.len() {
        return false;
    }
    for i in 0..ts.len() {
        if !equal(&ts[i], &us[i]) {
            return false;
        }
    }
    true
}

// Whether a pattern takes a declared exception with values of these types.
fn carries(context: &Context, pattern: &HandlerPattern, values: &[Ty]) -> bool
    ensures { IsTrue result ↔ Carries (view_context context.now) pattern.now (map view_ty values.now) }
{
    match carried(context, pattern) {
        Some(own) => are_same(own, values),
        None => false,
    }
}

// Whether each of these patterns takes such an exception.
fn each_carries(context: &Context, patterns: &[HandlerPattern], values: &[Ty]) -> bool
    ensures { IsTrue result ↔ Each (λ z. Carries (view_context context.now) z (map view_ty values.now)) patterns.now }
{
    for pattern in patterns {
        if !carries(context, pattern, values) {
            return false;
        }
    }
    true
}

// The types of the values that all exceptions have which these patterns take.
fn carried_by_all<'a>(context: &'a Context, patterns: &[HandlerPattern]) -> Option<&'a [Ty]>
    ensures found { IfSome result (λ ts. AllCarry (view_context context.now) patterns.now (map view_ty ts.now)) }
    ensures none { IfNone result (NoneIs (AllCarry (view_context context.now) patterns.now)) }
{
    match patterns.split_first() {
        Some((first, others)) => match carried(context, first) {
            Some(values) => {
                if each_carries(context, others, values) {
                    Some(values)
                } else {
                    None
                }
            }
            None => None,
        },
        None => None,
    }
}

/// The type of what the name of a handler has in an arm with these patterns.
///
/// # Errors
/// Want of memory.
pub(crate) fn caught(
    alloc: Global,
    context: &Context,
    patterns: &[HandlerPattern],
) -> Result<Ty, AllocError>
    ensures { IfOk result (λ t. IsCaught (view_context context.now) patterns.now (view_ty t)) }
{
    match carried_by_all(context, patterns) {
        Some(values) => Ok(Ty::Tuple(copy_all(alloc, values)?)),
        None => Ok(Ty::Chars),
    }
}
