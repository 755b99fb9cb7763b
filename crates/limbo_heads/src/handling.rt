//! What an arm of a handler takes.

ghost use Rattle.std.specs.Prelude.{◌≡◌, ◌∷◌, List, map, IfOk, IfErr};
ghost use Rattle.limbo_tree.specs.Stmts as stmts;
ghost use Rattle.limbo_tree.specs.View as source;
ghost use Rattle.limbo_causes.specs.Causes.{FailsBy};
ghost use Rattle.limbo_context.specs.View.{view_context, view_body};
ghost use Rattle.limbo_stmt_values.specs.limbo_stating.Handlers as rules;
ghost use Rattle.limbo_stmt_values.specs.limbo_stating.Handlers.{IsHandled, AreHandled, FailsHandled};

use crate::exceptions::exception_named;
use inf_text::Text;
use limbo_causes::TypingFault;
use limbo_context::{Body, Context};
use limbo_tree::HandlerPattern;
use limbo_typed::HandlerPattern as TPattern;
use std::alloc::{AllocError, Global};

// The text of these characters.
fn text_of(alloc: Global, chars: &[char]) -> Result<Text, AllocError>
    ensures { IfOk result (λ t. t ≡ chars.now) }
{
    let mut text = Text::new(alloc);
    text.push_all(chars)?;
    Ok(text)
}

// The pattern of a text: where it ends in `*`, of the texts that begin so.
fn text_pattern(alloc: Global, text: &Text) -> Result<TPattern, AllocError>
    ensures { IfOk result (λ z. z ≡ rules.text_pattern text.now) }
{
    match text.as_slice().split_last() {
        Some((last, front)) => {
            if *last == '*' {
                Ok(TPattern::Prefix(text_of(alloc, front)?))
            } else {
                Ok(TPattern::Chars(text.clone()?))
            }
        }
        None => Ok(TPattern::Chars(text.clone()?)),
    }
}

// What a pattern takes.
fn handled(
    alloc: Global,
    context: &Context,
    body: &Body,
    pattern: &HandlerPattern,
) -> Result<TPattern, TypingFault>
    ensures handled { IfOk result (λ z. IsHandled (view_context context.now) (view_body body.now)
        (source.view_handler_pattern pattern.now) z) }
    ensures refused { IfErr result (λ f. FailsBy f.cause (λ k. (rest : List stmts.HandlerPattern)
        → FailsHandled (view_context context.now) (view_body body.now) (source.view_handler_pattern pattern.now ∷ rest) k)) }
{
    match pattern {
        HandlerPattern::Chars { text, .. } => Ok(text_pattern(alloc, text)?),
        HandlerPattern::Name { name, span } => {
            match exception_named(alloc, context, body, name, *span) {
                Ok(number) => Ok(TPattern::Declared(number)),
                Err(fault) => Err(fault),
            }
        }
        HandlerPattern::Any { .. } => Ok(TPattern::Any),
    }
}

/// What the patterns of an arm take.
///
/// # Errors
/// Those of the first that is no declared exception's name.
pub(crate) fn all_handled(
    alloc: Global,
    context: &Context,
    body: &Body,
    patterns: &[HandlerPattern],
) -> Result<Vec<TPattern>, TypingFault>
    ensures handled { IfOk result (λ zs. AreHandled (view_context context.now) (view_body body.now)
        (map source.view_handler_pattern patterns.now) zs.items) }
    ensures refused { IfErr result (λ f. FailsBy f.cause (FailsHandled (view_context context.now) (view_body body.now)
        (map source.view_handler_pattern patterns.now))) }
{
    let mut zs = Vec::new(alloc);
    for pattern in patterns {
        match handled(alloc, context, body, pattern) {
            Ok(z) => zs.push(z)?,
            Err(fault) => return Err(fault),
        }
    }
    Ok(zs)
}
