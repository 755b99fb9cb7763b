//! Calls, prints and loads.

ghost use Rattle.std.specs.Prelude.{ℕ, ◌≡◌, IfOk, IfErr, IfSome, IfNone, List, map};
ghost use Rattle.limbo_tree.specs.Exprs as tree;
ghost use Rattle.limbo_tree.specs.View as source;
ghost use Rattle.limbo_typed.specs.declared.print.Printed.TheVariants.{Fprint};
ghost use Rattle.limbo_typed.specs.Typed.{Exprs};
ghost use Rattle.limbo_typed.specs.View.{view_expr};
ghost use Rattle.limbo_refusals.specs.Refusals.{BadFormat};
ghost use Rattle.limbo_causes.specs.Causes as causes;
ghost use Rattle.limbo_causes.specs.Causes.{FailsBy};
ghost use Rattle.limbo_causes.specs.declared.fault.Cause.TheVariants.{NoMemory};
ghost use Rattle.limbo_context.specs.View.{view_context, view_body};
ghost use Rattle.limbo_calls.specs.OutputView.{view_output};
ghost use Rattle.limbo_things.specs.ThingView.{view_thing};
ghost use Rattle.limbo_typing.specs.Typing.{literal_first, format_in, OutputIs, Has};
ghost use Rattle.limbo_typing.specs.Failing.{FailsForm};
ghost use Rattle.limbo_exprs.specs.Calling.{IsPrinted, FailsPrinted, IsApplied, FailsApplied, IsCallee};

use crate::endings::placed;
use crate::naming::{denote, module_named};
use crate::valuing::{value, values};
use inf_text::{Span, Text};
use limbo_calls::{Output, print};
use limbo_causes::TypingFault;
use limbo_channels::load;
use limbo_context::{Body, Context};
use limbo_refusals::ExprFault;
use limbo_things::Thing;
use limbo_tree::Expr;
use limbo_typed::{Printed, TExpr};
use limbo_typing::limbo_applying::apply;
use std::alloc::Global;

/// `load` module path
#[cycle(exprs)]
pub(crate) fn loaded(
    alloc: Global,
    context: &Context,
    body: &mut Body,
    name: &Text,
    path: &Expr,
    at: Span,
) -> Result<Box<TExpr>, TypingFault>
    ensures typed { IfOk result (λ z. Has (view_context context.now) (view_body body.old)
        (tree.Load name.now (source.view_expr path.now)) (view_expr z.value) (view_body body.new)) }
    ensures refused { IfErr result (λ f. FailsBy f.cause (FailsForm (view_context context.now) (view_body body.old)
        (tree.Load name.now (source.view_expr path.now)))) }
{
    match module_named(alloc, context, body, name, at) {
        Err(fault) => Err(fault),
        Ok(interface) => match value(alloc, context, body, path) {
            Ok(x) => placed(load(alloc, interface, x), at),
            Err(fault) => Err(fault),
        },
    }
}

// A literal text.
#[tactic(auto, using(limbo_tree::proofs::Exprs::the_views))]
fn literal_of(e: &Expr) -> Option<&Text>
    ensures found { IfSome result (λ t. source.view_expr e.now ≡ tree.Chars t.now) }
    ensures none { IfNone result ((t : List ℕ) → source.view_expr e.now ≡ tree.Chars t → ⊥) }
{
    match e {
        Expr::Chars { text, .. } => Some(text),
        _ => None,
    }
}

// The refusal of a print whose format is no literal text.
fn no_format(at: Span) -> TypingFault
    ensures { FailsBy result.cause (λ k. k ≡ causes.Refused BadFormat) }
{
    TypingFault::refused(ExprFault::BadFormat, at)
}

// A print to the standard output or of nothing: the format is the first argument.
#[cycle(exprs)]
fn printed_first(
    alloc: Global,
    context: &Context,
    body: &mut Body,
    printed: Printed,
    output: Output,
    instance: Box<TExpr>,
    args: &[Expr],
    at: Span,
) -> Result<Box<TExpr>, TypingFault>
    requires output { (xs : Exprs) → OutputIs printed xs (view_output output) xs }
    requires first { (es : tree.Exprs) → format_in printed es ≡ literal_first es }
    ensures typed { IfOk result (λ z. IsPrinted (view_context context.now) (view_body body.old) printed (view_expr instance.value)
        (source.exprs_of (map source.view_expr args.now)) (view_expr z.value) (view_body body.new)) }
    ensures refused { IfErr result (λ f. FailsBy f.cause (FailsPrinted (view_context context.now) (view_body body.old) printed
        (view_expr instance.value) (source.exprs_of (map source.view_expr args.now)))) }
{
    let Some((format, others)) = args.split_first() else {
        return Err(no_format(at));
    };
    let Some(text) = literal_of(format) else {
        return Err(no_format(at));
    };
    match values(alloc, context, body, others) {
        Ok(xs) => placed(print(alloc, context.fd, output, instance, text, xs), at),
        Err(fault) => Err(fault),
    }
}

// A print to a file: the file is the first argument, the format the second.
#[cycle(exprs)]
fn printed_to_file(
    alloc: Global,
    context: &Context,
    body: &mut Body,
    instance: Box<TExpr>,
    args: &[Expr],
    at: Span,
) -> Result<Box<TExpr>, TypingFault>
    ensures typed { IfOk result (λ z. IsPrinted (view_context context.now) (view_body body.old) Fprint (view_expr instance.value)
        (source.exprs_of (map source.view_expr args.now)) (view_expr z.value) (view_body body.new)) }
    ensures refused { IfErr result (λ f. FailsBy f.cause (FailsPrinted (view_context context.now) (view_body body.old) Fprint
        (view_expr instance.value) (source.exprs_of (map source.view_expr args.now)))) }
{
    let Some((file, behind)) = args.split_first() else {
        return Err(no_format(at));
    };
    let Some((format, others)) = behind.split_first() else {
        return Err(no_format(at));
    };
    let Some(text) = literal_of(format) else {
        return Err(no_format(at));
    };
    match value(alloc, context, body, file) {
        Err(fault) => Err(fault),
        Ok(x) => match values(alloc, context, body, others) {
            Ok(xs) => placed(
                print(alloc, context.fd, Output::Fprint(x), instance, text, xs),
                at,
            ),
            Err(fault) => Err(fault),
        },
    }
}

// A print of arguments.
#[cycle(exprs)]
fn printed_call(
    alloc: Global,
    context: &Context,
    body: &mut Body,
    printed: Printed,
    instance: Box<TExpr>,
    args: &[Expr],
    at: Span,
) -> Result<Box<TExpr>, TypingFault>
    ensures typed { IfOk result (λ z. IsPrinted (view_context context.now) (view_body body.old) printed (view_expr instance.value)
        (source.exprs_of (map source.view_expr args.now)) (view_expr z.value) (view_body body.new)) }
    ensures refused { IfErr result (λ f. FailsBy f.cause (FailsPrinted (view_context context.now) (view_body body.old) printed
        (view_expr instance.value) (source.exprs_of (map source.view_expr args.now)))) }
{
    match printed {
        Printed::Fprint => printed_to_file(alloc, context, body, instance, args, at),
        Printed::Print => {
            let output = Output::Print;
            printed_first(alloc, context, body, printed, output, instance, args, at)
        }
        Printed::Sprint => {
            let output = Output::Sprint;
            printed_first(alloc, context, body, printed, output, instance, args, at)
        }
    }
}

// Anything else applied to arguments.
#[cycle(exprs)]
fn applied(
    alloc: Global,
    context: &Context,
    body: &mut Body,
    thing: Box<Thing>,
    args: &[Expr],
    at: Span,
) -> Result<Box<TExpr>, TypingFault>
    ensures typed { IfOk result (λ z. IsApplied (view_context context.now) (view_body body.old) (view_thing thing.value)
        (source.exprs_of (map source.view_expr args.now)) (view_expr z.value) (view_body body.new)) }
    ensures refused { IfErr result (λ f. FailsBy f.cause (FailsApplied (view_context context.now) (view_body body.old)
        (view_thing thing.value) (source.exprs_of (map source.view_expr args.now)))) }
{
    match values(alloc, context, body, args) {
        Ok(xs) => placed(apply(alloc, context, thing, xs), at),
        Err(fault) => Err(fault),
    }
}

// A thing that is no print, or else which print it is, with the value that it is of.
enum Callee {
    Other(Box<Thing>),
    Print(Printed, Box<TExpr>),
}

fn called_thing(alloc: Global, thing: Box<Thing>) -> Result<Callee, TypingFault>
    ensures callee { IfOk result (λ x. IsCallee (view_thing thing.value) x) }
    ensures refused { IfErr result (λ f. f.cause ≡ NoMemory) }
{
    match Box::into_inner(thing) {
        Thing::Print { printed, instance } => Ok(Callee::Print(printed, instance)),
        other => Ok(Callee::Other(Box::new(alloc, other)?)),
    }
}

/// `function(args)`
#[cycle(exprs)]
pub(crate) fn called(
    alloc: Global,
    context: &Context,
    body: &mut Body,
    function: &Expr,
    args: &[Expr],
    at: Span,
) -> Result<Box<TExpr>, TypingFault>
    ensures typed { IfOk result (λ z. Has (view_context context.now) (view_body body.old)
        (tree.Call (source.view_expr function.now) (source.exprs_of (map source.view_expr args.now)))
        (view_expr z.value) (view_body body.new)) }
    ensures refused { IfErr result (λ f. FailsBy f.cause (FailsForm (view_context context.now) (view_body body.old)
        (tree.Call (source.view_expr function.now) (source.exprs_of (map source.view_expr args.now))))) }
{
    match denote(alloc, context, body, function) {
        Err(fault) => Err(fault),
        Ok(thing) => match called_thing(alloc, thing)? {
            Callee::Print(printed, instance) => {
                printed_call(alloc, context, body, printed, instance, args, at)
            }
            Callee::Other(thing) => applied(alloc, context, body, thing, args, at),
        },
    }
}
