//! Prints with literal formats.

ghost use Rattle.std.specs.Prelude.{ℕ, ◌≡◌, [], ◌∷◌, ◌++◌, IfOk, IfErr, List, Option, Some, map, option_map};
ghost use Rattle.limbo_types.specs.Types.{RefAdt};
ghost use Rattle.limbo_types.specs.View.{view_ty};
ghost use Rattle.limbo_typed.specs.declared.print.Piece as code_piece;
ghost use Rattle.limbo_typed.specs.Typed.{Exprs};
ghost use Rattle.limbo_typed.specs.Sound as sound;
ghost use Rattle.limbo_typed.specs.Sound.{holes, type_of_hole};
ghost use Rattle.limbo_typed.specs.View.{view_expr, view_exprs, view_optional};
ghost use Rattle.limbo_refusals.specs.Refusals as refusals;
ghost use Rattle.limbo_refusals.specs.Refusals.{Refuses, NoneIs, told};
ghost use Rattle.limbo_arguments.specs.limbo_standing.Standing.{Settles};
ghost use Rattle.limbo_calls.specs.Prints.{PrintsTo, Formats, Prints, listed_option};
ghost use Rattle.limbo_calls.specs.OutputView.{view_output};
ghost use Rattle.limbo_calls.specs.Refusing.{FailsAsFile, FailsFile, RefusesPrint};

use inf_text::Text;
use limbo_arguments::{expr_of, settle_each, settle_or_clash};
use limbo_formats::{fit, parts_of};
use limbo_forms::of_kind;
use limbo_refusals::{ExprFault, clash_of};
use limbo_typed::{Hole, Piece, Printed, TExpr, TNode};
use limbo_types::Ty;
use std::alloc::{AllocError, Global};

/// What is printed to.
#[derive(Drop)]
pub enum Output {
    /// `print`: the standard output.
    Print,
    /// `fprint`: a file.
    Fprint(Box<TExpr>),
    /// `sprint`: nothing, the text is given.
    Sprint,
}

// The file of `fprint`, where a `ref` of `FD` is asked for, which has this number.
#[tactic(auto, using(limbo_types::proofs::View::the_types))]
fn settle_file(
    alloc: Global,
    fd: Option<u32>,
    mut file: Box<TExpr>,
) -> Result<Box<TExpr>, ExprFault>
    ensures settled { IfOk result
        (λ f. (n : ℕ) × (fd ≡ Some n) × Settles (RefAdt n) (view_expr file.value) (view_expr f.value)) }
    ensures refused { IfErr result (λ f. Refuses f (FailsAsFile (view_expr file.value) fd)) }
{
    let Some(fd) = fd else {
        return Err(clash_of(alloc, &file.ty, &file.ty));
    };
    settle_or_clash(alloc, &mut file, &Ty::RefAdt(fd))?;
    Ok(file)
}

// What is called, and the file.
#[tactic(auto, using(limbo_typed::proofs::View::the_exprs))]
fn settle_output(
    alloc: Global,
    fd: Option<u32>,
    output: Output,
) -> Result<(Printed, Option<Box<TExpr>>), ExprFault>
    ensures settled { IfOk result (λ p. PrintsTo (view_output output) fd p.0 (view_optional p.1)) }
    ensures refused { IfErr result (λ f. Refuses f (FailsFile (view_output output) fd)) }
{
    match output {
        Output::Print => Ok((Printed::Print, None)),
        Output::Fprint(file) => {
            let settled = settle_file(alloc, fd, file)?;
            Ok((Printed::Fprint, Some(settled)))
        }
        Output::Sprint => Ok((Printed::Sprint, None)),
    }
}

// The type of the argument that a hole takes, if it takes one.
#[tactic(auto, using(limbo_types::proofs::View::the_types))]
fn hole_type(hole: Hole) -> Option<Ty>
    ensures { listed_option (option_map view_ty result) ≡ type_of_hole hole }
{
    match hole {
        Hole::Decimal(kind) => Some(of_kind(kind)),
        Hole::Chars => Some(Ty::Chars),
        Hole::Character => Some(Ty::Int),
        Hole::Hexadecimal => Some(Ty::Int),
        Hole::Error => None,
    }
}

// The type of the argument that a piece of a format takes, if it takes one.
fn piece_type(piece: &Piece) -> Option<Ty>
    ensures { listed_option (option_map view_ty result) ≡ holes (piece.now ∷ []) }
{
    match piece {
        Piece::Chars(_) => None,
        Piece::Hole(hole) => hole_type(*hole),
    }
}

// Adds the type of the argument that a piece takes, if it takes one.
fn add_hole(types: &mut Vec<Ty>, piece: &Piece) -> Result<(), AllocError>
    ensures { IfOk result
        (λ _. map view_ty types.new.items ≡ map view_ty types.old.items ++ holes (piece.now ∷ [])) }
{
    match piece_type(piece) {
        None => Ok(()),
        Some(t) => {
            types.push(t)?;
            Ok(())
        }
    }
}

// The types of the arguments that a format takes.
fn hole_types(alloc: Global, pieces: &[Piece]) -> Result<Vec<Ty>, AllocError>
    ensures { IfOk result (λ ts. map view_ty ts.items ≡ holes pieces.now) }
{
    let mut types = Vec::new(alloc);
    for piece in pieces {
        add_hole(&mut types, piece)?;
    }
    Ok(types)
}

// The refusal of a format in place of another one.
#[tactic(auto, using(crate::proofs::Prints::other_fault))]
fn bad_format(fault: ExprFault) -> ExprFault
    ensures { told result ≡ option_map (λ _. refusals.BadFormat) (told fault) }
{
    match fault {
        ExprFault::NoMemory => ExprFault::NoMemory,
        _ => ExprFault::BadFormat,
    }
}

// The pieces of a literal format, and its arguments where their types are asked for.
fn settle_format(
    alloc: Global,
    text: &Text,
    args: Vec<TExpr>,
) -> Result<(Vec<Piece>, Vec<TExpr>), ExprFault>
    ensures settled { IfOk result (λ p. Formats text.now (view_exprs args.items) p.0.items (view_exprs p.1.items)) }
    ensures refused { IfErr result (λ f. Refuses f (λ r. (r ≡ refusals.BadFormat)
        × ((ps : List code_piece.Piece) (es : Exprs) → Formats text.now (view_exprs args.items) ps es → ⊥))) }
{
    let Some(parts) = parts_of(alloc, text)? else {
        return Err(ExprFault::BadFormat);
    };
    let Some(pieces) = fit(alloc, &parts, &args)? else {
        return Err(ExprFault::BadFormat);
    };
    let asked = hole_types(alloc, &pieces)?;
    match settle_each(alloc, args, &asked, &Ty::Chars) {
        Ok(values) => Ok((pieces, values)),
        Err(fault) => Err(bad_format(fault)),
    }
}

// The type of what is given.
#[tactic(auto, using(limbo_types::proofs::View::the_types))]
fn printed_type(printed: Printed) -> Ty
    ensures { view_ty result ≡ sound.printed_type printed }
{
    match printed {
        Printed::Print => Ty::Int,
        Printed::Fprint => Ty::Int,
        Printed::Sprint => Ty::Chars,
    }
}

/// `print`, `fprint` and `sprint` through a value of `Sys`, with a literal format and its arguments. The file of `fprint` is a `ref` of
/// the adt `FD`, whose number is `fd`.
///
/// # Errors
/// The type of a file beside the `ref`, where it doesn't stand for it, and beside itself where there is no `FD`; that the format is none,
/// or that its arguments don't fit it; want of memory.
#[tactic(auto, using(limbo_typed::proofs::View::the_exprs))]
pub fn print(
    alloc: Global,
    fd: Option<u32>,
    output: Output,
    instance: Box<TExpr>,
    text: &Text,
    args: Vec<TExpr>,
) -> Result<Box<TExpr>, ExprFault>
    ensures typed { IfOk result (λ e. Prints fd (view_output output) (view_expr instance.value) text.now (view_exprs args.items)
        (view_expr e.value)) }
    ensures refused { IfErr result (λ f. Refuses f (λ r. RefusesPrint fd (view_output output) text.now (view_exprs args.items) r
        × NoneIs (Prints fd (view_output output) (view_expr instance.value) text.now (view_exprs args.items)))) }
{
    let (printed, file) = settle_output(alloc, fd, output)?;
    let (format, values) = settle_format(alloc, text, args)?;
    let node = TNode::Print {
        printed,
        module: instance,
        file,
        format,
        args: values,
    };
    Ok(expr_of(alloc, printed_type(printed), node)?)
}
