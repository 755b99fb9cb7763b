//! The statements of a function, each path of which ends in an answer if it has one.

ghost use Rattle.std.specs.Prelude.{◌≡◌, ◌≢◌, ◌↔◌, ◌⊎◌, IsTrue, IfOk, IfErr};
ghost use Rattle.limbo_tree.specs.View as source;
ghost use Rattle.limbo_types.specs.Types.{Nothing};
ghost use Rattle.limbo_types.specs.View.{view_ty, view_fn};
ghost use Rattle.limbo_adts.specs.Table.{defs_of};
ghost use Rattle.limbo_typed.specs.View.{view_stmt, view_stmts};
ghost use Rattle.limbo_paths.specs.Paths.{Answers};
ghost use Rattle.limbo_causes.specs.declared.fault.Cause.TheVariants.{NoMemory};
ghost use Rattle.limbo_stmt_values.specs.limbo_stating.Functions as functions;
ghost use Rattle.limbo_stmt_values.specs.limbo_stating.Reasons as reasons;
ghost use Rattle.limbo_stmt_values.specs.limbo_stating.Stating.{one};
ghost use Rattle.limbo_stmt_values.specs.Whys.{FailsFor};
ghost use Rattle.limbo_stmts.specs.View.{view_point};
ghost use Rattle.limbo_functions.specs.Bodies.{IsBody, FailsBody};

use crate::faults::no_memory;
use inf_text::{Span, Text};
use limbo_adts::Adts;
use limbo_paths::falls_through;
use limbo_stmt_values::{StmtFault, Why};
use limbo_stmts::limbo_heads::Around;
use limbo_stmts::{Point, block};
use limbo_tree::Function;
use limbo_typed::TStmt;
use limbo_types::{FnTy, Ty, equal};
use std::alloc::{AllocError, Global};

// A statement alone.
fn alone(alloc: Global, s: TStmt) -> Result<Vec<TStmt>, AllocError>
    ensures { IfOk result (λ zs. view_stmts zs.items ≡ one (view_stmt s)) }
{
    let mut zs = Vec::new(alloc);
    zs.push(s)?;
    Ok(zs)
}

// The statements of a block that is a function's.
#[tactic(auto, using(limbo_typed::proofs::View::the_stmts))]
fn statements_of(alloc: Global, z: Box<TStmt>) -> Result<Vec<TStmt>, AllocError>
    ensures { IfOk result (λ zs. view_stmts zs.items ≡ functions.body_of (view_stmt z.value)) }
{
    match Box::into_inner(z) {
        TStmt::Block(zs) => Ok(zs),
        s => alone(alloc, s),
    }
}

// Whether each path of a body ends in an answer, where there is one to give.
#[tactic(auto, using(limbo_types::proofs::View::the_types))]
fn answers(adts: &Adts, answer: &Ty, body: &[TStmt]) -> bool
    ensures { IsTrue result ↔ ((view_ty answer.now ≡ Nothing) ⊎ Answers (defs_of adts.now) (view_stmts body.now)) }
{
    equal(answer, &Ty::Nothing) || !falls_through(adts, body)
}

// The statements of a function's block, behind which the checking has come to this point.
fn answered(
    alloc: Global,
    point: &Point,
    answer: &Ty,
    z: Box<TStmt>,
    at: Span,
) -> Result<Vec<TStmt>, StmtFault>
    ensures body { IfOk result (λ zs. view_stmts zs.items ≡ functions.body_of (view_stmt z.value)) }
    ensures answers { IfOk result (λ zs. (view_ty answer.now ≡ Nothing) ⊎ Answers (defs_of point.now.context.adts) (view_stmts zs.items)) }
    ensures refused { IfErr result (λ f. FailsFor f.why (λ k. (k ≡ reasons.NoReturn) × (view_ty answer.now ≢ Nothing)
        × (Answers (defs_of point.now.context.adts) (functions.body_of (view_stmt z.value)) → ⊥))) }
{
    match statements_of(alloc, z) {
        Err(_) => Err(no_memory()),
        Ok(body) => {
            if answers(&point.context.adts, answer, &body) {
                Ok(body)
            } else {
                Err(StmtFault {
                    why: Why::NoReturn,
                    at,
                })
            }
        }
    }
}

/// The statements of a function, from where its block begins.
///
/// # Errors
/// Those of the block; 63 where a path ends without an answer.
pub(crate) fn body(
    alloc: Global,
    module_name: &Text,
    point: &mut Point,
    of: &FnTy,
    function: &Function,
) -> Result<Vec<TStmt>, StmtFault>
    ensures body { IfOk result (λ zs. IsBody (functions.around module_name.now (view_fn of.now)) (view_point point.old)
        (source.view_block function.now.body) (view_stmts zs.items) (view_point point.new)) }
    ensures refused { IfErr result (λ f. FailsFor f.why (FailsBody (functions.around module_name.now (view_fn of.now))
        (view_point point.old) (source.view_block function.now.body))) }
{
    let around = Around {
        answer: &of.answer,
        module_name,
        turns: Vec::new(alloc),
        caught: None,
    };
    match block(alloc, &around, point, &function.body) {
        Err(fault) => Err(fault),
        Ok(z) => answered(alloc, point, &of.answer, z, function.name.span),
    }
}
