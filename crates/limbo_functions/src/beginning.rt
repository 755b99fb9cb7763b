//! Where the block of a function begins.

ghost use Rattle.std.specs.Prelude.{◌≡◌, ◌<◌, length, IfOk, IfErr};
ghost use Rattle.limbo_tree.specs.View as source;
ghost use Rattle.limbo_types.specs.View.{view_fn};
ghost use Rattle.limbo_declarations.specs.Scopes.{FnIsOnce};
ghost use Rattle.limbo_causes.specs.declared.fault.Cause.TheVariants.{NoMemory};
ghost use Rattle.limbo_context.specs.View.{view_context};
ghost use Rattle.limbo_stmt_values.specs.limbo_local.Local.{IsHeader};
ghost use Rattle.limbo_stmt_values.specs.limbo_stating.Functions as functions;
ghost use Rattle.limbo_stmt_values.specs.Whys.{FailsFor};
ghost use Rattle.limbo_stmt_values.specs.declared.fault.Why.TheVariants.{Part};
ghost use Rattle.limbo_stmts.specs.View.{view_point};
ghost use Rattle.limbo_functions.specs.View.{definition_of};
ghost use Rattle.limbo_functions.specs.Outside.{StandsOutside};
ghost use Rattle.limbo_functions.specs.Headings.{FailsHeading, Begins};

use crate::faults::no_memory;
use crate::heading::{as_declared, names_once};
use limbo_bodies::begin_body;
use limbo_context::{Body, BodyFault};
use limbo_scope::Scopes;
use limbo_stmt_values::StmtFault;
use limbo_stmts::Point;
use limbo_tree::Function;
use limbo_types::FnTy;
use std::alloc::Global;
use std::mem;

// The scope of a function's parameters begins, which have other names each.
fn enter(alloc: Global, point: &mut Point, of: &FnTy, function: &Function) -> Result<(), StmtFault>
    requires outside { StandsOutside (view_point point.old) }
    requires once { FnIsOnce (source.view_fn function.now.of) }
    requires header { IsHeader (view_context point.old.context) (functions.outside point.old.body.scopes)
        (source.view_fn function.now.of) (view_fn of.now) }
    ensures begins { IfOk result (λ _. view_point point.new
        ≡ functions.begins (view_context point.old.context) point.old.body.scopes (definition_of function.now) (view_fn of.now)) }
    ensures refused { IfErr result (λ f. f.why ≡ Part NoMemory) }
{
    let none = Body {
        scopes: Scopes::new(alloc),
        variables: Vec::new(alloc),
    };
    let Body { scopes, .. } = mem::replace(&mut point.body, none);
    match begin_body(alloc, scopes, &function.of, of) {
        Ok(body) => {
            point.body = body;
            Ok(())
        }
        Err(BodyFault::NoMemory) => Err(no_memory()),
        Err(BodyFault::Twice) => unreachable!(),
    }
}

/// Comes to where the block of a function begins, from outside of all functions.
///
/// # Errors
/// 41 where two parameters have one name; those of the types that the definition writes; 50 where these are others than the declared ones.
pub(crate) fn begin(
    alloc: Global,
    point: &mut Point,
    of: &FnTy,
    function: &Function,
) -> Result<(), StmtFault>
    requires outside { StandsOutside (view_point point.old) }
    ensures begins { IfOk result (λ _. Begins (view_context point.old.context) point.old.body.scopes (definition_of function.now)
        (view_fn of.now) (view_point point.new)) }
    ensures refused { IfErr result (λ f. FailsFor f.why (FailsHeading (view_context point.old.context)
        (functions.outside point.old.body.scopes) (source.view_fn function.now.of) (view_fn of.now))) }
{
    let depth = point.body.scopes.depth();
    prove!(depth > 0);
    match names_once(alloc, &function.of) {
        Err(fault) => Err(fault),
        Ok(()) => match as_declared(alloc, &point.context, &point.body, of, function) {
            Err(fault) => Err(fault),
            Ok(()) => enter(alloc, point, of, function),
        },
    }
}
