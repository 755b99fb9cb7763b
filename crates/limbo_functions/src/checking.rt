//! A function.

ghost use Rattle.std.specs.Prelude.{◌≡◌, map, IfOk, IfErr};
ghost use Rattle.limbo_tree.specs.View.{name_of};
ghost use Rattle.limbo_types.specs.View.{view_fn};
ghost use Rattle.limbo_typed.specs.View.{view_var, view_stmts, view_function};
ghost use Rattle.limbo_scope.specs.Scopes.{left};
ghost use Rattle.limbo_causes.specs.declared.fault.Cause.TheVariants.{NoMemory};
ghost use Rattle.limbo_context.specs.View.{view_context, view_callee};
ghost use Rattle.limbo_stmt_values.specs.limbo_stating.Functions.{IsFunction, FailsFunction};
ghost use Rattle.limbo_stmt_values.specs.Whys.{FailsFor};
ghost use Rattle.limbo_stmt_values.specs.declared.fault.Why.TheVariants.{Part};
ghost use Rattle.limbo_stmts.specs.View.{view_point};
ghost use Rattle.limbo_functions.specs.View.{own_name, definition_of};
ghost use Rattle.limbo_functions.specs.Outside.{StandsOutside, outside_of};
ghost use Rattle.limbo_functions.specs.Bodies.{function_of};

use crate::answering::body;
use crate::beginning::begin;
use crate::faults::no_memory;
use inf_text::Text;
use limbo_context::Callee;
use limbo_stmt_values::StmtFault;
use limbo_stmts::Point;
use limbo_tree::Function;
use limbo_typed::{TFn, TStmt, TVar};
use limbo_types::copy_fn;
use std::alloc::{AllocError, Global};
use std::mem;

// Goes out of a function, and answers the variables that it has and how many handlers.
fn leave(alloc: Global, point: &mut Point) -> (Vec<TVar>, u32)
    ensures variables { result.0 ≡ point.old.body.variables }
    ensures catches { result.1 ≡ point.old.catches }
    ensures left { view_point point.new ≡ outside_of (view_context point.old.context) (left point.old.body.scopes) }
{
    let variables = mem::replace(&mut point.body.variables, Vec::new(alloc));
    let catches = mem::replace(&mut point.catches, 0);
    let _was_inside = point.body.scopes.leave();
    (variables, catches)
}

// The name of a function itself.
fn own_name(function: &Function) -> Result<Text, AllocError>
    ensures { IfOk result (λ t. t ≡ own_name function.now.name.text (name_of function.now.part)) }
{
    match &function.part {
        Some(part) => part.text.clone(),
        None => function.name.text.clone(),
    }
}

// A function of these statements and variables.
fn made(
    alloc: Global,
    callee: &Callee,
    function: &Function,
    variables: Vec<TVar>,
    catches: u32,
    body: Vec<TStmt>,
) -> Result<TFn, AllocError>
    ensures { IfOk result (λ g. view_function g ≡ record {
      name = (definition_of function.now).name;
      owner = callee.now.owner;
      of = view_fn callee.now.of;
      variables = map view_var variables.items;
      catches = catches;
      body = view_stmts body.items;
    }) }
{
    let name = own_name(function)?;
    let of = copy_fn(alloc, &callee.of)?;
    Ok(TFn {
        name,
        owner: callee.owner,
        of,
        variables,
        catches,
        body,
    })
}

// The function of these statements, behind which the checking stands outside again.
fn close(
    alloc: Global,
    point: &mut Point,
    callee: &Callee,
    function: &Function,
    body: Vec<TStmt>,
) -> Result<TFn, StmtFault>
    ensures function { IfOk result (λ g. view_function g ≡ function_of (view_callee callee.now) (definition_of function.now)
        (view_stmts body.items) (view_point point.old)) }
    ensures left { view_point point.new ≡ outside_of (view_context point.old.context) (left point.old.body.scopes) }
    ensures refused { IfErr result (λ f. f.why ≡ Part NoMemory) }
{
    let (variables, catches) = leave(alloc, point);
    match made(alloc, callee, function, variables, catches, body) {
        Ok(g) => Ok(g),
        Err(_) => Err(no_memory()),
    }
}

/// The typed function that a definition is, as the function is declared. The checking stands outside of all functions, in the scopes of the
/// module's top level, and does so again behind it.
///
/// # Errors
/// 41 where two parameters have one name; those of the types that the definition writes; 50 where these are others than the declared ones;
/// those of its block; 63 where a path ends without an answer.
pub fn check_function(
    alloc: Global,
    module_name: &Text,
    point: &mut Point,
    callee: &Callee,
    function: &Function,
) -> Result<TFn, StmtFault>
    requires outside { StandsOutside (view_point point.old) }
    ensures function { IfOk result (λ g. IsFunction module_name.now point.old.body.scopes (view_callee callee.now)
        (definition_of function.now) (view_context point.old.context) (view_function g) (view_context point.new.context)) }
    ensures outside { IfOk result (λ _. StandsOutside (view_point point.new)) }
    ensures same_scopes { IfOk result (λ _. point.new.body.scopes ≡ point.old.body.scopes) }
    ensures refused { IfErr result (λ f. FailsFor f.why (FailsFunction module_name.now point.old.body.scopes (view_callee callee.now)
        (definition_of function.now) (view_context point.old.context))) }
{
    match begin(alloc, point, &callee.of, function) {
        Err(fault) => Err(fault),
        Ok(()) => match body(alloc, module_name, point, &callee.of, function) {
            Err(fault) => Err(fault),
            Ok(statements) => close(alloc, point, callee, function, statements),
        },
    }
}
