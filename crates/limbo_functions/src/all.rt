//! All functions of a module.

ghost use Rattle.std.specs.Prelude.{◌≡◌, length, map, IfOk, IfErr};
ghost use Rattle.limbo_typed.specs.View.{view_function};
ghost use Rattle.limbo_context.specs.View.{view_context, view_callee};
ghost use Rattle.limbo_stmt_values.specs.limbo_stating.Functions.{AreFunctions, FailsSomeFunction};
ghost use Rattle.limbo_stmt_values.specs.Whys.{FailsFor};
ghost use Rattle.limbo_stmts.specs.View.{view_point};
ghost use Rattle.limbo_functions.specs.View.{definitions_of};
ghost use Rattle.limbo_functions.specs.Outside.{StandsOutside};
ghost use Rattle.limbo_functions.specs.First.{FailsFirst};

use crate::checking::check_function;
use crate::faults::no_memory;
use inf_text::Text;
use limbo_context::Callee;
use limbo_stmt_values::StmtFault;
use limbo_stmts::Point;
use limbo_tree::Function;
use limbo_typed::TFn;
use std::alloc::Global;

/// Why a definition of a module is no function.
#[derive(Drop)]
pub struct FunctionFault {
    /// The number of the function.
    pub number: usize,
    pub fault: StmtFault,
}

/// The typed functions that definitions are, one for each that is declared, in the order of their numbers. The checking stands outside of
/// all functions, in the scopes of the module's top level, and does so again behind them.
///
/// # Errors
/// That of the first definition that is no function, and its number.
pub fn check_functions(
    alloc: Global,
    module_name: &Text,
    point: &mut Point,
    callees: &[Callee],
    definitions: &[&Function],
) -> Result<Vec<TFn>, FunctionFault>
    requires outside { StandsOutside (view_point point.old) }
    requires one_each { length callees.now ≡ length definitions.now }
    ensures functions { IfOk result (λ gs. AreFunctions module_name.now point.old.body.scopes (map view_callee callees.now)
        (definitions_of definitions.now) (view_context point.old.context) (map view_function gs.items) (view_context point.new.context)) }
    ensures outside { IfOk result (λ _. StandsOutside (view_point point.new)) }
    ensures same_scopes { IfOk result (λ _. point.new.body.scopes ≡ point.old.body.scopes) }
    ensures refused { IfErr result (λ f. FailsFor f.fault.why (FailsSomeFunction module_name.now point.old.body.scopes
        (map view_callee callees.now) (definitions_of definitions.now) (view_context point.old.context))) }
    ensures first { IfErr result (λ f. FailsFor f.fault.why (FailsFirst module_name.now point.old.body.scopes
        (map view_callee callees.now) (definitions_of definitions.now) (view_context point.old.context) f.number)) }
{
    let mut functions = Vec::new(alloc);
    for number in 0..definitions.len() {
        match check_function(
            alloc,
            module_name,
            point,
            &callees[number],
            definitions[number],
        ) {
            Err(fault) => return Err(FunctionFault { number, fault }),
            Ok(function) => match functions.push(function) {
                Ok(()) => {}
                Err(_) => {
                    return Err(FunctionFault {
                        number,
                        fault: no_memory(),
                    });
                }
            },
        }
    }
    Ok(functions)
}
