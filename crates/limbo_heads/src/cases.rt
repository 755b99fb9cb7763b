//! The patterns of an arm of a `case`.

ghost use Rattle.std.specs.Prelude.{map, IfOk, IfErr};
ghost use Rattle.limbo_tree.specs.View as source;
ghost use Rattle.limbo_types.specs.View.{view_ty};
ghost use Rattle.limbo_context.specs.View.{view_context, view_body};
ghost use Rattle.limbo_stmt_values.specs.limbo_stating.Cases.{ArePatterns, FailsPatterns};
ghost use Rattle.limbo_stmt_values.specs.Leading.{From, Leads};
ghost use Rattle.limbo_stmt_values.specs.Whys.{FailsFor};

use limbo_causes::TypingFault;
use limbo_context::{Body, Context};
use limbo_stmt_values::{StmtFault, case_pattern, part_fault};
use limbo_tree::Pattern;
use limbo_typed::CasePattern;
use limbo_types::Ty;
use std::alloc::Global;

/// The patterns of an arm of a `case` of values of a type.
///
/// # Errors
/// Those of the first that fails.
pub fn case_patterns(
    alloc: Global,
    context: &Context,
    body: &mut Body,
    patterns: &[Pattern],
    t: &Ty,
) -> Result<Vec<CasePattern>, StmtFault>
    ensures patterns { IfOk result (λ zs. Leads
        (λ p q. ArePatterns (view_ty t.now) p (map source.view_pattern patterns.now) zs.items q)
        (view_context context.now) (view_body body.old) (view_body body.new)) }
    ensures refused { IfErr result (λ f. FailsFor f.why
        (λ k. From (λ p. FailsPatterns (view_ty t.now) p (map source.view_pattern patterns.now) k)
        (view_context context.now) (view_body body.old))) }
{
    let mut zs = Vec::new(alloc);
    for pattern in patterns {
        match case_pattern(alloc, context, body, pattern, t) {
            Ok(z) => match zs.push(z) {
                Ok(()) => {}
                Err(_) => return Err(part_fault(TypingFault::no_memory())),
            },
            Err(fault) => return Err(fault),
        }
    }
    Ok(zs)
}
