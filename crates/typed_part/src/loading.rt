//! The load of `Sys` with which a module begins.

ghost use Rattle.std.specs.Prelude.{◌≡◌, codes, nat_eq};
ghost use Rattle.limbo_typed.specs.View as typed;
ghost use Rattle.typed_part.specs.Part as part;

use crate::places::global_to;
use inf_text::{Text, is_spelled};
use limbo_typed::{TExpr, TNode, TStmt};

// Whether a text is the path of `Sys`.
fn is_sys_path(text: &Text) -> bool
    ensures { result ≡ part.is_text text.now (codes "$Sys") }
{
    is_spelled(text.as_slice(), "$Sys")
}

#[tactic(auto, using(limbo_typed::proofs::View::the_exprs, crate::proofs::Others::no_path))]
fn is_path_node(node: &TNode) -> bool
    ensures { result ≡ part.is_path_node (typed.view_node node.now) }
{
    match node {
        TNode::Chars(text) => is_sys_path(text),
        _ => false,
    }
}

// Whether an expression is the path of `Sys`.
#[tactic(auto, using(limbo_typed::proofs::View::the_exprs))]
fn is_path(e: &TExpr) -> bool
    ensures { result ≡ part.is_path (typed.view_expr e.now) }
{
    is_path_node(&e.node)
}

fn is_system(system: Option<u32>, interface: u32) -> bool
    ensures { result ≡ part.some_is (nat_eq interface) system }
{
    match system {
        Some(number) => interface == number,
        None => false,
    }
}

#[tactic(auto, using(limbo_typed::proofs::View::the_exprs, crate::proofs::Others::no_load))]
fn is_load_node(system: Option<u32>, node: &TNode) -> bool
    ensures { result ≡ part.is_load_node system (typed.view_node node.now) }
{
    match node {
        TNode::Load { interface, path } => is_system(system, *interface) && is_path(path),
        _ => false,
    }
}

// Whether an expression loads `Sys`.
#[tactic(auto, using(limbo_typed::proofs::View::the_exprs))]
fn is_load(system: Option<u32>, e: &TExpr) -> bool
    ensures { result ≡ part.is_load system (typed.view_expr e.now) }
{
    is_load_node(system, &e.node)
}

#[tactic(auto, using(limbo_typed::proofs::View::the_exprs, crate::proofs::Others::loads_not))]
fn loads_node(system: Option<u32>, node: &TNode) -> Option<u32>
    ensures { result ≡ part.loads_node system (typed.view_node node.now) }
{
    match node {
        TNode::Assign { pattern, value } => {
            if is_load(system, value) {
                global_to(pattern)
            } else {
                None
            }
        }
        _ => None,
    }
}

/// The module's variable that an expression loads `Sys` into.
#[tactic(auto, using(limbo_typed::proofs::View::the_exprs))]
pub(crate) fn loads(system: Option<u32>, e: &TExpr) -> Option<u32>
    ensures { result ≡ part.loads system (typed.view_expr e.now) }
{
    loads_node(system, &e.node)
}

#[tactic(auto, using(limbo_typed::proofs::View::the_stmts, crate::proofs::Others::evaluates_not))]
fn loads_stmt(system: Option<u32>, s: &TStmt) -> Option<u32>
    ensures { result ≡ part.loads_stmt system (typed.view_stmt s.now) }
{
    match s {
        TStmt::Eval(e) => loads(system, e),
        _ => None,
    }
}

/// The module's variable that statements begin by loading `Sys` into.
pub(crate) fn loads_first(system: Option<u32>, ss: &[TStmt]) -> Option<u32>
    ensures { result ≡ part.loads_first system (typed.view_stmts ss.now) }
{
    match ss.first() {
        Some(s) => loads_stmt(system, s),
        None => None,
    }
}
