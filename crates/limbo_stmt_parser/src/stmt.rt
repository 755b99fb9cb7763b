//! Statements, blocks and arms, read by recursive descent: a statement reads those within with one nesting less, and lists
//! of statements and of arms are loops.

ghost use Rattle.std.specs.Prelude.{◌≡◌, ◌<◌, ◌++◌, [], ◌∷◌, IfOk, IfErr, map};
ghost use Rattle.limbo_reading.specs.declared.fault.ReadError.TheVariants.{NoMemory};
ghost use Rattle.limbo_tree.specs.View.{view_stmt, view_block, view_case_arm, view_alt_arm, view_pick_arm, view_handler_arm, name_of};
ghost use Rattle.limbo_reading.specs.Reading.{kinds, Gives};
ghost use Rattle.limbo_stmt_parts.specs.declared.start.Branch.TheVariants as branch;
ghost use Rattle.limbo_stmt_parts.specs.declared.start.Choice.TheVariants as choice;
ghost use Rattle.limbo_stmt_parts.specs.declared.start.Loop.TheVariants as loop;
ghost use Rattle.limbo_stmt_parts.specs.declared.start.Region.TheVariants as region;
ghost use Rattle.limbo_stmt_parser.specs.Stmts as stmts;

use crate::jump::{built, jump_at};
use inf_text::Span;
use limbo_decl_parser::decl_at;
use limbo_lexer::{Key, Mark, Token};
use limbo_reading::{
    ReadError, after_key, after_mark, expect_key, expect_mark, expect_name, place, too_deep,
};
use limbo_stmt_parts::{
    Branch, Choice, ForHead, Loop, Region, Start, alt_front_at, beginning, case_front_at, ends,
    expr_before, for_head_at, handler_front_at, label_at, option_before, pick_front_at,
};
use limbo_tree::{AltArm, Block, CaseArm, Handler, HandlerArm, Name, PickArm, Stmt};
use std::alloc::Global;

/// A statement of nesting up to the budget, and what stands behind it.
///
/// # Errors
/// `Syntax` or `TooDeep` at the first token that no statement goes on with; `NoMemory`.
#[tactic(auto, using(limbo_tree::proofs::Stmts::the_stmt_views, crate::proofs::Budget::the_stmt_budget))]
#[cycle(statements)]
pub fn stmt_at(
    alloc: Global,
    budget: u32,
    tokens: &[Token],
) -> Result<(Box<Stmt>, &[Token]), ReadError>
    requires { budget < 1000 }
    ensures { Gives (λ x. (view_stmt x.0.value, kinds x.1.now)) result (stmts.stmt_at budget (kinds tokens.now)) }
{
    if budget == 0 {
        return Err(too_deep(tokens));
    }
    let inner = budget - 1;
    let span = place(tokens);
    match beginning(tokens) {
        Start::Empty(rest) => built(alloc, Stmt::Empty { span }, rest),
        Start::Block(rest) => {
            let (block, rest) = block_above(alloc, inner, span, rest)?;
            built(alloc, Stmt::Block { block, span }, rest)
        }
        Start::If(rest) => if_at(alloc, inner, span, rest),
        Start::Branch(branch, rest) => branch_at(alloc, inner, span, None, branch, rest),
        Start::Labelled(branch, rest) => {
            let (label, _) = expect_name(tokens)?;
            branch_at(alloc, inner, span, Some(label), branch, rest)
        }
        Start::Jump(jump, rest) => jump_at(alloc, inner, span, jump, rest),
        Start::Declare => {
            let (decl, rest) = decl_at(alloc, inner, tokens)?;
            built(alloc, Stmt::Declare { decl, span }, rest)
        }
        Start::Other => {
            let (value, rest) = expr_before(alloc, inner, Mark::Semicolon, tokens)?;
            built(alloc, Stmt::Eval { value, span }, rest)
        }
    }
}

#[tactic(auto, using(limbo_tree::proofs::Stmts::the_stmt_views), unfolding(crate::specs::Stmts::if_above))]
#[cycle(statements)]
fn if_at(
    alloc: Global,
    inner: u32,
    span: Span,
    tokens: &[Token],
) -> Result<(Box<Stmt>, &[Token]), ReadError>
    requires { inner < 1000 }
    ensures { Gives (λ x. (view_stmt x.0.value, kinds x.1.now)) result (stmts.if_above inner (stmts.stmt_at inner) (kinds tokens.now)) }
{
    let rest = expect_mark(Mark::OpenParen, tokens)?;
    let (condition, rest) = expr_before(alloc, inner, Mark::CloseParen, rest)?;
    let (then, rest) = stmt_at(alloc, inner, rest)?;
    let Some(behind) = after_key(Key::Else, rest) else {
        let tree = Stmt::If {
            condition,
            then,
            otherwise: None,
            span,
        };
        return built(alloc, tree, rest);
    };
    let (otherwise, rest) = stmt_at(alloc, inner, behind)?;
    let tree = Stmt::If {
        condition,
        then,
        otherwise: Some(otherwise),
        span,
    };
    built(alloc, tree, rest)
}

// What stands behind the keyword of a statement that may have a label.
#[cycle(statements)]
fn branch_at(
    alloc: Global,
    inner: u32,
    span: Span,
    label: Option<Name>,
    branch: Branch,
    tokens: &[Token],
) -> Result<(Box<Stmt>, &[Token]), ReadError>
    requires { inner < 1000 }
    ensures { Gives (λ x. (view_stmt x.0.value, kinds x.1.now)) result
        (stmts.branch_above inner (stmts.stmt_at inner) (name_of label) branch (kinds tokens.now)) }
{
    match branch {
        Branch::Loop(Loop::While) => while_at(alloc, inner, span, label, tokens),
        Branch::Loop(Loop::Do) => do_at(alloc, inner, span, label, tokens),
        Branch::Loop(Loop::For) => for_at(alloc, inner, span, label, tokens),
        Branch::Choice(Choice::Case) => case_at(alloc, inner, span, label, tokens),
        Branch::Choice(Choice::Alt) => alt_at(alloc, inner, span, label, tokens),
        Branch::Choice(Choice::Pick) => pick_at(alloc, inner, span, label, tokens),
    }
}

#[tactic(auto, using(limbo_tree::proofs::Stmts::the_stmt_views), unfolding(crate::specs::Stmts::branch_above))]
#[cycle(statements)]
fn while_at(
    alloc: Global,
    inner: u32,
    span: Span,
    label: Option<Name>,
    tokens: &[Token],
) -> Result<(Box<Stmt>, &[Token]), ReadError>
    requires { inner < 1000 }
    ensures { Gives (λ x. (view_stmt x.0.value, kinds x.1.now)) result
        (stmts.branch_above inner (stmts.stmt_at inner) (name_of label) (branch.Loop loop.While) (kinds tokens.now)) }
{
    let rest = expect_mark(Mark::OpenParen, tokens)?;
    let (condition, rest) = option_before(alloc, inner, Mark::CloseParen, rest)?;
    let (body, rest) = stmt_at(alloc, inner, rest)?;
    let tree = Stmt::While {
        label,
        condition,
        body,
        span,
    };
    built(alloc, tree, rest)
}

#[tactic(auto, using(limbo_tree::proofs::Stmts::the_stmt_views), unfolding(crate::specs::Stmts::branch_above))]
#[cycle(statements)]
fn do_at(
    alloc: Global,
    inner: u32,
    span: Span,
    label: Option<Name>,
    tokens: &[Token],
) -> Result<(Box<Stmt>, &[Token]), ReadError>
    requires { inner < 1000 }
    ensures { Gives (λ x. (view_stmt x.0.value, kinds x.1.now)) result
        (stmts.branch_above inner (stmts.stmt_at inner) (name_of label) (branch.Loop loop.Do) (kinds tokens.now)) }
{
    let (body, rest) = stmt_at(alloc, inner, tokens)?;
    let rest = expect_key(Key::While, rest)?;
    let rest = expect_mark(Mark::OpenParen, rest)?;
    let (condition, rest) = option_before(alloc, inner, Mark::CloseParen, rest)?;
    let rest = expect_mark(Mark::Semicolon, rest)?;
    let tree = Stmt::Do {
        label,
        body,
        condition,
        span,
    };
    built(alloc, tree, rest)
}

#[tactic(auto, using(limbo_tree::proofs::Stmts::the_stmt_views), unfolding(crate::specs::Stmts::branch_above))]
#[cycle(statements)]
fn for_at(
    alloc: Global,
    inner: u32,
    span: Span,
    label: Option<Name>,
    tokens: &[Token],
) -> Result<(Box<Stmt>, &[Token]), ReadError>
    requires { inner < 1000 }
    ensures { Gives (λ x. (view_stmt x.0.value, kinds x.1.now)) result
        (stmts.branch_above inner (stmts.stmt_at inner) (name_of label) (branch.Loop loop.For) (kinds tokens.now)) }
{
    let (head, rest) = for_head_at(alloc, inner, tokens)?;
    let (body, rest) = stmt_at(alloc, inner, rest)?;
    let ForHead {
        first,
        condition,
        next,
    } = head;
    let tree = Stmt::For {
        label,
        first,
        condition,
        next,
        body,
        span,
    };
    built(alloc, tree, rest)
}

#[tactic(auto, using(limbo_tree::proofs::Stmts::the_stmt_views), unfolding(crate::specs::Stmts::branch_above))]
#[cycle(statements)]
fn case_at(
    alloc: Global,
    inner: u32,
    span: Span,
    label: Option<Name>,
    tokens: &[Token],
) -> Result<(Box<Stmt>, &[Token]), ReadError>
    requires { inner < 1000 }
    ensures { Gives (λ x. (view_stmt x.0.value, kinds x.1.now)) result
        (stmts.branch_above inner (stmts.stmt_at inner) (name_of label) (branch.Choice choice.Case) (kinds tokens.now)) }
{
    let (value, rest) = expr_before(alloc, inner, Mark::OpenBrace, tokens)?;
    let (arms, rest) = case_arms_at(alloc, inner, rest)?;
    let tree = Stmt::Case {
        label,
        value,
        arms,
        span,
    };
    built(alloc, tree, rest)
}

#[tactic(auto, using(limbo_tree::proofs::Stmts::the_stmt_views), unfolding(crate::specs::Stmts::branch_above))]
#[cycle(statements)]
fn alt_at(
    alloc: Global,
    inner: u32,
    span: Span,
    label: Option<Name>,
    tokens: &[Token],
) -> Result<(Box<Stmt>, &[Token]), ReadError>
    requires { inner < 1000 }
    ensures { Gives (λ x. (view_stmt x.0.value, kinds x.1.now)) result
        (stmts.branch_above inner (stmts.stmt_at inner) (name_of label) (branch.Choice choice.Alt) (kinds tokens.now)) }
{
    let rest = expect_mark(Mark::OpenBrace, tokens)?;
    let (arms, rest) = alt_arms_at(alloc, inner, rest)?;
    built(alloc, Stmt::Alt { label, arms, span }, rest)
}

#[tactic(auto, using(limbo_tree::proofs::Stmts::the_stmt_views), unfolding(crate::specs::Stmts::branch_above))]
#[cycle(statements)]
fn pick_at(
    alloc: Global,
    inner: u32,
    span: Span,
    label: Option<Name>,
    tokens: &[Token],
) -> Result<(Box<Stmt>, &[Token]), ReadError>
    requires { inner < 1000 }
    ensures { Gives (λ x. (view_stmt x.0.value, kinds x.1.now)) result
        (stmts.branch_above inner (stmts.stmt_at inner) (name_of label) (branch.Choice choice.Pick) (kinds tokens.now)) }
{
    let (name, rest) = expect_name(tokens)?;
    let rest = expect_mark(Mark::Define, rest)?;
    let (value, rest) = expr_before(alloc, inner, Mark::OpenBrace, rest)?;
    let (arms, rest) = pick_arms_at(alloc, inner, rest)?;
    let tree = Stmt::Pick {
        label,
        name,
        value,
        arms,
        span,
    };
    built(alloc, tree, rest)
}

// A block behind its `{`.
#[tactic(auto, using(limbo_tree::proofs::Stmts::the_block_views), unfolding(crate::specs::Stmts::block_above))]
#[cycle(statements)]
fn block_above(
    alloc: Global,
    budget: u32,
    span: Span,
    tokens: &[Token],
) -> Result<(Block, &[Token]), ReadError>
    requires { budget < 1000 }
    ensures { Gives (λ x. (view_block x.0, kinds x.1.now)) result (stmts.block_above budget (stmts.stmt_at budget) (kinds tokens.now)) }
{
    let (statements, rest) = stmts_at(alloc, budget, Region::Block, tokens)?;
    let rest = expect_mark(Mark::CloseBrace, rest)?;
    let Some(behind) = after_key(Key::Exception, rest) else {
        let block = Block {
            statements,
            handler: None,
            span,
        };
        return Ok((block, rest));
    };
    let (name, rest) = label_at(behind)?;
    let rest = expect_mark(Mark::OpenBrace, rest)?;
    let (arms, rest) = handler_arms_at(alloc, budget, rest)?;
    let block = Block {
        statements,
        handler: Some(Handler { name, arms }),
        span,
    };
    Ok((block, rest))
}

// Adds a statement to some.
fn push_stmt(statements: &mut Vec<Stmt>, statement: Box<Stmt>) -> Result<(), ReadError>
    ensures items { IfOk result (λ _. statements.new.items ≡ statements.old.items ++ statement.value ∷ []) }
    ensures memory { IfErr result (λ e. e ≡ NoMemory) }
{
    Ok(statements.push(Box::into_inner(statement))?)
}

// `{stmt}` of a region.
#[cycle(statements)]
fn stmts_at(
    alloc: Global,
    budget: u32,
    region: Region,
    tokens: &[Token],
) -> Result<(Vec<Stmt>, &[Token]), ReadError>
    requires { budget < 1000 }
    ensures { Gives (λ x. (map view_stmt x.0.items, kinds x.1.now)) result
        (stmts.stmts_at budget (stmts.stmt_at budget) region (kinds tokens.now)) }
{
    let mut statements = Vec::new(alloc);
    let mut rest = tokens;
    'statements: loop {
        let done = ends(alloc, budget, region, rest)?;
        if done {
            return Ok((statements, rest));
        }
        let (statement, after) = stmt_at(alloc, budget, rest)?;
        push_stmt(&mut statements, statement)?;
        rest = after;
    }
}

// {arm} "}" of a case.
#[cycle(statements)]
fn case_arms_at(
    alloc: Global,
    budget: u32,
    tokens: &[Token],
) -> Result<(Vec<CaseArm>, &[Token]), ReadError>
    requires { budget < 1000 }
    ensures { Gives (λ x. (map view_case_arm x.0.items, kinds x.1.now)) result
        (stmts.arms_at budget (stmts.stmt_at budget) region.Case (kinds tokens.now)) }
{
    let mut arms = Vec::new(alloc);
    let mut rest = tokens;
    'arms: loop {
        if let Some(behind) = after_mark(Mark::CloseBrace, rest) {
            return Ok((arms, behind));
        }
        let span = place(rest);
        let (patterns, after) = case_front_at(alloc, budget, rest)?;
        let (body, after) = stmts_at(alloc, budget, Region::Case, after)?;
        arms.push(CaseArm {
            patterns,
            body,
            span,
        })?;
        rest = after;
    }
}

// {arm} "}" of an alt.
#[cycle(statements)]
fn alt_arms_at(
    alloc: Global,
    budget: u32,
    tokens: &[Token],
) -> Result<(Vec<AltArm>, &[Token]), ReadError>
    requires { budget < 1000 }
    ensures { Gives (λ x. (map view_alt_arm x.0.items, kinds x.1.now)) result
        (stmts.arms_at budget (stmts.stmt_at budget) region.Alt (kinds tokens.now)) }
{
    let mut arms = Vec::new(alloc);
    let mut rest = tokens;
    'arms: loop {
        if let Some(behind) = after_mark(Mark::CloseBrace, rest) {
            return Ok((arms, behind));
        }
        let span = place(rest);
        let (head, after) = alt_front_at(alloc, budget, rest)?;
        let (body, after) = stmts_at(alloc, budget, Region::Alt, after)?;
        arms.push(AltArm { head, body, span })?;
        rest = after;
    }
}

// {arm} "}" of a pick.
#[cycle(statements)]
fn pick_arms_at(
    alloc: Global,
    budget: u32,
    tokens: &[Token],
) -> Result<(Vec<PickArm>, &[Token]), ReadError>
    requires { budget < 1000 }
    ensures { Gives (λ x. (map view_pick_arm x.0.items, kinds x.1.now)) result
        (stmts.arms_at budget (stmts.stmt_at budget) region.Pick (kinds tokens.now)) }
{
    let mut arms = Vec::new(alloc);
    let mut rest = tokens;
    'arms: loop {
        if let Some(behind) = after_mark(Mark::CloseBrace, rest) {
            return Ok((arms, behind));
        }
        let span = place(rest);
        let (names, after) = pick_front_at(alloc, budget, rest)?;
        let (body, after) = stmts_at(alloc, budget, Region::Pick, after)?;
        arms.push(PickArm { names, body, span })?;
        rest = after;
    }
}

// {arm} "}" of a handler.
#[cycle(statements)]
fn handler_arms_at(
    alloc: Global,
    budget: u32,
    tokens: &[Token],
) -> Result<(Vec<HandlerArm>, &[Token]), ReadError>
    requires { budget < 1000 }
    ensures { Gives (λ x. (map view_handler_arm x.0.items, kinds x.1.now)) result
        (stmts.arms_at budget (stmts.stmt_at budget) region.Handler (kinds tokens.now)) }
{
    let mut arms = Vec::new(alloc);
    let mut rest = tokens;
    'arms: loop {
        if let Some(behind) = after_mark(Mark::CloseBrace, rest) {
            return Ok((arms, behind));
        }
        let span = place(rest);
        let (patterns, after) = handler_front_at(alloc, budget, rest)?;
        let (body, after) = stmts_at(alloc, budget, Region::Handler, after)?;
        arms.push(HandlerArm {
            patterns,
            body,
            span,
        })?;
        rest = after;
    }
}

/// A block whose statements nest up to the budget, and what stands behind it.
///
/// # Errors
/// `Syntax` or `TooDeep` at the first token that no block goes on with; `NoMemory`.
#[tactic(auto, unfolding(crate::specs::Stmts::block_at))]
pub fn block_at(
    alloc: Global,
    budget: u32,
    tokens: &[Token],
) -> Result<(Block, &[Token]), ReadError>
    requires { budget < 1000 }
    ensures { Gives (λ x. (view_block x.0, kinds x.1.now)) result (stmts.block_at budget (kinds tokens.now)) }
{
    let rest = expect_mark(Mark::OpenBrace, tokens)?;
    block_above(alloc, budget, place(tokens), rest)
}
