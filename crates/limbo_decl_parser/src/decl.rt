//! Declarations.

ghost use Rattle.std.specs.Prelude.{◌≡◌, ◌<◌, Ok, IfOk, List, length, map};
ghost use Rattle.limbo_lexer.specs.declared.token.Kind.{Kind};
ghost use Rattle.limbo_tree.specs.Decls as trees;
ghost use Rattle.limbo_tree.specs.View.{names_of, view_type, view_types, view_expr, view_members, view_decl, view_boxed};
ghost use Rattle.limbo_reading.specs.Reading as reading;
ghost use Rattle.limbo_reading.specs.Reading.{kinds, Gives};
ghost use Rattle.limbo_reading.specs.Lists as lists;
ghost use Rattle.limbo_lexer.specs.declared.token.Mark.TheVariants as mark;
ghost use Rattle.limbo_expr_parts.specs.Types.{ty_at as ty_of_at};
ghost use Rattle.limbo_decl_parser.specs.Decls as decls;

use crate::members::{adt_at, ended_expr, ended_type, members_at, only_name};
use inf_text::Span;
use limbo_expr_parser::expr_at;
use limbo_expr_parts::{push_type, type_at};
use limbo_lexer::{Key, Mark, Token};
use limbo_reading::{
    ReadError, after_key, after_mark, expect_mark, expect_name, expect_names, place, syntax,
};
use limbo_tree::{Decl, Expr, Member, Name, TypeTree};
use std::alloc::Global;

/// A declaration that was read, in a box of its own, and what stands behind it.
fn built(alloc: Global, tree: Decl, rest: &[Token]) -> Result<(Box<Decl>, &[Token]), ReadError>
    ensures { Gives {Y = trees.Decl × List Kind} (λ x. (view_decl x.0.value, kinds x.1.now)) result (Ok (view_decl tree, kinds rest.now)) }
{
    Ok((Box::new(alloc, tree)?, rest))
}

/// `["=" expr]`
#[tactic(auto, unfolding(crate::specs::Decls::value_at))]
fn value_at(
    alloc: Global,
    budget: u32,
    tokens: &[Token],
) -> Result<(Option<Box<Expr>>, &[Token]), ReadError>
    requires { budget < 1000 }
    ensures { Gives (λ x. (view_boxed x.0, kinds x.1.now)) result (decls.value_at budget (kinds tokens.now)) }
{
    let Some(rest) = after_mark(Mark::Assign, tokens) else {
        return Ok((None, tokens));
    };
    let (value, _, rest) = expr_at(alloc, budget, rest)?;
    Ok((Some(value), rest))
}

/// type `{"," type}`
fn several_types(
    alloc: Global,
    budget: u32,
    tokens: &[Token],
) -> Result<(Vec<TypeTree>, &[Token]), ReadError>
    requires { budget < 1000 }
    ensures { Gives (λ x. (map view_type x.0.items, kinds x.1.now)) result (lists.items (ty_of_at budget) (reading.after_mark mark.Comma) (kinds tokens.now)) }
{
    let (first, _, mut rest) = type_at(alloc, budget, tokens)?;
    let mut types = Vec::new(alloc);
    push_type(&mut types, first)?;
    'types: while let Some(behind) = after_mark(Mark::Comma, rest) {
        let (of, _, after) = type_at(alloc, budget, behind)?;
        push_type(&mut types, of)?;
        rest = after;
    }
    Ok((types, rest))
}

/// `["(" type {"," type} ")"]`
#[tactic(auto, unfolding(crate::specs::Decls::values_at, limbo_tree::specs::View::view_types))]
fn values_at(
    alloc: Global,
    budget: u32,
    tokens: &[Token],
) -> Result<(Vec<TypeTree>, &[Token]), ReadError>
    requires { budget < 1000 }
    ensures { Gives (λ x. (view_types x.0.items, kinds x.1.now)) result (decls.values_at budget (kinds tokens.now)) }
{
    let Some(rest) = after_mark(Mark::OpenParen, tokens) else {
        return Ok((Vec::new(alloc), tokens));
    };
    let (values, rest) = several_types(alloc, budget, rest)?;
    let rest = expect_mark(Mark::CloseParen, rest)?;
    Ok((values, rest))
}

/// `"{" {member} "}" ";"`
#[tactic(auto, unfolding(crate::specs::Decls::module_at, limbo_tree::specs::View::view_members))]
fn module_at(
    alloc: Global,
    budget: u32,
    tokens: &[Token],
) -> Result<(Vec<Member>, &[Token]), ReadError>
    requires { budget < 1000 }
    ensures { Gives (λ x. (view_members x.0.items, kinds x.1.now)) result (decls.module_at budget (kinds tokens.now)) }
{
    let rest = expect_mark(Mark::OpenBrace, tokens)?;
    let (members, rest) = members_at(alloc, budget, rest)?;
    let rest = expect_mark(Mark::CloseBrace, rest)?;
    let rest = expect_mark(Mark::Semicolon, rest)?;
    Ok((members, rest))
}

/// type `["=" expr] ";"`
fn var_decl(
    alloc: Global,
    budget: u32,
    names: Vec<Name>,
    span: Span,
    tokens: &[Token],
) -> Result<(Box<Decl>, &[Token]), ReadError>
    requires { budget < 1000 }
    ensures { Gives (λ x. (view_decl x.0.value, kinds x.1.now)) result (decls.var_decl budget (names_of names.items) (kinds tokens.now)) }
{
    let (of, _, rest) = type_at(alloc, budget, tokens)?;
    let (value, rest) = value_at(alloc, budget, rest)?;
    let rest = expect_mark(Mark::Semicolon, rest)?;
    let tree = Decl::Var {
        names,
        of,
        value,
        span,
    };
    built(alloc, tree, rest)
}

/// A declaration that is an adt, from its `adt` on.
fn adt_decl(
    alloc: Global,
    budget: u32,
    names: Vec<Name>,
    span: Span,
    tokens: &[Token],
) -> Result<(Box<Decl>, &[Token]), ReadError>
    requires { budget < 1000 }
    ensures { Gives (λ x. (view_decl x.0.value, kinds x.1.now)) result (decls.adt_decl budget (names_of names.items) (kinds tokens.now)) }
{
    let Some(name) = only_name(names) else {
        return Err(syntax(tokens));
    };
    let (members, pick, rest) = adt_at(alloc, budget, tokens)?;
    let tree = Decl::Adt {
        name,
        members,
        pick,
        span,
    };
    built(alloc, tree, rest)
}

/// What stands behind the `:` of a declaration that has a body in braces, or a type.
#[tactic(auto, unfolding(crate::specs::Decls::decl_of_type))]
fn decl_of_type(
    alloc: Global,
    budget: u32,
    names: Vec<Name>,
    span: Span,
    tokens: &[Token],
) -> Result<(Box<Decl>, &[Token]), ReadError>
    requires { budget < 1000 }
    ensures { Gives (λ x. (view_decl x.0.value, kinds x.1.now)) result (decls.decl_of_type budget (names_of names.items) (kinds tokens.now)) }
{
    if let Some(rest) = after_key(Key::Module, tokens) {
        let Some(name) = only_name(names) else {
            return Err(syntax(tokens));
        };
        let (members, rest) = module_at(alloc, budget, rest)?;
        let tree = Decl::Module {
            name,
            members,
            span,
        };
        return built(alloc, tree, rest);
    }
    if let Some(_) = after_key(Key::Adt, tokens) {
        return adt_decl(alloc, budget, names, span, tokens);
    }
    var_decl(alloc, budget, names, span, tokens)
}

/// `ID ";"`
fn ended_name(tokens: &[Token]) -> Result<(Name, &[Token]), ReadError>
    ensures { Gives (λ x. (x.0.text, kinds x.1.now)) result (decls.ended reading.expect_name (kinds tokens.now)) }
{
    let (name, rest) = expect_name(tokens)?;
    let rest = expect_mark(Mark::Semicolon, rest)?;
    Ok((name, rest))
}

/// `["(" type {"," type} ")"] ";"`
fn ended_values(
    alloc: Global,
    budget: u32,
    tokens: &[Token],
) -> Result<(Vec<TypeTree>, &[Token]), ReadError>
    requires { budget < 1000 }
    ensures { Gives (λ x. (view_types x.0.items, kinds x.1.now)) result (decls.ended (decls.values_at budget) (kinds tokens.now)) }
{
    let (values, rest) = values_at(alloc, budget, tokens)?;
    let rest = expect_mark(Mark::Semicolon, rest)?;
    Ok((values, rest))
}

/// What stands behind the `:` of a declaration.
#[tactic(auto, unfolding(crate::specs::Decls::decl_behind))]
fn decl_behind(
    alloc: Global,
    budget: u32,
    names: Vec<Name>,
    span: Span,
    tokens: &[Token],
) -> Result<(Box<Decl>, &[Token]), ReadError>
    requires { budget < 1000 }
    ensures { Gives (λ x. (view_decl x.0.value, kinds x.1.now)) result (decls.decl_behind budget (names_of names.items) (kinds tokens.now)) }
{
    if let Some(rest) = after_key(Key::Con, tokens) {
        let (value, rest) = ended_expr(alloc, budget, rest)?;
        return built(alloc, Decl::Con { names, value, span }, rest);
    }
    if let Some(rest) = after_key(Key::TypeWord, tokens) {
        let (of, rest) = ended_type(alloc, budget, rest)?;
        return built(alloc, Decl::Type { names, of, span }, rest);
    }
    if let Some(rest) = after_key(Key::Import, tokens) {
        let (module, rest) = ended_name(rest)?;
        let tree = Decl::Import {
            names,
            module,
            span,
        };
        return built(alloc, tree, rest);
    }
    if let Some(rest) = after_key(Key::Exception, tokens) {
        let (values, rest) = ended_values(alloc, budget, rest)?;
        let tree = Decl::Exception {
            names,
            values,
            span,
        };
        return built(alloc, tree, rest);
    }
    decl_of_type(alloc, budget, names, span, tokens)
}

/// A declaration, with its last `;`.
#[tactic(auto, unfolding(crate::specs::Decls::decl_at))]
fn decl_here(
    alloc: Global,
    budget: u32,
    tokens: &[Token],
) -> Result<(Box<Decl>, &[Token]), ReadError>
    requires { budget < 1000 }
    ensures { Gives (λ x. (view_decl x.0.value, kinds x.1.now)) result (decls.decl_at budget (kinds tokens.now)) }
{
    let (names, rest) = expect_names(alloc, tokens)?;
    let span = place(tokens);
    if let Some(rest) = after_mark(Mark::Define, rest) {
        let (value, rest) = ended_expr(alloc, budget, rest)?;
        return built(alloc, Decl::Define { names, value, span }, rest);
    }
    let rest = expect_mark(Mark::Colon, rest)?;
    decl_behind(alloc, budget, names, span, rest)
}

/// A declaration whose trees nest up to the budget, with its last `;`, and what follows.
///
/// # Errors
/// `Syntax` or `TooDeep` at the first token that no declaration goes on with; `NoMemory`.
pub fn decl_at(
    alloc: Global,
    budget: u32,
    tokens: &[Token],
) -> Result<(Box<Decl>, &[Token]), ReadError>
    requires { budget < 1000 }
    ensures same { Gives (λ x. (view_decl x.0.value, kinds x.1.now)) result (decls.decl_at budget (kinds tokens.now)) }
    ensures shorter { IfOk result (λ x. length (kinds x.1.now) < length (kinds tokens.now)) }
{
    decl_here(alloc, budget, tokens)
}
