//! Types, read by recursive descent.

ghost use Rattle.std.specs.Prelude.{◌≡◌, ◌≤◌, ◌<◌, ◌+◌, None, Some, MatchOption, IfSome, IfOk, length, map, option_map};
ghost use Rattle.limbo_tree.specs.Types.{ty_nesting, tys_nesting};
ghost use Rattle.limbo_tree.specs.View.{view_name, view_qual, view_type, view_types};
ghost use Rattle.limbo_reading.specs.Reading.{kinds, Gives};
ghost use Rattle.limbo_expr_parts.specs.Front.{front};
ghost use Rattle.limbo_expr_parts.specs.Types.{ty_at, simple_of};
ghost use Rattle.limbo_expr_parts.specs.Types as reading;

use crate::boxes::{built_type, push_type};
use inf_text::Span;
use limbo_lexer::{Key, Kind, Mark, Token};
use limbo_reading::{
    ReadError, after_key, after_mark, expect_key, expect_mark, expect_name, place, syntax, too_deep,
};
use limbo_tree::{Name, Qual, TypeTree};
use std::alloc::Global;

/// A type of nesting up to the budget, its nesting, and what stands behind it.
///
/// # Errors
/// `Syntax` or `TooDeep` at the first token that no type goes on with; `NoMemory`.
#[tactic(auto, using(crate::proofs::TypeSteps::ty_shorter))]
pub fn type_at(
    alloc: Global,
    budget: u32,
    tokens: &[Token],
) -> Result<(Box<TypeTree>, u32, &[Token]), ReadError>
    requires { budget < 1000 }
    ensures same { Gives (λ x. (view_type x.0.value, kinds x.2.now)) result (ty_at budget (kinds tokens.now)) }
    ensures size { IfOk result (λ x. x.1 ≡ ty_nesting (view_type x.0.value)) }
    ensures within { IfOk result (λ x. x.1 ≤ budget) }
    ensures shorter { IfOk result (λ x. length (kinds x.2.now) < length (kinds tokens.now)) }
{
    type_in(alloc, budget, tokens)
}

// A type, whose budget may be used up.
#[tactic(auto, using(limbo_tree::proofs::Exprs::the_type_views, crate::proofs::TypeSteps::the_type_budget), unfolding(crate::specs::Types::ty_above))]
#[cycle(types)]
fn type_in(
    alloc: Global,
    budget: u32,
    tokens: &[Token],
) -> Result<(Box<TypeTree>, u32, &[Token]), ReadError>
    requires { budget < 1000 }
    ensures same { Gives (λ x. (view_type x.0.value, kinds x.2.now)) result (ty_at budget (kinds tokens.now)) }
    ensures size { IfOk result (λ x. x.1 ≡ ty_nesting (view_type x.0.value)) }
    ensures within { IfOk result (λ x. x.1 ≤ budget) }
{
    if budget == 0 {
        return Err(too_deep(tokens));
    }
    type_above(alloc, budget - 1, tokens)
}

// A type whose parts nest up to the budget.
#[tactic(auto, using(limbo_tree::proofs::Exprs::the_type_views), unfolding(crate::specs::Types::ty_above))]
#[cycle(types)]
fn type_above(
    alloc: Global,
    inner: u32,
    tokens: &[Token],
) -> Result<(Box<TypeTree>, u32, &[Token]), ReadError>
    requires { inner < 999 }
    ensures same { Gives (λ x. (view_type x.0.value, kinds x.2.now)) result (reading.ty_above (ty_at inner) (kinds tokens.now)) }
    ensures size { IfOk result (λ x. x.1 ≡ ty_nesting (view_type x.0.value)) }
    ensures within { IfOk result (λ x. x.1 ≤ inner + 1) }
{
    let span = place(tokens);
    if let Some((simple, rest)) = simple_at(tokens) {
        return built_type(alloc, simple, 1, rest);
    }
    if let Some(behind) = after_key(Key::Array, tokens) {
        let (element, size, rest) = element_at(alloc, inner, behind)?;
        return built_type(alloc, TypeTree::Array { element, span }, 1 + size, rest);
    }
    if let Some(behind) = after_key(Key::List, tokens) {
        let (element, size, rest) = element_at(alloc, inner, behind)?;
        return built_type(alloc, TypeTree::List { element, span }, 1 + size, rest);
    }
    if let Some(behind) = after_key(Key::Chan, tokens) {
        let (element, size, rest) = element_at(alloc, inner, behind)?;
        return built_type(alloc, TypeTree::Chan { element, span }, 1 + size, rest);
    }
    if let Some(behind) = after_mark(Mark::OpenParen, tokens) {
        return tuple_at(alloc, inner, span, behind);
    }
    named_at(alloc, tokens)
}

// `of` type
#[tactic(auto, unfolding(crate::specs::Types::element_at))]
#[cycle(types)]
fn element_at(
    alloc: Global,
    budget: u32,
    tokens: &[Token],
) -> Result<(Box<TypeTree>, u32, &[Token]), ReadError>
    requires { budget < 1000 }
    ensures same { Gives (λ x. (view_type x.0.value, kinds x.2.now)) result (reading.element_at (ty_at budget) (kinds tokens.now)) }
    ensures size { IfOk result (λ x. x.1 ≡ ty_nesting (view_type x.0.value)) }
    ensures within { IfOk result (λ x. x.1 ≤ budget) }
{
    let behind = expect_key(Key::Of, tokens)?;
    type_in(alloc, budget, behind)
}

// What stands behind the `(` of a tuple, which stands at the span.
#[tactic(auto, using(limbo_tree::proofs::Exprs::the_type_views), unfolding(crate::specs::Types::tuple_at))]
#[cycle(types)]
fn tuple_at(
    alloc: Global,
    inner: u32,
    span: Span,
    tokens: &[Token],
) -> Result<(Box<TypeTree>, u32, &[Token]), ReadError>
    requires { inner < 999 }
    ensures same { Gives (λ x. (view_type x.0.value, kinds x.2.now)) result (reading.tuple_at (ty_at inner) (kinds tokens.now)) }
    ensures size { IfOk result (λ x. x.1 ≡ ty_nesting (view_type x.0.value)) }
    ensures within { IfOk result (λ x. x.1 ≤ inner + 1) }
{
    let (parts, size, rest) = types_at(alloc, inner, tokens)?;
    if parts.len() < 2 {
        return Err(syntax(rest));
    }
    let rest = expect_mark(Mark::CloseParen, rest)?;
    built_type(alloc, TypeTree::Tuple { parts, span }, 1 + size, rest)
}

// type `{"," type}`
#[cycle(types)]
fn types_at(
    alloc: Global,
    budget: u32,
    tokens: &[Token],
) -> Result<(Vec<TypeTree>, u32, &[Token]), ReadError>
    requires { budget < 1000 }
    ensures same { Gives (λ x. (map view_type x.0.items, kinds x.2.now)) result (reading.types_at (ty_at budget) (kinds tokens.now)) }
    ensures size { IfOk result (λ x. x.1 ≡ tys_nesting (view_types x.0.items)) }
    ensures within { IfOk result (λ x. x.1 ≤ budget) }
{
    let (first, mut size, mut rest) = type_in(alloc, budget, tokens)?;
    let mut parts = Vec::new(alloc);
    push_type(&mut parts, first)?;
    'all: while let Some(behind) = after_mark(Mark::Comma, rest) {
        let (part, part_size, after) = type_in(alloc, budget, behind)?;
        push_type(&mut parts, part)?;
        size = size.max(part_size);
        rest = after;
    }
    Ok((parts, size, rest))
}

// `["ref"]` and the name of a type
#[tactic(auto, using(limbo_tree::proofs::Exprs::the_type_views), unfolding(crate::specs::Types::named_at))]
fn named_at(alloc: Global, tokens: &[Token]) -> Result<(Box<TypeTree>, u32, &[Token]), ReadError>
    ensures same { Gives (λ x. (view_type x.0.value, kinds x.2.now)) result (reading.named_at (kinds tokens.now)) }
    ensures size { IfOk result (λ x. x.1 ≡ ty_nesting (view_type x.0.value)) }
    ensures within { IfOk result (λ x. x.1 ≤ 1) }
{
    let span = place(tokens);
    if let Some(behind) = after_key(Key::Ref, tokens) {
        let (of, rest) = qual_at(behind)?;
        return built_type(alloc, TypeTree::Ref { of, span }, 1, rest);
    }
    let (name, rest) = qual_at(tokens)?;
    built_type(alloc, TypeTree::Named { name, span }, 1, rest)
}

// A qualified name.
#[tactic(auto, unfolding(crate::specs::Types::qual_at))]
fn qual_at(tokens: &[Token]) -> Result<(Qual, &[Token]), ReadError>
    ensures { Gives (λ x. (view_qual x.0, kinds x.1.now)) result (reading.qual_at (kinds tokens.now)) }
{
    let (first, rest) = expect_name(tokens)?;
    let (member, rest) = part_at(Mark::Arrow, rest)?;
    let (part, rest) = part_at(Mark::Dot, rest)?;
    Ok((
        Qual {
            first,
            member,
            part,
        },
        rest,
    ))
}

// `[sign ID]`
#[tactic(auto, unfolding(crate::specs::Types::part_at))]
fn part_at(mark: Mark, tokens: &[Token]) -> Result<(Option<Name>, &[Token]), ReadError>
    ensures { Gives (λ x. (option_map view_name x.0, kinds x.1.now)) result (reading.part_at mark (kinds tokens.now)) }
{
    let Some(behind) = after_mark(mark, tokens) else {
        return Ok((None, tokens));
    };
    let (name, rest) = expect_name(behind)?;
    Ok((Some(name), rest))
}

// A type that is one keyword, and what stands behind it.
fn simple_at(tokens: &[Token]) -> Option<(TypeTree, &[Token])>
    ensures same { MatchOption result (front simple_of (kinds tokens.now) ≡ None)
        (λ x. front simple_of (kinds tokens.now) ≡ Some (view_type x.0, kinds x.1.now)) }
    ensures one { IfSome result (λ x. ty_nesting (view_type x.0) ≡ 1) }
{
    let [first, rest @ ..] = tokens else {
        return None;
    };
    let simple = simple_of(&first.kind, first.span)?;
    Some((simple, rest))
}

// The type that a keyword is.
#[tactic(auto, using(limbo_tree::proofs::Exprs::the_type_views))]
fn simple_of(kind: &Kind, span: Span) -> Option<TypeTree>
    ensures same { MatchOption result (simple_of kind.now ≡ None) (λ t. simple_of kind.now ≡ Some (view_type t)) }
    ensures one { IfSome result (λ t. ty_nesting (view_type t) ≡ 1) }
{
    match kind {
        Kind::Key(Key::Byte) => Some(TypeTree::Byte { span }),
        Kind::Key(Key::Int) => Some(TypeTree::Int { span }),
        Kind::Key(Key::Big) => Some(TypeTree::Big { span }),
        Kind::Key(Key::String) => Some(TypeTree::String { span }),
        _ => None,
    }
}
