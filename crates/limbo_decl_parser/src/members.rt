//! Members of modules and adts, and the variants of a pick adt.

ghost use Rattle.std.specs.Prelude.{◌≡◌, ◌<◌, ◌++◌, [], ◌∷◌, Ok, IfOk, IfErr, None, Some, MatchOption, List, map, option_map};
ghost use Rattle.limbo_lexer.specs.declared.token.Kind.{Kind};
ghost use Rattle.limbo_tree.specs.Decls as trees;
ghost use Rattle.limbo_reading.specs.declared.fault.ReadError.TheVariants.{NoMemory};
ghost use Rattle.limbo_tree.specs.View.{names_of, view_type, view_expr, view_fn, view_field, view_variant, view_member};
ghost use Rattle.limbo_reading.specs.Reading.{kinds, Gives};
ghost use Rattle.limbo_expr_parts.specs.Types.{ty_at as ty_of_at};
ghost use Rattle.limbo_decl_parser.specs.Decls as decls;
ghost use Rattle.limbo_decl_parser.specs.View.{view_inside};

use crate::params::fn_at;
use inf_text::Span;
use limbo_expr_parser::expr_at;
use limbo_expr_parts::type_at;
use limbo_lexer::{Key, Kind, Mark, Token};
use limbo_reading::{
    ReadError, after_key, after_mark, expect_choices, expect_key, expect_mark, expect_names, place,
    syntax, too_deep,
};
use limbo_tree::{Expr, Field, FnType, Member, Name, TypeTree, Variant};
use std::alloc::Global;

/// A type and the `;` behind it.
pub fn ended_type(
    alloc: Global,
    budget: u32,
    tokens: &[Token],
) -> Result<(Box<TypeTree>, &[Token]), ReadError>
    requires { budget < 1000 }
    ensures { Gives (λ x. (view_type x.0.value, kinds x.1.now)) result (decls.ended (ty_of_at budget) (kinds tokens.now)) }
{
    let (of, _, rest) = type_at(alloc, budget, tokens)?;
    let rest = expect_mark(Mark::Semicolon, rest)?;
    Ok((of, rest))
}

/// An expression and the `;` behind it.
pub fn ended_expr(
    alloc: Global,
    budget: u32,
    tokens: &[Token],
) -> Result<(Box<Expr>, &[Token]), ReadError>
    requires { budget < 1000 }
    ensures { Gives (λ x. (view_expr x.0.value, kinds x.1.now)) result (decls.ended (decls.expr_at budget) (kinds tokens.now)) }
{
    let (value, _, rest) = expr_at(alloc, budget, tokens)?;
    let rest = expect_mark(Mark::Semicolon, rest)?;
    Ok((value, rest))
}

/// What stands behind a function's name, and the `;` behind it.
fn ended_fn(
    alloc: Global,
    budget: u32,
    tokens: &[Token],
) -> Result<(Box<FnType>, &[Token]), ReadError>
    requires { budget < 1000 }
    ensures { Gives (λ x. (view_fn x.0.value, kinds x.1.now)) result (decls.ended (decls.fn_at budget) (kinds tokens.now)) }
{
    let (of, rest) = fn_at(alloc, budget, tokens)?;
    let rest = expect_mark(Mark::Semicolon, rest)?;
    Ok((Box::new(alloc, of)?, rest))
}

/// The name, where it is the only one.
pub fn only_name(names: Vec<Name>) -> Option<Name>
    ensures { MatchOption result (decls.only (names_of names.items) ≡ None)
        (λ n. decls.only (names_of names.items) ≡ Some n.text) }
{
    let mut names = names;
    if names.len() != 1 {
        return None;
    }
    names.pop()
}

/// Whether fields go on here: a name with `,` or `:` behind it.
fn begins_field(tokens: &[Token]) -> bool
    ensures { result ≡ decls.begins_field (kinds tokens.now) }
{
    match tokens {
        [
            Token {
                kind: Kind::Name(_),
                ..
            },
            rest @ ..,
        ] => match after_mark(Mark::Comma, rest) {
            Some(_) => true,
            None => after_mark(Mark::Colon, rest).is_some(),
        },
        _ => false,
    }
}

/// `ids ":" type ";"`
#[tactic(auto, unfolding(crate::specs::Decls::field_at))]
fn field_at(alloc: Global, budget: u32, tokens: &[Token]) -> Result<(Field, &[Token]), ReadError>
    requires { budget < 1000 }
    ensures { Gives (λ x. (view_field x.0, kinds x.1.now)) result (decls.field_at budget (kinds tokens.now)) }
{
    let (names, rest) = expect_names(alloc, tokens)?;
    let rest = expect_mark(Mark::Colon, rest)?;
    let (of, rest) = ended_type(alloc, budget, rest)?;
    let span = place(tokens);
    Ok((Field { names, of, span }, rest))
}

/// The fields of a variant.
fn fields_at(
    alloc: Global,
    budget: u32,
    tokens: &[Token],
) -> Result<(Vec<Field>, &[Token]), ReadError>
    requires { budget < 1000 }
    ensures { Gives (λ x. (map view_field x.0.items, kinds x.1.now)) result (decls.fields_at budget (kinds tokens.now)) }
{
    let mut fields = Vec::new(alloc);
    let mut rest = tokens;
    'fields: while begins_field(rest) {
        let (field, after) = field_at(alloc, budget, rest)?;
        fields.push(field)?;
        rest = after;
    }
    Ok((fields, rest))
}

/// `ID {"or" ID} "=>"` fields
#[tactic(auto, unfolding(crate::specs::Decls::variant_at))]
fn variant_at(
    alloc: Global,
    budget: u32,
    tokens: &[Token],
) -> Result<(Variant, &[Token]), ReadError>
    requires { budget < 1000 }
    ensures { Gives (λ x. (view_variant x.0, kinds x.1.now)) result (decls.variant_at budget (kinds tokens.now)) }
{
    let (names, rest) = expect_choices(alloc, tokens)?;
    let rest = expect_mark(Mark::FatArrow, rest)?;
    let (fields, rest) = fields_at(alloc, budget, rest)?;
    let span = place(tokens);
    Ok((
        Variant {
            names,
            fields,
            span,
        },
        rest,
    ))
}

/// Whether a `}` stands here.
fn is_closed(tokens: &[Token]) -> bool
    ensures { result ≡ decls.is_closed (kinds tokens.now) }
{
    after_mark(Mark::CloseBrace, tokens).is_some()
}

/// The variants, up to a `}`.
fn variants_at(
    alloc: Global,
    budget: u32,
    tokens: &[Token],
) -> Result<(Vec<Variant>, &[Token]), ReadError>
    requires { budget < 1000 }
    ensures { Gives (λ x. (map view_variant x.0.items, kinds x.1.now)) result (decls.variants_at budget (kinds tokens.now)) }
{
    let mut variants = Vec::new(alloc);
    let mut rest = tokens;
    'variants: while !is_closed(rest) {
        let (variant, after) = variant_at(alloc, budget, rest)?;
        variants.push(variant)?;
        rest = after;
    }
    Ok((variants, rest))
}

/// `["pick" "{" {variant} "}"]`
#[tactic(auto, unfolding(crate::specs::Decls::pick_at))]
fn pick_at(
    alloc: Global,
    budget: u32,
    tokens: &[Token],
) -> Result<(Option<Vec<Variant>>, &[Token]), ReadError>
    requires { budget < 1000 }
    ensures { Gives (λ x. (option_map (λ vs. map view_variant vs.items) x.0, kinds x.1.now)) result (decls.pick_at budget (kinds tokens.now)) }
{
    let Some(rest) = after_key(Key::Pick, tokens) else {
        return Ok((None, tokens));
    };
    let rest = expect_mark(Mark::OpenBrace, rest)?;
    let (variants, rest) = variants_at(alloc, budget, rest)?;
    let rest = expect_mark(Mark::CloseBrace, rest)?;
    Ok((Some(variants), rest))
}

/// A member that was read, in a box of its own, and what stands behind it.
fn built_member(
    alloc: Global,
    tree: Member,
    rest: &[Token],
) -> Result<(Box<Member>, &[Token]), ReadError>
    ensures { Gives {Y = trees.Member × List Kind} (λ x. (view_member x.0.value, kinds x.1.now)) result (Ok (view_member tree, kinds rest.now)) }
{
    Ok((Box::new(alloc, tree)?, rest))
}

/// Adds a member to some.
fn push_member(members: &mut Vec<Member>, member: Box<Member>) -> Result<(), ReadError>
    ensures items { IfOk result (λ _. members.new.items ≡ members.old.items ++ member.value ∷ []) }
    ensures memory { IfErr result (λ e. e ≡ NoMemory) }
{
    Ok(members.push(Box::into_inner(member))?)
}

/// Whether members end here: at `}` or at `pick`.
fn ends_members(tokens: &[Token]) -> bool
    ensures { result ≡ decls.ends_members (kinds tokens.now) }
{
    match after_key(Key::Pick, tokens) {
        Some(_) => true,
        None => is_closed(tokens),
    }
}

/// The members, up to where they end.
#[cycle(members)]
pub fn members_at(
    alloc: Global,
    budget: u32,
    tokens: &[Token],
) -> Result<(Vec<Member>, &[Token]), ReadError>
    requires { budget < 1000 }
    ensures { Gives (λ x. (map view_member x.0.items, kinds x.1.now)) result (decls.members_at budget (kinds tokens.now)) }
{
    let mut members = Vec::new(alloc);
    let mut rest = tokens;
    'members: while !ends_members(rest) {
        let (member, after) = member_at(alloc, budget, rest)?;
        push_member(&mut members, member)?;
        rest = after;
    }
    Ok((members, rest))
}

/// A member, with its last `;`.
#[tactic(auto, unfolding(crate::specs::Decls::member_at, crate::specs::Decls::member_of_at))]
#[cycle(members)]
fn member_at(
    alloc: Global,
    budget: u32,
    tokens: &[Token],
) -> Result<(Box<Member>, &[Token]), ReadError>
    requires { budget < 1000 }
    ensures { Gives (λ x. (view_member x.0.value, kinds x.1.now)) result (decls.member_at budget (kinds tokens.now)) }
{
    let (names, rest) = expect_names(alloc, tokens)?;
    let rest = expect_mark(Mark::Colon, rest)?;
    member_behind(alloc, budget, names, place(tokens), rest)
}

/// What stands behind the `:` of a member.
#[tactic(auto, using(limbo_tree::proofs::Members::the_members), unfolding(crate::specs::Decls::member_behind))]
#[cycle(members)]
fn member_behind(
    alloc: Global,
    budget: u32,
    names: Vec<Name>,
    span: Span,
    tokens: &[Token],
) -> Result<(Box<Member>, &[Token]), ReadError>
    requires { budget < 1000 }
    ensures { Gives (λ x. (view_member x.0.value, kinds x.1.now)) result (decls.member_behind (decls.adt_at budget) budget (names_of names.items) (kinds tokens.now)) }
{
    if let Some(rest) = after_key(Key::Fn, tokens) {
        let (of, rest) = ended_fn(alloc, budget, rest)?;
        return built_member(alloc, Member::Function { names, of, span }, rest);
    }
    if let Some(rest) = after_key(Key::Con, tokens) {
        let (value, rest) = ended_expr(alloc, budget, rest)?;
        return built_member(alloc, Member::Con { names, value, span }, rest);
    }
    if let Some(rest) = after_key(Key::TypeWord, tokens) {
        let (of, rest) = ended_type(alloc, budget, rest)?;
        return built_member(alloc, Member::Type { names, of, span }, rest);
    }
    if let Some(_) = after_key(Key::Adt, tokens) {
        return adt_member(alloc, budget, names, span, tokens);
    }
    let (of, rest) = ended_type(alloc, budget, tokens)?;
    built_member(alloc, Member::Var { names, of, span }, rest)
}

/// A member that is an adt, from its `adt` on.
#[tactic(auto, using(limbo_tree::proofs::Members::the_members))]
#[cycle(members)]
fn adt_member(
    alloc: Global,
    budget: u32,
    names: Vec<Name>,
    span: Span,
    tokens: &[Token],
) -> Result<(Box<Member>, &[Token]), ReadError>
    requires { budget < 1000 }
    ensures { Gives (λ x. (view_member x.0.value, kinds x.1.now)) result (decls.adt_member (decls.adt_at budget) (names_of names.items) (kinds tokens.now)) }
{
    let Some(name) = only_name(names) else {
        return Err(syntax(tokens));
    };
    let (members, pick, rest) = adt_at(alloc, budget, tokens)?;
    let tree = Member::Adt {
        name,
        members,
        pick,
        span,
    };
    built_member(alloc, tree, rest)
}

/// The members and variants of an adt, from its `adt` on, and what stands behind its last `;`.
///
/// # Errors
/// `Syntax` or `TooDeep` at the first token that it doesn't go on with; `NoMemory`.
#[tactic(auto, using(crate::proofs::Budget::the_budget))]
#[cycle(members)]
pub fn adt_at(
    alloc: Global,
    budget: u32,
    tokens: &[Token],
) -> Result<(Vec<Member>, Option<Vec<Variant>>, &[Token]), ReadError>
    requires { budget < 1000 }
    ensures { Gives (λ x. (view_inside x.0.items x.1, kinds x.2.now)) result (decls.adt_at budget (kinds tokens.now)) }
{
    if budget == 0 {
        return Err(too_deep(tokens));
    }
    adt_above(alloc, budget - 1, tokens)
}

/// The same, where the budget of what stands inside is `inner`.
#[tactic(auto, unfolding(crate::specs::Decls::adt_of_at, limbo_tree::specs::View::view_members))]
#[cycle(members)]
fn adt_above(
    alloc: Global,
    inner: u32,
    tokens: &[Token],
) -> Result<(Vec<Member>, Option<Vec<Variant>>, &[Token]), ReadError>
    requires { inner < 999 }
    ensures { Gives (λ x. (view_inside x.0.items x.1, kinds x.2.now)) result (decls.adt_of_at (decls.member_at inner) inner (kinds tokens.now)) }
{
    let rest = expect_key(Key::Adt, tokens)?;
    let rest = expect_mark(Mark::OpenBrace, rest)?;
    let (members, rest) = members_at(alloc, inner, rest)?;
    let (pick, rest) = pick_at(alloc, inner, rest)?;
    let rest = expect_mark(Mark::CloseBrace, rest)?;
    let rest = expect_mark(Mark::Semicolon, rest)?;
    Ok((members, pick, rest))
}
