//! Parameters, and what stands behind a function's name.

ghost use Rattle.std.specs.Prelude.{◌≡◌, ◌<◌, IfOk, Ok, length, map, option_map};
ghost use Rattle.limbo_tree.specs.View.{name_of, view_param, view_raises, view_fn, view_boxed_type};
ghost use Rattle.limbo_reading.specs.Reading as reading;
ghost use Rattle.limbo_reading.specs.Reading.{kinds, Gives};
ghost use Rattle.limbo_reading.specs.Lists as lists;
ghost use Rattle.limbo_lexer.specs.declared.token.Mark.TheVariants as mark;
ghost use Rattle.limbo_decl_parser.specs.Decls as decls;

use limbo_expr_parts::type_at;
use limbo_lexer::{Key, Mark, Token};
use limbo_reading::{
    ReadError, after_key, after_mark, expect_mark, expect_name, expect_names, place,
};
use limbo_tree::{FnType, Name, Param, Raises, TypeTree};
use std::alloc::Global;

/// `ID` or `nil`
fn expect_pname(tokens: &[Token]) -> Result<(Option<Name>, &[Token]), ReadError>
    ensures { Gives (λ x. (name_of x.0, kinds x.1.now)) result (decls.pname_at (kinds tokens.now)) }
{
    if let Some(rest) = after_key(Key::Nil, tokens) {
        return Ok((None, rest));
    }
    let (name, rest) = expect_name(tokens)?;
    Ok((Some(name), rest))
}

/// pname `{"," pname}`
fn expect_pnames(
    alloc: Global,
    tokens: &[Token],
) -> Result<(Vec<Option<Name>>, &[Token]), ReadError>
    ensures { Gives (λ x. (map name_of x.0.items, kinds x.1.now)) result (decls.pnames_at (kinds tokens.now)) }
{
    let (first, mut rest) = expect_pname(tokens)?;
    let mut names = Vec::new(alloc);
    names.push(first)?;
    'names: while let Some(behind) = after_mark(Mark::Comma, rest) {
        let (name, after) = expect_pname(behind)?;
        names.push(name)?;
        rest = after;
    }
    Ok((names, rest))
}

/// Whether `self` stands here, and what follows.
fn take_self(tokens: &[Token]) -> (bool, &[Token])
    ensures { decls.self_at (kinds tokens.now) ≡ Ok (result.0, kinds result.1.now) }
{
    match after_key(Key::SelfWord, tokens) {
        Some(rest) => (true, rest),
        None => (false, tokens),
    }
}

/// pname `{"," pname} ":" ["self"]` type
#[tactic(auto, unfolding(crate::specs::Decls::param_at))]
fn param_at(alloc: Global, budget: u32, tokens: &[Token]) -> Result<(Param, &[Token]), ReadError>
    requires { budget < 1000 }
    ensures { Gives (λ x. (view_param x.0, kinds x.1.now)) result (decls.param_at budget (kinds tokens.now)) }
{
    let (names, rest) = expect_pnames(alloc, tokens)?;
    let rest = expect_mark(Mark::Colon, rest)?;
    let (is_self, rest) = take_self(rest);
    let (of, _, rest) = type_at(alloc, budget, rest)?;
    let span = place(tokens);
    Ok((
        Param {
            names,
            is_self,
            of,
            span,
        },
        rest,
    ))
}

/// param `{"," param}`
fn several_params(
    alloc: Global,
    budget: u32,
    tokens: &[Token],
) -> Result<(Vec<Param>, &[Token]), ReadError>
    requires { budget < 1000 }
    ensures { Gives (λ x. (map view_param x.0.items, kinds x.1.now)) result (lists.items (decls.param_at budget) (reading.after_mark mark.Comma) (kinds tokens.now)) }
{
    let (first, mut rest) = param_at(alloc, budget, tokens)?;
    let mut params = Vec::new(alloc);
    params.push(first)?;
    'params: while let Some(behind) = after_mark(Mark::Comma, rest) {
        let (param, after) = param_at(alloc, budget, behind)?;
        params.push(param)?;
        rest = after;
    }
    Ok((params, rest))
}

/// The parameters before a `)`, and what stands behind that.
#[tactic(auto, unfolding(crate::specs::Decls::params_at))]
fn params_at(
    alloc: Global,
    budget: u32,
    tokens: &[Token],
) -> Result<(Vec<Param>, &[Token]), ReadError>
    requires { budget < 1000 }
    ensures { Gives (λ x. (map view_param x.0.items, kinds x.1.now)) result (decls.params_at budget (kinds tokens.now)) }
{
    if let Some(rest) = after_mark(Mark::CloseParen, tokens) {
        return Ok((Vec::new(alloc), rest));
    }
    let (params, rest) = several_params(alloc, budget, tokens)?;
    let rest = expect_mark(Mark::CloseParen, rest)?;
    Ok((params, rest))
}

/// `[":" type]`
#[tactic(auto, unfolding(crate::specs::Decls::answer_at))]
fn answer_at(
    alloc: Global,
    budget: u32,
    tokens: &[Token],
) -> Result<(Option<Box<TypeTree>>, &[Token]), ReadError>
    requires { budget < 1000 }
    ensures { Gives (λ x. (view_boxed_type x.0, kinds x.1.now)) result (decls.answer_at budget (kinds tokens.now)) }
{
    let Some(rest) = after_mark(Mark::Colon, tokens) else {
        return Ok((None, tokens));
    };
    let (of, _, rest) = type_at(alloc, budget, rest)?;
    Ok((Some(of), rest))
}

/// `["raises" (ID | "(" ids ")")]`
#[tactic(auto, unfolding(crate::specs::Decls::raises_at))]
fn raises_at(alloc: Global, tokens: &[Token]) -> Result<(Option<Raises>, &[Token]), ReadError>
    ensures { Gives (λ x. (option_map view_raises x.0, kinds x.1.now)) result (decls.raises_at (kinds tokens.now)) }
{
    let Some(rest) = after_key(Key::Raises, tokens) else {
        return Ok((None, tokens));
    };
    let Some(inside) = after_mark(Mark::OpenParen, rest) else {
        let (name, rest) = expect_name(rest)?;
        return Ok((Some(Raises::One { name }), rest));
    };
    let (names, rest) = expect_names(alloc, inside)?;
    let rest = expect_mark(Mark::CloseParen, rest)?;
    Ok((Some(Raises::Several { names }), rest))
}

/// `"(" [params] ")" [":" type] [raises]`
#[tactic(auto, unfolding(crate::specs::Decls::fn_at))]
fn fn_here(alloc: Global, budget: u32, tokens: &[Token]) -> Result<(FnType, &[Token]), ReadError>
    requires { budget < 1000 }
    ensures { Gives (λ x. (view_fn x.0, kinds x.1.now)) result (decls.fn_at budget (kinds tokens.now)) }
{
    let rest = expect_mark(Mark::OpenParen, tokens)?;
    let (params, rest) = params_at(alloc, budget, rest)?;
    let (answer, rest) = answer_at(alloc, budget, rest)?;
    let (raises, rest) = raises_at(alloc, rest)?;
    let span = place(tokens);
    Ok((
        FnType {
            params,
            answer,
            raises,
            span,
        },
        rest,
    ))
}

/// What stands behind a function's name, `(params): answer raises ..`, whose trees nest up to the budget, and what follows.
///
/// # Errors
/// `Syntax` or `TooDeep` at the first token that it doesn't go on with; `NoMemory`.
pub fn fn_at(alloc: Global, budget: u32, tokens: &[Token]) -> Result<(FnType, &[Token]), ReadError>
    requires { budget < 1000 }
    ensures same { Gives (λ x. (view_fn x.0, kinds x.1.now)) result (decls.fn_at budget (kinds tokens.now)) }
    ensures shorter { IfOk result (λ x. length (kinds x.1.now) < length (kinds tokens.now)) }
{
    fn_here(alloc, budget, tokens)
}
