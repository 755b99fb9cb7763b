//! Lists of names.

ghost use Rattle.std.specs.Prelude.{◌≡◌};
ghost use Rattle.limbo_tree.specs.View.{names_of};
ghost use Rattle.limbo_reading.specs.Reading.{kinds, Gives};
ghost use Rattle.limbo_reading.specs.Lists as lists;

use crate::fault::ReadError;
use crate::look::{after_key, after_mark, expect_name};
use limbo_lexer::{Key, Mark, Token};
use limbo_tree::Name;
use std::alloc::Global;

/// `ID {"," ID}`: the names, and what stands behind them.
///
/// # Errors
/// `Syntax` where a name is missing; `NoMemory`.
pub fn expect_names(alloc: Global, tokens: &[Token]) -> Result<(Vec<Name>, &[Token]), ReadError>
    ensures { Gives (λ x. (names_of x.0.items, kinds x.1.now)) result (lists.names_at (kinds tokens.now)) }
{
    let (first, mut rest) = expect_name(tokens)?;
    let mut names = Vec::new(alloc);
    names.push(first)?;
    'names: while let Some(behind) = after_mark(Mark::Comma, rest) {
        let (name, after) = expect_name(behind)?;
        names.push(name)?;
        rest = after;
    }
    Ok((names, rest))
}

/// `ID {"or" ID}`: the names, and what stands behind them.
///
/// # Errors
/// `Syntax` where a name is missing; `NoMemory`.
pub fn expect_choices(alloc: Global, tokens: &[Token]) -> Result<(Vec<Name>, &[Token]), ReadError>
    ensures { Gives (λ x. (names_of x.0.items, kinds x.1.now)) result (lists.choices_at (kinds tokens.now)) }
{
    let (first, mut rest) = expect_name(tokens)?;
    let mut names = Vec::new(alloc);
    names.push(first)?;
    'names: while let Some(behind) = after_key(Key::Or, rest) {
        let (name, after) = expect_name(behind)?;
        names.push(name)?;
        rest = after;
    }
    Ok((names, rest))
}
