//! What each name in an expression means, by the values that are known.

ghost use Rattle.std.specs.Prelude.{◌≡◌, ◌++◌, ◌∷◌, [], List, Some, option_copied, IfOk, OnOk, IfSome, IfNone};
ghost use Rattle.limbo_tree.specs.Exprs as tree;
ghost use Rattle.limbo_tree.specs.View.{view_expr};
ghost use Rattle.limbo_constants.specs.declared.constant.Constant as constant;
ghost use Rattle.limbo_constants.specs.View.{view_parts};
ghost use Rattle.limbo_naming.specs.Told.{Knows};
ghost use Rattle.limbo_constant_values.specs.Values.{iota_name, counted_value};
ghost use Rattle.limbo_constant_values.specs.Answers.{IsKnown, answers_of};
ghost use Rattle.limbo_constant_values.specs.Asking.{IsAnswerOf, AreAnswersOf, Evaluates};

use crate::answers::{Answer, Answers, answer_for};
use inf_text::is_spelled;
use limbo_constants::{Constant, asked, evaluate};
use limbo_naming::{Named, Naming};
use limbo_tree::{Expr, name_in};
use limbo_values::{Number, int};
use std::alloc::{AllocError, Global};

/// Where an expression stands: its scope, and what `iota` counts there, if it counts.
#[derive(Clone, Copy)]
pub(crate) struct Place<'c> {
    pub(crate) scope: Option<u32>,
    pub(crate) counter: Option<&'c Constant>,
}

/// The value of `iota` for a name that so many names stand before.
pub(crate) fn counted(iota: usize) -> Constant
    ensures { result ≡ counted_value iota }
{
    Constant::Number(Number::Int(int::wrap((iota % (1 << 32)) as i64)))
}

// The value of a declaration, if it is known.
fn value_at(values: &[Option<Constant>], number: u32) -> Option<&Constant>
    ensures some { IfSome result (λ c. IsKnown values.now number c.now) }
    ensures none { IfNone result ((c : constant.Constant) → IsKnown values.now number c → ⊥) }
{
    if number as usize >= values.len() {
        return None;
    }
    match &values[number as usize] {
        Some(value) => Some(value),
        None => None,
    }
}

// What `iota` counts, where an expression is that name.
fn iota_value<'c>(counter: Option<&'c Constant>, e: &Expr) -> Option<&'c Constant>
    ensures some { IfSome result (λ c. (view_expr e.now ≡ tree.Name iota_name) × (option_copied counter.entry ≡ Some c.now)) }
    ensures none { IfNone result ((c : constant.Constant) → view_expr e.now ≡ tree.Name iota_name
        → option_copied counter.entry ≡ Some c → ⊥) }
{
    match name_in(e) {
        None => None,
        Some(name) => {
            if is_spelled(name.as_slice(), "iota") {
                counter
            } else {
                None
            }
        }
    }
}

// What a name in an expression means.
fn meaning<'c>(
    naming: &Naming,
    place: Place<'c>,
    values: &'c [Option<Constant>],
    part: &Expr,
) -> Option<&'c Constant>
    requires names { Knows naming.now }
    ensures some { IfSome result (λ c. IsAnswerOf naming.now place.entry values.now (view_expr part.now) c.now) }
    ensures none { IfNone result ((c : constant.Constant) → IsAnswerOf naming.now place.entry values.now (view_expr part.now) c → ⊥) }
{
    match naming.expr_named(place.scope, part) {
        None => None,
        Some(named) => match named {
            Named::Found(number) => value_at(values, number),
            Named::Unknown => iota_value(place.counter, part),
            Named::Nothing => None,
        },
    }
}

// Adds what one more name means, unless that is there.
fn push_answer<'c>(
    all: &mut Vec<Answer<'c>>,
    naming: &Naming,
    place: Place<'c>,
    values: &'c [Option<Constant>],
    part: &'c Expr,
) -> Result<(), AllocError>
    requires names { Knows naming.now }
    ensures { OnOk result ((parts : List tree.Expr) → AreAnswersOf naming.now place.entry values.now parts (answers_of all.old.items)
        → AreAnswersOf naming.now place.entry values.now (parts ++ view_expr part.now ∷ []) (answers_of all.new.items)) }
{
    match meaning(naming, place, values, part) {
        None => Ok(()),
        Some(constant) => {
            if answer_for(all, part).is_some() {
                return Ok(());
            }
            all.push(Answer { part, constant })?;
            Ok(())
        }
    }
}

// What some names mean.
fn answers<'c>(
    alloc: Global,
    naming: &Naming,
    place: Place<'c>,
    values: &'c [Option<Constant>],
    parts: &[&'c Expr],
) -> Result<Vec<Answer<'c>>, AllocError>
    requires names { Knows naming.now }
    ensures { IfOk result (λ all. AreAnswersOf naming.now place.entry values.now (view_parts parts.now) (answers_of all.items)) }
{
    let mut all = Vec::new(alloc);
    for part in parts {
        push_answer(&mut all, naming, place, values, part)?;
    }
    Ok(all)
}

/// The constant that an expression is by the values that are known: none where it isn't constant.
///
/// # Errors
/// Want of memory.
pub(crate) fn evaluate_at(
    alloc: Global,
    naming: &Naming,
    place: Place,
    values: &[Option<Constant>],
    e: &Expr,
) -> Result<Option<Constant>, AllocError>
    requires names { Knows naming.now }
    ensures { IfOk result (λ v. Evaluates naming.now place.entry values.now (view_expr e.now) v) }
{
    let parts = asked(alloc, e)?;
    let all = answers(alloc, naming, place, values, &parts)?;
    evaluate(alloc, &Answers { all }, e)
}
