//! What the names in an expression mean, for its evaluation.

ghost use Rattle.std.specs.Prelude.{◌≡◌, Option, option_copied};
ghost use Rattle.limbo_tree.specs.View.{view_expr};
ghost use Rattle.limbo_constant_values.specs.Answers.{same_name, answer_in, answers_of};

use limbo_constants::{Constant, Known};
use limbo_tree::{Expr, arrow_in, dot_in, name_in};

/// A name in an expression, and the constant that it means.
#[derive(Clone, Copy)]
pub(crate) struct Answer<'c> {
    pub(crate) part: &'c Expr,
    pub(crate) constant: &'c Constant,
}

/// What the names in an expression mean.
#[derive(Drop)]
pub(crate) struct Answers<'c> {
    pub(crate) all: Vec<Answer<'c>>,
}

// Whether an expression is this name.
fn is_same(name: &Expr, e: &Expr) -> bool
    ensures { result ≡ same_name (view_expr name.now) (view_expr e.now) }
{
    match name {
        Expr::Name { name, .. } => match name_in(e) {
            None => false,
            Some(other) => name == other,
        },
        Expr::Arrow { base, name, .. } => match arrow_in(e) {
            None => false,
            Some((outer, other)) => is_same(base, outer) && name.text == other.text,
        },
        Expr::Dot { base, name, .. } => match dot_in(e) {
            None => false,
            Some((outer, other)) => is_same(base, outer) && name.text == other.text,
        },
        _ => false,
    }
}

/// What a name means by these answers.
pub(crate) fn answer_for<'c>(all: &[Answer<'c>], part: &Expr) -> Option<&'c Constant>
    ensures { option_copied result ≡ answer_in (answers_of all.now) (view_expr part.now) }
{
    for answer in all {
        if is_same(answer.part, part) {
            return Some(answer.constant);
        }
    }
    None
}

impl<'c> Known for Answers<'c> {
    ghost use Rattle.limbo_constant_values.specs.Answers.{answer_in, answers_of};

    ghost meant = { λ s part. answer_in (answers_of s.all.items) part };

    fn meant<'a>(&'a self, part: &Expr) -> Option<&'a Constant> {
        answer_for(&self.all, part)
    }
}
