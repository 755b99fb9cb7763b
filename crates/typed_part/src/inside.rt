//! What stands around a statement.

ghost use Rattle.std.specs.Prelude.{◌≡◌, nat_lt, suc};
ghost use Rattle.limbo_types.specs.View.{view_ty};
ghost use Rattle.typed_part.specs.Part as part;
ghost use Rattle.typed_part.specs.Seen.{view_inside, depth};

use limbo_typed::{TFn, TVar};
use limbo_types::Ty;

/// What stands around a statement.
#[derive(Clone, Copy)]
pub(crate) struct Inside<'a> {
    /// The variables of the function, and its answer.
    pub variables: &'a [TVar],
    pub answer: &'a Ty,
    /// The variables and the functions of the module.
    pub globals: &'a [TVar],
    pub functions: &'a [TFn],
    /// Which module type is that of `Sys`, and the module's variable that it is loaded into.
    pub system: Option<u32>,
    pub loaded: Option<u32>,
}

/// The loops around a statement. They aren't counted, so that no count runs over, however deep they stand.
#[derive(Clone, Copy)]
pub(crate) enum Loops<'a> {
    Outside,
    Within(&'a Loops<'a>),
}

/// One loop more, within these.
#[tactic(auto, using(crate::proofs::Loops::the_depth))]
pub(crate) fn within<'a>(loops: &'a Loops<'a>) -> Loops<'a>
    ensures { depth result ≡ suc (depth loops.now) }
{
    Loops::Within(loops)
}

/// Whether there are more than so many.
#[tactic(auto, using(crate::proofs::Loops::the_depth))]
pub(crate) fn is_around(loops: Loops, number: u32) -> bool
    ensures { result ≡ nat_lt number (depth loops.entry) }
{
    match loops {
        Loops::Outside => false,
        Loops::Within(more) => number == 0 || is_around(*more, number - 1),
    }
}
