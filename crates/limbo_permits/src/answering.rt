//! What is asked of an expression's value.

ghost use Rattle.std.specs.Prelude.{◌≡◌, ◌≢◌, ◌↔◌, IsTrue};
ghost use Rattle.limbo_types.specs.Types.{Nothing};
ghost use Rattle.limbo_types.specs.View.{view_ty};
ghost use Rattle.limbo_typed.specs.Sound.{type_of, IsSettled};
ghost use Rattle.limbo_typed.specs.View.{view_expr};
ghost use Rattle.limbo_permits.specs.Counting.{is_some_type};

use limbo_typed::TExpr;
use limbo_types::Ty;

// Whether a type is another than that of a call without an answer.
#[tactic(auto, using(limbo_types::proofs::View::the_types, crate::proofs::Counts::some_type))]
fn is_some_type(t: &Ty) -> bool
    ensures { result ≡ is_some_type (view_ty t.now) }
{
    !matches!(t, Ty::Nothing)
}

/// Whether an expression has a value: its type isn't that of a call without an answer.
pub fn has_answer(e: &TExpr) -> bool
    ensures { IsTrue result ↔ (type_of (view_expr e.now) ≢ Nothing) }
{
    is_some_type(&e.ty)
}

/// Whether no `nil` has a part in an expression's type of which nothing says what it stands for.
pub fn is_settled(e: &TExpr) -> bool
    ensures { IsTrue result ↔ IsSettled (type_of (view_expr e.now)) }
{
    limbo_forms::is_settled(&e.ty)
}
