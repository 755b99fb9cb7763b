//! Whether two functions take and answer the same.

ghost use Rattle.std.specs.Prelude.{◌≡◌, true, false, map};
ghost use Rattle.limbo_types.specs.View.{view_ty, view_fn};

use limbo_types::{FnTy, Ty, equal};

// Whether types in a row are the same ones.
fn are_equal(types: &[Ty], others: &[Ty]) -> bool
    ensures yes { result ≡ true → map view_ty types.now ≡ map view_ty others.now }
    ensures no { result ≡ false → map view_ty types.now ≡ map view_ty others.now → ⊥ }
{
    if types.len() != others.len() {
        return false;
    }
    for place in 0..types.len() {
        if !equal(&types[place], &others[place]) {
            return false;
        }
    }
    true
}

/// Whether two functions take and answer the same.
pub(crate) fn is_same(of: &FnTy, other: &FnTy) -> bool
    ensures yes { result ≡ true → view_fn of.now ≡ view_fn other.now }
    ensures no { result ≡ false → view_fn of.now ≡ view_fn other.now → ⊥ }
{
    are_equal(&of.args, &other.args) && equal(&of.answer, &other.answer)
}
