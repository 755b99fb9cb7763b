ghost use Rattle.std.specs.Prelude.{◌≡◌, Option, option_copied};
ghost use Rattle.limbo_tree.specs.View.{view_expr};
ghost use Rattle.limbo_constants.specs.Constants.{Meant};

use crate::constant::Constant;
use limbo_tree::Expr;

/// Who knows which constant a part of an expression means.
pub trait Known {
    /// The constant that each part means, if it means one.
    ghost meant: { Self → Meant };

    /// The constant that a part means. It is asked for a name, for `m->k` and for `x.k`, each as a whole.
    fn meant<'a>(&'a self, part: &Expr) -> Option<&'a Constant>
        ensures told { option_copied result ≡ meant self.now (view_expr part.now) };
}
