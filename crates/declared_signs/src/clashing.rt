ghost use Rattle.std.specs.Prelude.{◌≡◌, ◌↔◌, None, IfOk, IfSome};
ghost use Rattle.limbo_typed.specs.View.{view_module};
ghost use Rattle.declared_signs.specs.Declared.{AreToldApart, HasClash};

use crate::texts::declared_texts;
use limbo_typed::TypedModule;
use link_sign::{Clash, clash, one_text};
use std::alloc::{AllocError, Global};

/// The first clash of the functions that a module declares: two different types of functions with one signature.
///
/// # Errors
/// Want of memory.
pub fn declared_clash(alloc: Global, module: &TypedModule) -> Result<Option<Clash>, AllocError>
    ensures none { IfOk result (λ r. (r ≡ None) ↔ AreToldApart (view_module «module».now)) }
    ensures first { IfOk result (λ r. IfSome r (λ c. HasClash (view_module «module».now) c)) }
{
    // A module has one list of texts.
    one_text();
    let texts = declared_texts(alloc, module)?;
    clash(alloc, &texts)
}
