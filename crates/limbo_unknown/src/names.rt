//! Where a name stands, if it isn't there.

ghost use Rattle.std.specs.Prelude.{◌≡◌, ◌∷◌, [], IfSome, IfNone};
ghost use Rattle.limbo_tree.specs.View.{view_qual};
ghost use Rattle.limbo_naming.specs.Told.{Knows};
ghost use Rattle.limbo_naming.specs.Qualified.{Simple, Member, of_type};
ghost use Rattle.limbo_naming.specs.declared.naming.Named.TheVariants as named;
ghost use Rattle.limbo_unknown.specs.Lacking.{IsTold};

use inf_text::{Span, Text};
use limbo_naming::{Named, Naming};
use limbo_tree::{Name, Qual};

// The place, if the name that stands there isn't known.
fn unless_known(found: Named, at: Span) -> Option<Span>
    ensures some { IfSome result (λ _. found ≡ named.Unknown) }
    ensures none { IfNone result (found ≡ named.Unknown → ⊥) }
{
    match found {
        Named::Unknown => Some(at),
        Named::Found(_number) => None,
        Named::Nothing => None,
    }
}

/// Where the name of a type stands, if it isn't there.
pub(crate) fn missing_qual(naming: &Naming, scope: Option<u32>, name: &Qual) -> Option<Span>
    requires names { Knows naming.now }
    ensures { IsTold naming.now scope (of_type (view_qual name.now) ∷ []) result }
{
    unless_known(naming.type_named(scope, name), name.first.span)
}

/// Where a name alone stands, if it isn't there.
pub(crate) fn missing_name(
    naming: &Naming,
    scope: Option<u32>,
    name: &Text,
    at: Span,
) -> Option<Span>
    requires names { Knows naming.now }
    ensures { IsTold naming.now scope (Simple name.now ∷ []) result }
{
    unless_known(naming.name_named(scope, name), at)
}

/// Where an imported name stands, if the module has no such member.
pub(crate) fn missing_import(
    naming: &Naming,
    scope: Option<u32>,
    source: &Name,
    name: &Name,
) -> Option<Span>
    requires names { Knows naming.now }
    ensures { IsTold naming.now scope (Member (Simple source.now.text) name.now.text ∷ []) result }
{
    unless_known(
        naming.import_named(scope, &source.text, &name.text),
        name.span,
    )
}
