//! What declarations stand for by their own words.

ghost use Rattle.std.specs.Prelude.{◌≡◌, IfSome, IfNone, Some, None};
ghost use Rattle.limbo_tree.specs.View.{view_type};
ghost use Rattle.limbo_declarations.specs.View.{view_declared, view_row};
ghost use Rattle.limbo_naming.specs.Naming as naming;
ghost use Rattle.limbo_naming.specs.Qualified.{named_type, row_stands_for};
ghost use Rattle.limbo_naming.specs.View.{view_written};

use inf_text::Text;
use limbo_declarations::{Declared, Row};
use limbo_tree::{Qual, TypeTree};

/// A name as a declaration has it: that of a type, or a name that is imported from what another one names.
#[derive(Clone, Copy)]
pub enum Written<'a> {
    Type(&'a Qual),
    Imported { source: &'a Text, name: &'a Text },
}

/// Whether it is a module.
pub fn is_module(declared: Declared) -> bool
    ensures { result ≡ naming.is_module (view_declared declared.entry) }
{
    match declared {
        Declared::Module(_members) => true,
        _ => false,
    }
}

/// Whether it is an adt.
pub fn is_adt(declared: Declared) -> bool
    ensures { result ≡ naming.is_adt (view_declared declared.entry) }
{
    match declared {
        Declared::Adt { .. } => true,
        _ => false,
    }
}

/// Whether it is a variant of an adt.
pub fn is_variant(declared: Declared) -> bool
    ensures { result ≡ naming.is_variant (view_declared declared.entry) }
{
    match declared {
        Declared::Case(_fields) => true,
        _ => false,
    }
}

/// Whether it has parts: an adt, or a variant of one.
pub fn has_parts(declared: Declared) -> bool
    ensures { result ≡ naming.has_parts (view_declared declared.entry) }
{
    match declared {
        Declared::Adt { .. } => true,
        Declared::Case(_fields) => true,
        _ => false,
    }
}

/// Whether it is a variable of a written type.
pub fn is_variable(declared: Declared) -> bool
    ensures { result ≡ naming.is_variable (view_declared declared.entry) }
{
    match declared {
        Declared::Variable { .. } => true,
        _ => false,
    }
}

// The name that a type is, or that it refers to.
fn named_type<'a>(of: &'a TypeTree) -> Option<Written<'a>>
    ensures some { IfSome result (λ w. named_type (view_type of.now) ≡ Some (view_written w)) }
    ensures none { IfNone result (named_type (view_type of.now) ≡ None) }
{
    match of {
        TypeTree::Named { name, .. } => Some(Written::Type(name)),
        TypeTree::Ref { of, .. } => Some(Written::Type(of)),
        _ => None,
    }
}

/// What a declaration stands for by its own words, if not for itself.
pub fn stands_for<'a>(row: Row<'a>) -> Option<Written<'a>>
    ensures some { IfSome result (λ w. row_stands_for (view_row row.entry) ≡ Some (view_written w)) }
    ensures none { IfNone result (row_stands_for (view_row row.entry) ≡ None) }
{
    match row.declared {
        Declared::Alias(of) => named_type(of),
        Declared::Variable { of, .. } => named_type(of),
        Declared::Imported(source) => Some(Written::Imported {
            source: &source.text,
            name: &row.name.text,
        }),
        _ => None,
    }
}
