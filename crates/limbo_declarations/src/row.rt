use inf_text::Text;
use limbo_tree::{Expr, Field, FnType, Member, Name, TypeTree, Variant};

/// What a name is declared as (Limbo Language Reference, declarations).
#[derive(Clone, Copy)]
pub enum Declared<'a> {
    /// A constant, and the value of `iota` for it: how many names stand before it in its declaration.
    Constant {
        value: &'a Expr,
        iota: usize,
    },
    /// A type that is declared by `type`.
    Alias(&'a TypeTree),
    /// A variable, a field or a parameter of a written type, with its value where one is written.
    Variable {
        of: &'a TypeTree,
        value: Option<&'a Expr>,
    },
    /// A variable that is declared by `:=`.
    Inferred(&'a Expr),
    /// A name that is imported from this module.
    Imported(&'a Name),
    /// An exception, with the types of its values.
    Exception(&'a [TypeTree]),
    /// A module, with its members.
    Module(&'a [Member]),
    /// An adt, with its members and the variants of a pick adt.
    Adt {
        members: &'a [Member],
        pick: Option<&'a [Variant]>,
    },
    /// A function.
    Function(&'a FnType),
    /// A variant of a pick adt, with its own fields.
    Case(&'a [Field]),
}

/// A name in the text where it is declared, and what it is declared as.
#[derive(Clone, Copy)]
pub struct Row<'a> {
    /// The path of the text in which it stands.
    pub path: &'a Text,
    pub name: &'a Name,
    pub declared: Declared<'a>,
}
