use crate::expr::Expr;
use crate::name::Name;
use crate::types::TypeTree;
use limbo_lexer::inf_text::Span;

/// A declaration (Limbo Language Reference, declarations).
#[derive(Drop)]
pub enum Decl {
    /// `names: con value;`
    Con {
        names: Vec<Name>,
        value: Box<Expr>,
        span: Span,
    },
    /// `names: type of;`
    Type {
        names: Vec<Name>,
        of: Box<TypeTree>,
        span: Span,
    },
    /// `names: of;` or `names: of = value;`
    Var {
        names: Vec<Name>,
        of: Box<TypeTree>,
        value: Option<Box<Expr>>,
        span: Span,
    },
    /// `names := value;`
    Define {
        names: Vec<Name>,
        value: Box<Expr>,
        span: Span,
    },
    /// `names: import module;`
    Import {
        names: Vec<Name>,
        module: Name,
        span: Span,
    },
    /// `names: exception;` or `names: exception(values);`
    Exception {
        names: Vec<Name>,
        values: Vec<TypeTree>,
        span: Span,
    },
    /// `name: module { members };`
    Module {
        name: Name,
        members: Vec<Member>,
        span: Span,
    },
    /// `name: adt { members };`, or with `pick { variants }` behind the members.
    Adt {
        name: Name,
        members: Vec<Member>,
        pick: Option<Vec<Variant>>,
        span: Span,
    },
}

/// A member of a module or of an adt.
#[derive(Drop)]
pub enum Member {
    /// `names: of;`
    Var {
        names: Vec<Name>,
        of: Box<TypeTree>,
        span: Span,
    },
    /// `names: fn ..;`
    Function {
        names: Vec<Name>,
        of: Box<FnType>,
        span: Span,
    },
    /// `names: con value;`
    Con {
        names: Vec<Name>,
        value: Box<Expr>,
        span: Span,
    },
    /// `names: type of;`
    Type {
        names: Vec<Name>,
        of: Box<TypeTree>,
        span: Span,
    },
    /// `name: adt { members };`, or with `pick { variants }` behind the members.
    Adt {
        name: Name,
        members: Vec<Member>,
        pick: Option<Vec<Variant>>,
        span: Span,
    },
}

/// A variant of a pick adt, under one or more names: `names => fields`.
#[derive(Drop)]
pub struct Variant {
    pub names: Vec<Name>,
    pub fields: Vec<Field>,
    pub span: Span,
}

/// Fields of a variant: `names: of;`
#[derive(Drop)]
pub struct Field {
    pub names: Vec<Name>,
    pub of: Box<TypeTree>,
    pub span: Span,
}

/// What a function takes, answers and raises: `(params): answer raises ..`
#[derive(Drop)]
pub struct FnType {
    pub params: Vec<Param>,
    pub answer: Option<Box<TypeTree>>,
    pub raises: Option<Raises>,
    pub span: Span,
}

/// Parameters of one type: `names: self of`. A name that is absent is `nil`.
#[derive(Drop)]
pub struct Param {
    pub names: Vec<Option<Name>>,
    pub is_self: bool,
    pub of: Box<TypeTree>,
    pub span: Span,
}

/// The exceptions that a function says it raises.
#[derive(Drop)]
pub enum Raises {
    /// `raises name`
    One { name: Name },
    /// `raises (names)`
    Several { names: Vec<Name> },
}
