use crate::decl::Decl;
use crate::expr::Expr;
use crate::name::Name;
use limbo_lexer::inf_text::{Span, Text};

/// A statement (Limbo Language Reference, statements).
#[derive(Drop)]
#[cycle(statements)]
pub enum Stmt {
    /// `;`
    Empty {
        span: Span,
    },
    /// A block.
    Block {
        block: Block,
        span: Span,
    },
    /// A declaration.
    Declare {
        decl: Box<Decl>,
        span: Span,
    },
    /// `value;`
    Eval {
        value: Box<Expr>,
        span: Span,
    },
    /// `if (condition) then`, or with `else otherwise`.
    If {
        condition: Box<Expr>,
        then: Box<Stmt>,
        otherwise: Option<Box<Stmt>>,
        span: Span,
    },
    /// `label: while (condition) body`
    While {
        label: Option<Name>,
        condition: Option<Box<Expr>>,
        body: Box<Stmt>,
        span: Span,
    },
    /// `label: do body while (condition);`
    Do {
        label: Option<Name>,
        body: Box<Stmt>,
        condition: Option<Box<Expr>>,
        span: Span,
    },
    /// `label: for (first; condition; next) body`
    For {
        label: Option<Name>,
        first: Option<Box<Expr>>,
        condition: Option<Box<Expr>>,
        next: Option<Box<Expr>>,
        body: Box<Stmt>,
        span: Span,
    },
    /// `label: case value { arms }`
    Case {
        label: Option<Name>,
        value: Box<Expr>,
        arms: Vec<CaseArm>,
        span: Span,
    },
    /// `label: alt { arms }`
    Alt {
        label: Option<Name>,
        arms: Vec<AltArm>,
        span: Span,
    },
    /// `label: pick name := value { arms }`
    Pick {
        label: Option<Name>,
        name: Name,
        value: Box<Expr>,
        arms: Vec<PickArm>,
        span: Span,
    },
    /// `break label;`
    Break {
        label: Option<Name>,
        span: Span,
    },
    /// `continue label;`
    Continue {
        label: Option<Name>,
        span: Span,
    },
    /// `return value;`
    Return {
        value: Option<Box<Expr>>,
        span: Span,
    },
    /// `exit;`
    Exit {
        span: Span,
    },
    /// `spawn call;`
    Spawn {
        call: Box<Expr>,
        span: Span,
    },
    /// `raise value;`
    Raise {
        value: Option<Box<Expr>>,
        span: Span,
    },
}

/// `{ statements }`, and perhaps what handles their exceptions.
#[derive(Drop)]
#[cycle(statements)]
pub struct Block {
    pub statements: Vec<Stmt>,
    pub handler: Option<Handler>,
    pub span: Span,
}

/// `exception name { arms }` behind a block.
#[derive(Drop)]
#[cycle(statements)]
pub struct Handler {
    pub name: Option<Name>,
    pub arms: Vec<HandlerArm>,
}

/// `patterns => body` in a handler.
#[derive(Drop)]
#[cycle(statements)]
pub struct HandlerArm {
    pub patterns: Vec<HandlerPattern>,
    pub body: Vec<Stmt>,
    pub span: Span,
}

/// Which exceptions an arm of a handler takes.
#[derive(Drop)]
pub enum HandlerPattern {
    /// A string.
    Chars { text: Text, span: Span },
    /// The name of a declared exception, or of a constant.
    Name { name: Text, span: Span },
    /// `*`
    Any { span: Span },
}

/// `patterns => body` in a `case`.
#[derive(Drop)]
#[cycle(statements)]
pub struct CaseArm {
    pub patterns: Vec<Pattern>,
    pub body: Vec<Stmt>,
    pub span: Span,
}

/// Which values an arm of a `case` takes.
#[derive(Drop)]
pub enum Pattern {
    /// `value`
    One { value: Box<Expr> },
    /// `from to to`: both ends are taken.
    Range { from: Box<Expr>, to: Box<Expr> },
    /// `*`
    Any { span: Span },
}

/// `head => body` in an `alt`. A head that is absent is `*`.
#[derive(Drop)]
#[cycle(statements)]
pub struct AltArm {
    pub head: Option<Box<Expr>>,
    pub body: Vec<Stmt>,
    pub span: Span,
}

/// `names => body` in a `pick`. No names are `*`.
#[derive(Drop)]
#[cycle(statements)]
pub struct PickArm {
    pub names: Vec<Name>,
    pub body: Vec<Stmt>,
    pub span: Span,
}
