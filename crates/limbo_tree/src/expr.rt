use crate::name::Name;
use crate::operators::{AssignOp, BinaryOp, PostfixOp, UnaryOp};
use crate::types::TypeTree;
use limbo_lexer::inf_text::{Span, Text};

/// An expression (Limbo Language Reference, expressions).
#[derive(Drop)]
#[cycle(exprs)]
pub enum Expr {
    /// `left op right`: an assignment, a declaration by `:=`, or a send.
    Assign {
        op: AssignOp,
        left: Box<Expr>,
        right: Box<Expr>,
        span: Span,
    },
    /// `load` module path
    Load {
        module: Name,
        path: Box<Expr>,
        span: Span,
    },
    /// `left op right`
    Binary {
        op: BinaryOp,
        left: Box<Expr>,
        right: Box<Expr>,
        span: Span,
    },
    /// `op operand`
    Unary {
        op: UnaryOp,
        operand: Box<Expr>,
        span: Span,
    },
    /// `array of byte operand`: a string's bytes.
    Bytes {
        operand: Box<Expr>,
        span: Span,
    },
    /// `array [len] of { items }`: an array with its elements. `comma` says whether one stands behind the last item.
    Filled {
        len: Option<Box<Expr>>,
        items: Vec<Init>,
        comma: bool,
        span: Span,
    },
    /// `array [len] of element`
    Sized {
        len: Box<Expr>,
        element: Box<TypeTree>,
        span: Span,
    },
    /// `chan of element`. No form with a size is built yet.
    Channel {
        size: Option<Box<Expr>>,
        element: Box<TypeTree>,
        span: Span,
    },
    /// `list of { items }`
    Listed {
        items: Vec<Expr>,
        span: Span,
    },
    /// `function(args)`
    Call {
        function: Box<Expr>,
        args: Vec<Expr>,
        span: Span,
    },
    /// `base[index]`
    Index {
        base: Box<Expr>,
        index: Box<Expr>,
        span: Span,
    },
    /// `base[from:to]`
    Slice {
        base: Box<Expr>,
        from: Option<Box<Expr>>,
        to: Option<Box<Expr>>,
        span: Span,
    },
    /// `base.name`
    Dot {
        base: Box<Expr>,
        name: Name,
        span: Span,
    },
    /// `base->name`
    Arrow {
        base: Box<Expr>,
        name: Name,
        span: Span,
    },
    /// `base op`
    Postfix {
        op: PostfixOp,
        base: Box<Expr>,
        span: Span,
    },
    /// A number: a `big` where it is wide, else an `int`.
    Number {
        value: i64,
        wide: bool,
        span: Span,
    },
    /// A string constant.
    Chars {
        text: Text,
        span: Span,
    },
    /// A name.
    Name {
        name: Text,
        span: Span,
    },
    /// `nil`
    Nil {
        span: Span,
    },
    /// `(` expr `,` ... `)`: one item in parentheses, or a tuple of more.
    Group {
        items: Vec<Expr>,
        span: Span,
    },
}

/// An item between the braces of an array.
#[derive(Drop)]
#[cycle(exprs)]
pub enum Init {
    /// `value`
    Next { value: Box<Expr> },
    /// `index => value`
    At { index: Box<Expr>, value: Box<Expr> },
    /// `* => value`
    Rest { value: Box<Expr> },
}
