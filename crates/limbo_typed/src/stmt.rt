use crate::expr::{Pattern, TExpr};
use inf_text::Text;

/// A statement (Limbo Language Reference, statements).
#[derive(Drop)]
#[cycle(statements)]
pub enum TStmt {
    /// `;`, and a declaration of anything but variables.
    Empty,
    /// `{` statements `}`
    Block(Vec<TStmt>),
    /// Variables begin: each gets the one value, or zero or `nil` of its type where none is written.
    Declare {
        variables: Vec<u32>,
        value: Option<Box<TExpr>>,
    },
    /// An expression is evaluated for what it does.
    Eval(Box<TExpr>),
    /// Without an `else`, `other` is empty.
    If {
        condition: Box<TExpr>,
        then: Vec<TStmt>,
        other: Vec<TStmt>,
    },
    /// A loop. A condition that is absent always holds, here and below.
    While {
        condition: Option<Box<TExpr>>,
        body: Vec<TStmt>,
    },
    Do {
        body: Vec<TStmt>,
        condition: Option<Box<TExpr>>,
    },
    For {
        first: Option<Box<TExpr>>,
        condition: Option<Box<TExpr>>,
        next: Option<Box<TExpr>>,
        body: Vec<TStmt>,
    },
    /// `case` of an int, a big or a string. Where no arm takes the value, nothing happens.
    Case {
        value: Box<TExpr>,
        arms: Vec<CaseArm>,
    },
    Alt {
        arms: Vec<AltArm>,
    },
    /// `pick` of a `ref` of a pick adt.
    Pick {
        value: Box<TExpr>,
        arms: Vec<PickArm>,
    },
    /// Ends a loop, `case`, `alt` or `pick`: the innermost is 0, the next around it 1, and so on.
    Break(u32),
    /// Goes on with the next turn of a loop. Each `case`, `alt` and `pick` on the way to it counts too.
    Continue(u32),
    Return(Option<Box<TExpr>>),
    Exit,
    /// A call begins as a process of its own.
    Spawn(Box<TExpr>),
    /// A string is raised.
    Raise(Box<TExpr>),
    /// A declared exception is raised, with its values.
    RaiseDeclared {
        exception: u32,
        values: Vec<TExpr>,
    },
    /// What was caught last in this place is raised again.
    RaiseAgain {
        caught: u32,
    },
    /// A block, and what handles its exceptions. What is caught stays in a place of the block's own, by its number among those of
    /// the function.
    Handle {
        body: Vec<TStmt>,
        caught: u32,
        arms: Vec<HandlerArm>,
    },
}

/// A constant.
#[derive(Drop)]
pub enum Constant {
    /// A byte, an int or a big.
    Number(i64),
    /// A string.
    Chars(Text),
}

/// Which values an arm of a `case` takes.
#[derive(Drop)]
pub enum CasePattern {
    /// One value.
    One(Constant),
    /// A value between two, both taken.
    Range { from: Constant, to: Constant },
    /// `*`: each that no other arm takes.
    Any,
}

/// An arm of a `case`, which takes what one of its patterns takes.
#[derive(Drop)]
#[cycle(statements)]
pub struct CaseArm {
    pub patterns: Vec<CasePattern>,
    pub body: Vec<TStmt>,
}

/// What an arm of an `alt` waits for.
#[derive(Drop)]
pub enum AltHead {
    /// A value from a channel, or from any of an array, as the type says. Where it goes is evaluated once the arm is chosen.
    Receive {
        pattern: Option<Box<Pattern>>,
        channel: Box<TExpr>,
    },
    /// A receiver for a value.
    Send {
        channel: Box<TExpr>,
        value: Box<TExpr>,
    },
    /// `*`: nothing.
    Any,
}

/// An arm of an `alt`.
#[derive(Drop)]
#[cycle(statements)]
pub struct AltArm {
    pub head: AltHead,
    pub body: Vec<TStmt>,
}

/// An arm of a `pick`, which takes these variants; none are `*`. Its variable has the picked reference.
#[derive(Drop)]
#[cycle(statements)]
pub struct PickArm {
    pub variants: Vec<u32>,
    pub variable: u32,
    pub body: Vec<TStmt>,
}

/// Which exceptions an arm of a handler takes.
#[derive(Drop)]
pub enum HandlerPattern {
    /// A string.
    Chars(Text),
    /// Each string that begins so.
    Prefix(Text),
    /// A declared exception, by its number.
    Declared(u32),
    /// `*`
    Any,
}

/// An arm of a handler. Where the handler has a name, the arm's variable has what the name means there: the exception's text, or
/// the tuple of its values, as the type says.
#[derive(Drop)]
#[cycle(statements)]
pub struct HandlerArm {
    pub patterns: Vec<HandlerPattern>,
    pub variable: Option<u32>,
    pub body: Vec<TStmt>,
}
