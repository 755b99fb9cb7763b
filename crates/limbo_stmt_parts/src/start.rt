//! How a statement begins, by its first tokens.

ghost use Rattle.std.specs.Prelude.{◌≡◌, None, Some, MatchOption};
ghost use Rattle.limbo_reading.specs.Reading.{kinds};
ghost use Rattle.limbo_stmt_parts.specs.Start as starts;

use limbo_lexer::{Key, Kind, Mark, Token};
use limbo_reading::after_mark;

/// The statements that may have a label.
#[derive(Clone, Copy)]
pub enum Branch {
    Loop(Loop),
    Choice(Choice),
}

/// The statements that repeat one.
#[derive(Clone, Copy)]
pub enum Loop {
    While,
    Do,
    For,
}

/// The statements that choose an arm.
#[derive(Clone, Copy)]
pub enum Choice {
    Case,
    Alt,
    Pick,
}

/// The statements that end in a semicolon behind a keyword.
#[derive(Clone, Copy)]
pub enum Jump {
    Break,
    Continue,
    Return,
    Exit,
    Spawn,
    Raise,
}

/// Where statements stand one behind the other: in a block, or in an arm of one of four kinds.
#[derive(Clone, Copy)]
pub enum Region {
    Block,
    Case,
    Alt,
    Pick,
    Handler,
}

/// How a statement begins, and what stands behind that.
#[derive(Clone, Copy)]
pub enum Start<'a> {
    Empty(&'a [Token]),
    Block(&'a [Token]),
    If(&'a [Token]),
    Branch(Branch, &'a [Token]),
    /// A name, a colon and a branch.
    Labelled(Branch, &'a [Token]),
    Jump(Jump, &'a [Token]),
    Declare,
    /// An expression, if it is a statement at all.
    Other,
}

fn branch_of(key: Key) -> Option<Branch>
    ensures { result ≡ starts.branch_of key }
{
    match key {
        Key::While => Some(Branch::Loop(Loop::While)),
        Key::Do => Some(Branch::Loop(Loop::Do)),
        Key::For => Some(Branch::Loop(Loop::For)),
        Key::Case => Some(Branch::Choice(Choice::Case)),
        Key::Alt => Some(Branch::Choice(Choice::Alt)),
        Key::Pick => Some(Branch::Choice(Choice::Pick)),
        _ => None,
    }
}

fn jump_of(key: Key) -> Option<Jump>
    ensures { result ≡ starts.jump_of key }
{
    match key {
        Key::Break => Some(Jump::Break),
        Key::Continue => Some(Jump::Continue),
        Key::Return => Some(Jump::Return),
        Key::Exit => Some(Jump::Exit),
        Key::Spawn => Some(Jump::Spawn),
        Key::Raise => Some(Jump::Raise),
        _ => None,
    }
}

fn at_branch(tokens: &[Token]) -> Option<(Branch, &[Token])>
    ensures { MatchOption result (starts.at_branch (kinds tokens.now) ≡ None)
        (λ x. starts.at_branch (kinds tokens.now) ≡ Some (x.0, kinds x.1.now)) }
{
    match tokens {
        [
            Token {
                kind: Kind::Key(key),
                ..
            },
            rest @ ..,
        ] => match branch_of(*key) {
            Some(branch) => Some((branch, rest)),
            None => None,
        },
        _ => None,
    }
}

fn at_label(tokens: &[Token]) -> Option<(Branch, &[Token])>
    ensures { MatchOption result (starts.at_label (kinds tokens.now) ≡ None)
        (λ x. starts.at_label (kinds tokens.now) ≡ Some (x.0, kinds x.1.now)) }
{
    match after_mark(Mark::Colon, tokens) {
        Some(rest) => at_branch(rest),
        None => None,
    }
}

fn declares(tokens: &[Token]) -> bool
    ensures { result ≡ starts.declares (kinds tokens.now) }
{
    match tokens {
        [
            Token {
                kind: Kind::Mark(mark),
                ..
            },
            ..
        ] => { *mark == Mark::Comma || *mark == Mark::Colon || *mark == Mark::Define }
        _ => false,
    }
}

fn at_key(key: Key, rest: &[Token]) -> Start
    ensures { starts.view_start result ≡ starts.at_key key (kinds rest.now) }
{
    if key == Key::If {
        return Start::If(rest);
    }
    match branch_of(key) {
        Some(branch) => Start::Branch(branch, rest),
        None => match jump_of(key) {
            Some(jump) => Start::Jump(jump, rest),
            None => Start::Other,
        },
    }
}

/// How the statement at the front begins.
pub fn beginning(tokens: &[Token]) -> Start
    ensures { starts.view_start result ≡ starts.start (kinds tokens.now) }
{
    match tokens {
        [
            Token {
                kind: Kind::Name(_),
                ..
            },
            rest @ ..,
        ] => match at_label(rest) {
            Some((branch, behind)) => Start::Labelled(branch, behind),
            None if declares(rest) => Start::Declare,
            None => Start::Other,
        },
        [
            Token {
                kind: Kind::Mark(Mark::Semicolon),
                ..
            },
            rest @ ..,
        ] => Start::Empty(rest),
        [
            Token {
                kind: Kind::Mark(Mark::OpenBrace),
                ..
            },
            rest @ ..,
        ] => Start::Block(rest),
        [
            Token {
                kind: Kind::Key(key),
                ..
            },
            rest @ ..,
        ] => at_key(*key, rest),
        _ => Start::Other,
    }
}

/// Whether what stands at the front may be the head of an arm.
pub fn may_head(tokens: &[Token]) -> bool
    ensures { result ≡ starts.may_head (starts.start (kinds tokens.now)) }
{
    match beginning(tokens) {
        Start::Labelled(_, _) | Start::Declare | Start::Other => true,
        _ => false,
    }
}
