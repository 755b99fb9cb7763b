use inf_text::{Span, Text};

/// A token and its place in the source.
#[derive(Drop, PartialEq, Eq, Debug)]
pub struct Token {
    pub kind: Kind,
    /// Where the token stands. `End` stands behind the last character, with length 0.
    pub span: Span,
}

/// What a token is (Limbo Language Reference, lexical conventions).
#[derive(Drop, PartialEq, Eq, Debug)]
pub enum Kind {
    /// A name: an identifier that is no keyword.
    Name(Text),
    /// A keyword.
    Key(Key),
    /// A number or a character constant: an `int`, or a `big` where it is wide.
    Number { value: i64, wide: bool },
    /// A string constant, by the text that it stands for.
    Chars(Text),
    /// An operator or a sign.
    Mark(Mark),
    /// The end of the source.
    End,
}

/// The keywords, all reserved.
#[derive(Clone, Copy, PartialEq, Eq, Debug)]
pub enum Key {
    Adt,
    Alt,
    Array,
    Big,
    Break,
    Byte,
    Case,
    Chan,
    Con,
    Continue,
    Cyclic,
    Do,
    Dynamic,
    Else,
    Exception,
    Exit,
    Fixed,
    Fn,
    For,
    Hd,
    If,
    Implement,
    Import,
    Include,
    Int,
    Len,
    List,
    Load,
    Module,
    Nil,
    Of,
    Or,
    Pick,
    Raise,
    Raises,
    Real,
    Ref,
    Return,
    /// `self`
    SelfWord,
    Spawn,
    String,
    Tagof,
    Tl,
    To,
    /// `type`
    TypeWord,
    While,
}

/// The operators and signs.
#[derive(Clone, Copy, PartialEq, Eq, Debug)]
pub enum Mark {
    /// `;`
    Semicolon,
    /// `.`
    Dot,
    /// `(`
    OpenParen,
    /// `)`
    CloseParen,
    /// `:`
    Colon,
    /// `,`
    Comma,
    /// `{`
    OpenBrace,
    /// `}`
    CloseBrace,
    /// `[`
    OpenBracket,
    /// `]`
    CloseBracket,
    /// `=`
    Assign,
    /// `:=`
    Define,
    /// `<-=`
    Send,
    /// `+=`
    AddAssign,
    /// `-=`
    SubAssign,
    /// `*=`
    MulAssign,
    /// `/=`
    DivAssign,
    /// `%=`
    RemAssign,
    /// `&=`
    AndAssign,
    /// `|=`
    OrAssign,
    /// `^=`
    XorAssign,
    /// `<<=`
    ShlAssign,
    /// `>>=`
    ShrAssign,
    /// `||`
    OrOr,
    /// `&&`
    AndAnd,
    /// `::`
    Cons,
    /// `|`
    Bar,
    /// `^`
    Caret,
    /// `&`
    Ampersand,
    /// `==`
    Equal,
    /// `!=`
    NotEqual,
    /// `<`
    Less,
    /// `<=`
    LessEqual,
    /// `>`
    Greater,
    /// `>=`
    GreaterEqual,
    /// `<<`
    Shl,
    /// `>>`
    Shr,
    /// `+`
    Plus,
    /// `-`
    Minus,
    /// `*`
    Star,
    /// `/`
    Slash,
    /// `%`
    Percent,
    /// `!`
    Bang,
    /// `~`
    Tilde,
    /// `++`
    Increment,
    /// `--`
    Decrement,
    /// `<-`
    Receive,
    /// `->`
    Arrow,
    /// `=>`
    FatArrow,
}
