//! The tables of words and signs.

ghost use Rattle.std.specs.Prelude.{◌≡◌, map, Option};
ghost use Rattle.limbo_lexer.specs.Words.{keywords, listed, marks};

use crate::token::{Key, Mark};
use inf_text::is_spelled;

/// The value in the first row of a table with this spelling.
fn listed<T: Copy>(table: &[(&str, T)], text: &[char]) -> Option<T>
    ensures { result ≡ listed (map (λ row. (row.0.now, row.1)) table.now) text.now }
{
    for (spelling, value) in table {
        if is_spelled(text, spelling) {
            return Some(*value);
        }
    }
    None
}

/// The keyword with this spelling.
pub fn key_of(text: &[char]) -> Option<Key>
    ensures { result ≡ listed keywords text.now }
{
    listed(
        &[
            ("adt", Key::Adt),
            ("alt", Key::Alt),
            ("array", Key::Array),
            ("big", Key::Big),
            ("break", Key::Break),
            ("byte", Key::Byte),
            ("case", Key::Case),
            ("chan", Key::Chan),
            ("con", Key::Con),
            ("continue", Key::Continue),
            ("cyclic", Key::Cyclic),
            ("do", Key::Do),
            ("dynamic", Key::Dynamic),
            ("else", Key::Else),
            ("exception", Key::Exception),
            ("exit", Key::Exit),
            ("fixed", Key::Fixed),
            ("fn", Key::Fn),
            ("for", Key::For),
            ("hd", Key::Hd),
            ("if", Key::If),
            ("implement", Key::Implement),
            ("import", Key::Import),
            ("include", Key::Include),
            ("int", Key::Int),
            ("len", Key::Len),
            ("list", Key::List),
            ("load", Key::Load),
            ("module", Key::Module),
            ("nil", Key::Nil),
            ("of", Key::Of),
            ("or", Key::Or),
            ("pick", Key::Pick),
            ("raise", Key::Raise),
            ("raises", Key::Raises),
            ("real", Key::Real),
            ("ref", Key::Ref),
            ("return", Key::Return),
            ("self", Key::SelfWord),
            ("spawn", Key::Spawn),
            ("string", Key::String),
            ("tagof", Key::Tagof),
            ("tl", Key::Tl),
            ("to", Key::To),
            ("type", Key::TypeWord),
            ("while", Key::While),
        ],
        text,
    )
}

/// The operator or sign with this spelling.
pub fn mark_of(text: &[char]) -> Option<Mark>
    ensures { result ≡ listed marks text.now }
{
    listed(
        &[
            (";", Mark::Semicolon),
            (".", Mark::Dot),
            ("(", Mark::OpenParen),
            (")", Mark::CloseParen),
            (":", Mark::Colon),
            (",", Mark::Comma),
            ("{", Mark::OpenBrace),
            ("}", Mark::CloseBrace),
            ("[", Mark::OpenBracket),
            ("]", Mark::CloseBracket),
            ("=", Mark::Assign),
            (":=", Mark::Define),
            ("<-=", Mark::Send),
            ("+=", Mark::AddAssign),
            ("-=", Mark::SubAssign),
            ("*=", Mark::MulAssign),
            ("/=", Mark::DivAssign),
            ("%=", Mark::RemAssign),
            ("&=", Mark::AndAssign),
            ("|=", Mark::OrAssign),
            ("^=", Mark::XorAssign),
            ("<<=", Mark::ShlAssign),
            (">>=", Mark::ShrAssign),
            ("||", Mark::OrOr),
            ("&&", Mark::AndAnd),
            ("::", Mark::Cons),
            ("|", Mark::Bar),
            ("^", Mark::Caret),
            ("&", Mark::Ampersand),
            ("==", Mark::Equal),
            ("!=", Mark::NotEqual),
            ("<", Mark::Less),
            ("<=", Mark::LessEqual),
            (">", Mark::Greater),
            (">=", Mark::GreaterEqual),
            ("<<", Mark::Shl),
            (">>", Mark::Shr),
            ("+", Mark::Plus),
            ("-", Mark::Minus),
            ("*", Mark::Star),
            ("/", Mark::Slash),
            ("%", Mark::Percent),
            ("!", Mark::Bang),
            ("~", Mark::Tilde),
            ("++", Mark::Increment),
            ("--", Mark::Decrement),
            ("<-", Mark::Receive),
            ("->", Mark::Arrow),
            ("=>", Mark::FatArrow),
        ],
        text,
    )
}
