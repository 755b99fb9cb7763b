//! Texts of the language and lists of values: what every other crate stands on.
//!
//! A `Text` is a list of Unicode characters, and a contract sees it as the list of their codes. A `Seq<T>` is a
//! list of values. `specs/Steps.antt` has what definitions in steps and contracts on them share, `specs/Options.antt`
//! the same of what may not be there. `Text::from_utf8` and `Text::to_utf8` lead from bytes to texts and back, by the
//! standard's spelling of characters (RFC 3629); `from_utf8_lossy` reads ill-formed bytes too, and `decimal` and
//! `read_decimal` write and read a number.
#![tactic(auto)]

mod laws;
mod lossy;
mod number;
mod seq;
mod span;
mod text;

pub use laws::{one_spelling, read_back};
pub use seq::Seq;
pub use span::Span;
pub use text::{Text, TextFault, decimal, is_spelled};
