//! Reads the tokens of Limbo sources (Limbo Language Reference, lexical conventions). The parser stands on it.
//!
//! The contract of `lex` cites `HasTokenList` of `specs/Tokens.antt`, a relation on whole texts, and for its
//! refusals `IsRefused` of `specs/Causes.antt`; `specs/Refusals.antt` has their numbers. The text is cut from left to
//! right into its longest pieces (`lexer`): words and signs by tables (`words`), numbers (`numbers`), and string and
//! character constants (`constants`).
#![tactic(auto)]

mod constants;
mod fault;
mod laws;
mod lexer;
mod numbers;
mod place;
mod token;
mod words;

pub use fault::LexFault;
pub use inf_text;
pub use laws::one_token_list;
pub use lexer::lex;
pub use token::{Key, Kind, Mark, Token};
