//! The public call.

ghost use Rattle.std.specs.Prelude.{◌≡◌, ◌≢◌, ◌≤◌, ◌<◌, ◌⊎◌, ℕ, IfOk, IfErr, MatchResult, Err, length};
ghost use Rattle.limbo_tree.specs.Sources as sources;
ghost use Rattle.limbo_tree.specs.Sources.{IsTree, source_nesting};
ghost use Rattle.limbo_tree.specs.View.{view_source};
ghost use Rattle.limbo_reading.specs.Reading.{kinds};
ghost use Rattle.limbo_parser.specs.Parsing as parsing;
ghost use Rattle.limbo_parser.specs.Refusals.{number_of};

use crate::source::tree_at;
use limbo_lexer::Token;
use limbo_reading::{Fault, ReadError};
use limbo_tree::Source;
use std::alloc::Global;

/// Why tokens have no tree. `token` is the number of the token, from 0, where that was met.
#[derive(Clone, Copy, PartialEq, Eq, Debug)]
pub enum ParseFault {
    /// Want of memory.
    NoMemory,
    /// Refusal 30: no alternative of the grammar goes on here.
    Syntax { token: usize },
    /// Refusal 31: statements, expressions and types nest more than 256 deep.
    TooDeep { token: usize },
}

impl ParseFault {
    /// The number under which it is told; 0 for want of memory, which is no refusal.
    pub fn number(self) -> u32
        ensures { result ≡ number_of self }
    {
        match self {
            ParseFault::NoMemory => 0,
            ParseFault::Syntax { .. } => 30,
            ParseFault::TooDeep { .. } => 31,
        }
    }
}

fn told(read: Result<Source, ReadError>, len: usize) -> Result<Source, ParseFault>
    ensures { result ≡ parsing.told read len }
{
    match read {
        Ok(source) => Ok(source),
        Err(ReadError::NoMemory) => Err(ParseFault::NoMemory),
        Err(
            ReadError::Fault {
                fault: Fault::Syntax { left },
            },
        ) => Err(ParseFault::Syntax {
            token: len.saturating_sub(left),
        }),
        Err(
            ReadError::Fault {
                fault: Fault::TooDeep { left },
            },
        ) => Err(ParseFault::TooDeep {
            token: len.saturating_sub(left),
        }),
    }
}

/// The tree of the tokens of a source, or of an included text where `included`.
///
/// # Errors
/// `Syntax` where the tokens have no tree; `TooDeep` where they have none that nests up to 256 deep; `NoMemory`.
pub fn parse(alloc: Global, tokens: &[Token], included: bool) -> Result<Source, ParseFault>
    // What is answered is the tree of the tokens.
    ensures found { IfOk result (λ s. IsTree included (kinds tokens.now) (view_source s) × (source_nesting (view_source s) ≤ 256)) }
    // A tree within the limit is answered, unless memory runs out.
    ensures only { (s : sources.Source) → IsTree included (kinds tokens.now) s → source_nesting s ≤ 256
        → MatchResult result (λ x. view_source x ≡ s) (λ e. e ≡ ParseFault.NoMemory) }
    // Where tokens are refused, no tree within the limit has them.
    ensures refused { IfErr result (λ e. e ≢ ParseFault.NoMemory
        → (s : sources.Source) → IsTree included (kinds tokens.now) s → source_nesting s ≤ 256 → ⊥) }
    // A fault of syntax says that no tree has them, however deep.
    ensures syntax { (token : ℕ) → result ≡ Err (ParseFault.Syntax token)
        → (s : sources.Source) → IsTree included (kinds tokens.now) s → ⊥ }
    // More than 256 tokens stand before a fault of depth.
    ensures too_deep { (token : ℕ) → result ≡ Err (ParseFault.TooDeep token) → 256 < token }
    // The token of a fault is one of these, or the place behind the last.
    ensures within { (token : ℕ) → (result ≡ Err (ParseFault.Syntax token)) ⊎ (result ≡ Err (ParseFault.TooDeep token))
        → token ≤ length tokens.now }
{
    let read = tree_at(alloc, 256, included, tokens);
    told(read, tokens.len())
}
