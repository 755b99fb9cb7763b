//! The tree of an included text, from its bytes.

ghost use Rattle.std.specs.Prelude.{◌≡◌, IfOk, IfErr};
ghost use Rattle.limbo_tree.specs.View.{view_source};
ghost use Rattle.source_files.specs.Texts.{HasTree, IsTextFault, span_at, unlexed, unparsed};

use inf_text::Span;
use limbo_lexer::{LexFault, Token, lex};
use limbo_parser::{ParseFault, parse};
use limbo_tree::Source;
use std::alloc::Global;

/// Why bytes are no included text.
#[derive(Clone, Copy)]
pub(crate) enum TextFault {
    /// Want of memory.
    NoMemory,
    /// They have no tokens.
    Lex(LexFault),
    /// Their tokens have no tree; the place is that of the fault's token.
    Parse(ParseFault, Span),
}

// Where the token with this number stands, or the first place where there is none.
fn place(tokens: &[Token], number: usize) -> Span
    ensures { result ≡ span_at tokens.now number }
{
    match tokens.get(number) {
        Some(token) => token.span,
        None => Span {
            line: 1,
            col: 1,
            len: 0,
        },
    }
}

// The refusal of bytes and tokens.
fn unlexed(fault: LexFault) -> TextFault
    ensures { result ≡ unlexed fault }
{
    match fault {
        LexFault::NoMemory => TextFault::NoMemory,
        fault => TextFault::Lex(fault),
    }
}

// The refusal of the grammar.
fn unparsed(tokens: &[Token], fault: ParseFault) -> TextFault
    ensures { result ≡ unparsed tokens.now fault }
{
    match fault {
        ParseFault::NoMemory => TextFault::NoMemory,
        ParseFault::Syntax { token } | ParseFault::TooDeep { token } => {
            TextFault::Parse(fault, place(tokens, token))
        }
    }
}

/// The tree of an included text.
///
/// # Errors
/// The refusal of its bytes, tokens or grammar; want of memory.
pub(crate) fn read_text(alloc: Global, bytes: &[u8]) -> Result<Source, TextFault>
    ensures found { IfOk result (λ tree. HasTree bytes.now (view_source tree)) }
    ensures refused { IfErr result (IsTextFault bytes.now) }
{
    let tokens = match lex(alloc, bytes) {
        Ok(tokens) => tokens,
        Err(fault) => return Err(unlexed(fault)),
    };
    let tokens = tokens.as_slice();
    match parse(alloc, tokens, true) {
        Ok(tree) => Ok(tree),
        Err(fault) => Err(unparsed(tokens, fault)),
    }
}
