//! The refusals of names and includes.

ghost use Rattle.std.specs.Prelude.{◌≡◌, ℕ, List};
ghost use Rattle.inf_ports.specs.Outside.{Told};
ghost use Rattle.limbo_tree.specs.Sources as sources;
ghost use Rattle.source_names.specs.Declares.{Fails, FailsBy, number_of};

use inf_text::{Span, Text};

/// A refusal of names and includes.
#[derive(Clone, Copy)]
pub enum Refusal {
    /// An include names a text that isn't there.
    NoInclude,
    /// A name is declared twice in one scope, a function is defined twice, or a text that declares something is included twice.
    Twice,
    /// A name isn't there, or a function isn't defined as it is declared, or the implemented module isn't declared.
    Unknown,
    /// What must be constant isn't.
    NotConstant,
    /// Includes nest more than 16 deep.
    TooDeep,
}

impl Refusal {
    /// The number under which it is told.
    pub fn number(self) -> u32
        ensures { result ≡ number_of self }
    {
        match self {
            Refusal::NoInclude => 40,
            Refusal::Twice => 41,
            Refusal::Unknown => 42,
            Refusal::NotConstant => 43,
            Refusal::TooDeep => 44,
        }
    }
}

/// Why a source declares nothing.
#[derive(Drop)]
pub enum NamesFault {
    /// Want of memory.
    NoMemory,
    /// A refusal, with the path of the text and where in it.
    Refused {
        refusal: Refusal,
        path: Text,
        at: Span,
    },
}

// The refusal of the text at a path.
pub(crate) fn refused(refusal: Refusal, path: &Text, at: Span) -> NamesFault
    ensures { (told : Told) (first : List ℕ) (tree : sources.Source) → Fails told first tree refusal → FailsBy told first tree result }
{
    match path.clone() {
        Ok(path) => NamesFault::Refused { refusal, path, at },
        Err(_) => NamesFault::NoMemory,
    }
}
