use inf_text::{Span, Text};
use limbo_lexer::LexFault;
use limbo_parser::ParseFault;
use std::alloc::{AllocError, AllocFailed};

/// Why the files that a source includes were not read.
#[derive(Drop)]
pub enum FilesFault {
    /// Want of memory.
    NoMemory,
    /// The read of this file failed, and the tree's count of faults rose.
    Failed {
        path: Text,
    },
    /// Refusals 1 and 20 to 24 of the text at this path.
    Lex {
        path: Text,
        fault: LexFault,
    },
    /// Refusals 30 and 31 of the text at this path, at the place of the fault's token.
    Parse {
        path: Text,
        fault: ParseFault,
        span: Span,
    },
}

impl From<AllocError> for FilesFault {
    ghost use Rattle.std.specs.Prelude.{◌≡◌};
    ghost use Rattle.source_files.specs.declared.fault.FilesFault.TheVariants.{NoMemory};

    ghost from_gives = { λ _ e. e ≡ NoMemory };

    fn from(_error: AllocError) -> FilesFault {
        FilesFault::NoMemory
    }
}

impl<T: Drop> From<AllocFailed<T>> for FilesFault {
    ghost use Rattle.std.specs.Prelude.{◌≡◌};
    ghost use Rattle.source_files.specs.declared.fault.FilesFault.TheVariants.{NoMemory};

    ghost from_gives = { λ _ e. e ≡ NoMemory };

    fn from(_error: AllocFailed<T>) -> FilesFault {
        FilesFault::NoMemory
    }
}
