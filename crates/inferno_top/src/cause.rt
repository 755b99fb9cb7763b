ghost use Rattle.std.specs.Prelude.{◌≡◌, [], None};
ghost use Rattle.inferno_top.specs.Closing.{status_of, told_stats};
ghost use Rattle.inferno_top.specs.Outcome.{lacks_memory};
ghost use Rattle.inferno_top.specs.Faults.{number_of, place_of};

use dis_file::Object;
use dis_format::FileFault;
use dis_machine::{Broken, Journal};
use inf_text::{Span, Text};
use inferno_stats::Stats;
use limbo_lexer::LexFault;
use limbo_parser::ParseFault;
use link_sign::Clash;
use std::alloc::Global;

/// Why a source was refused.
#[derive(Clone, Copy)]
pub enum SourceFault {
    /// Refusals 1 and 20 to 24: the bytes are no text, or it has no tokens.
    Lex { fault: LexFault },
    /// Refusals 30 and 31: the tokens have no tree. The span is that of the token where this was met.
    Parse { fault: ParseFault, span: Span },
    /// Refusals 40 to 44, 50 to 55 and 60 to 64: a condition of includes, names, types or statements isn't met, at the span. The number is
    /// the refusal's.
    Unchecked { number: u32, span: Span },
    /// Refusal 25: the module is outside of the part of the language that runs so far.
    Unbuilt,
    /// Refusal 45: the module doesn't declare `init` as a first module has to.
    NoInit,
    /// Refusal 70: a function's frame, or the variables of the module, pass 65,536 bytes.
    FrameTooLarge,
    /// Refusal 71: the code passes 1,048,576 instructions.
    CodeTooLarge,
}

/// What a source is compiled for.
#[derive(Clone, Copy)]
pub enum Aim {
    /// To be run, as a first module.
    Run,
    /// To be written, whatever it declares.
    Write,
}

/// A line and a column of a source, counted from 1.
#[derive(Clone, Copy)]
pub struct Place {
    pub line: u32,
    pub col: u32,
}

impl Place {
    /// Where a refusal stands that has no place of its own.
    const START: Place = Place { line: 1, col: 1 };

    /// Where a span begins.
    fn at(span: Span) -> Place
        ensures { (result.line ≡ span.line) × (result.col ≡ span.col) }
    {
        Place {
            line: span.line,
            col: span.col,
        }
    }
}

impl SourceFault {
    /// The refusal's number.
    pub fn number(self) -> u32
        ensures { result ≡ number_of self }
    {
        match self {
            SourceFault::Lex { fault } => fault.number(),
            SourceFault::Parse { fault, .. } => fault.number(),
            SourceFault::Unchecked { number, .. } => number,
            SourceFault::Unbuilt => 25,
            SourceFault::NoInit => 45,
            SourceFault::FrameTooLarge => 70,
            SourceFault::CodeTooLarge => 71,
        }
    }

    /// Where the refusal stands: at line 1, column 1 where it has no place of its own.
    pub fn place(self) -> Place
        ensures line { result.line ≡ (place_of self).line }
        ensures col { result.col ≡ (place_of self).col }
    {
        match self {
            SourceFault::Lex {
                fault: LexFault::BadChar(span)
                | LexFault::BadEscape(span)
                | LexFault::NumberTooWide(span)
                | LexFault::Unclosed(span),
            }
            | SourceFault::Parse { span, .. }
            | SourceFault::Unchecked { span, .. } => Place::at(span),
            SourceFault::Lex { .. }
            | SourceFault::Unbuilt
            | SourceFault::NoInit
            | SourceFault::FrameTooLarge
            | SourceFault::CodeTooLarge => Place::START,
        }
    }
}

/// Why a command ended.
#[derive(Drop)]
pub enum Cause {
    /// The work is done, and all output was taken.
    Done,
    /// Processes broke, these in this order, and none is live.
    Broke { broken: Vec<Broken> },
    /// The words aren't those of a command.
    Usage,
    /// A source was refused.
    BadSource { file: Text, fault: SourceFault },
    /// Two functions of different types that a source declares have one signature.
    Clashing { clash: Clash },
    /// The bytes of an object file were refused.
    BadObject { file: Text, fault: FileFault },
    /// There were as many quanta as the limit, and a process is live.
    Limit { quanta: u64 },
    /// A file could not be read or written: it is missing, or the read or the write failed.
    Host { path: Text, missing: bool },
    /// A write of output failed. The counts are those of `out` and `err`.
    SinkFault { out: u64, err: u64 },
    /// Want of memory.
    NoMemory,
}

impl Cause {
    /// The exit status.
    pub fn status(&self) -> u8
        ensures { result ≡ status_of self.now }
    {
        match self {
            Cause::Done => 0,
            Cause::Broke { .. } => 1,
            Cause::Usage => 2,
            Cause::BadSource { .. } | Cause::Clashing { .. } => 3,
            Cause::BadObject { .. } => 4,
            Cause::Limit { .. } => 6,
            Cause::Host { .. } => 7,
            Cause::SinkFault { .. } => 8,
            Cause::NoMemory => 10,
        }
    }

    /// Whether it is want of memory.
    pub fn lacks_memory(&self) -> bool
        ensures { result ≡ lacks_memory self.now }
    {
        matches!(self, Cause::NoMemory)
    }
}

/// What a run leaves beside its cause.
#[derive(Drop)]
pub struct Left {
    /// What happened to the machine, where one was started.
    pub journal: Option<Journal>,
    /// The base names and objects with which the machine was started, in order.
    pub objects: Vec<(Text, Object)>,
}

impl Left {
    /// No machine was started.
    pub fn nothing(alloc: Global) -> Left
        ensures { (result.journal ≡ None) × (result.objects.items ≡ []) }
    {
        Left {
            journal: None,
            objects: Vec::new(alloc),
        }
    }

    /// What the run took, where a machine was started and that is wanted.
    pub fn stats(&self, wanted: bool) -> Option<Stats>
        ensures { result ≡ told_stats wanted self.now.journal }
    {
        match &self.journal {
            Some(journal) if wanted => Some(Stats::of(journal)),
            _ => None,
        }
    }
}

/// How a command ended.
#[derive(Drop)]
pub struct Ended {
    pub status: u8,
    pub cause: Cause,
    /// What happened to the machine, exactly where one was started.
    pub journal: Option<Journal>,
    /// The base names and objects with which the machine was started, in order.
    pub objects: Vec<(Text, Object)>,
}
