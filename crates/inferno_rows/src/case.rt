//! A case: its files, and how its ports behave.

use crate::command::{Plan, calls, run, text};
use inf_ports::MemTree;
use inf_text::{Seq, Text};
use std::alloc::{AllocError, Global};

// What stands before the functions of a program: five lines.
const BEFORE: &str = "implement T;
include \"sys.m\";
sys: Sys;
include \"draw.m\";
T: module { init: fn(nil: ref Draw->Context, nil: list of string); };
";

// What stands between them and the statements of `init`.
const BETWEEN: &str = "
init(nil: ref Draw->Context, nil: list of string) { sys = load Sys Sys->PATH; ";

// How many bytes `out` takes where nothing is said.
const ROOM: usize = 1_000_000;

// Ports that don't fail.
const CALM: Plan = Plan {
    out_fails: None,
    err_fails: None,
    room: ROOM,
    is_bytewise: false,
    has_journal: false,
};

/// What the commands of a case begin with.
#[derive(Drop)]
pub struct Case {
    listed: Vec<(Text, Seq<u8>)>,
    files_fail: Option<u64>,
    plan: Plan,
    /// The files as the commands so far have left them.
    files: Option<MemTree>,
}

// The bytes of a text, with its newlines and tabs.
fn bytes_of(alloc: Global, spelling: &str) -> Result<Vec<u8>, AllocError> {
    let mut text = String::new(alloc);
    for c in spelling.chars() {
        let c = match c {
            '¶' => '\n',
            '→' => '\t',
            c => c,
        };
        text.push(c)?;
    }
    Vec::from_slice(alloc, text.as_bytes())
}

// The source with these functions and these statements in its `init`.
fn program(alloc: Global, parts: &str) -> Result<String, AllocError> {
    let (functions, statements) = parts.split_once('~').unwrap_or((parts, ""));
    format!(in alloc; "{BEFORE}{functions}{BETWEEN}{statements} }}")
}

// A number, or 0 where there is none.
fn number(digits: &str) -> u64 {
    digits.parse::<u64>().unwrap_or(0)
}

// The text so many times, as `COUNT TEXT` has it, with the number of the time for a `§`.
fn repeated(alloc: Global, rest: &str) -> Result<String, AllocError> {
    let (count, piece) = rest.split_once(' ').unwrap_or((rest, ""));
    let mut text = String::new(alloc);
    for time in 0..number(count) {
        let (before, behind) = piece.split_once('§').unwrap_or((piece, ""));
        text.push_str(before)?;
        if before.len() < piece.len() {
            text.push_str(format!(in alloc; "{time}{behind}")?.as_str())?;
        }
    }
    Ok(text)
}

// The source whose `init` declares so many variables, as `COUNT DECLARATION` has it.
fn declaring(alloc: Global, rest: &str) -> Result<String, AllocError> {
    let declarations = repeated(alloc, rest)?;
    format!(in alloc; "{BEFORE}{BETWEEN}{declarations} }}")
}

impl Case {
    /// No file, and ports that don't fail.
    pub fn new(alloc: Global) -> Case {
        Case {
            listed: Vec::new(alloc),
            files_fail: None,
            plan: CALM,
            files: None,
        }
    }

    // Behind commands another line begins the next case.
    fn begin(&mut self, alloc: Global) {
        if self.files.is_some() {
            *self = Case::new(alloc);
        }
    }

    fn list(&mut self, alloc: Global, path: &str, bytes: Vec<u8>) -> Result<(), AllocError> {
        let path = text(alloc, path)?;
        self.listed.push((path, Seq::from_vec(bytes)))?;
        Ok(())
    }

    // A file, by the word before its path.
    fn file(&mut self, alloc: Global, kind: &str, rest: &str) -> Result<(), AllocError> {
        let (path, rest) = rest.split_once(' ').unwrap_or((rest, ""));
        let bytes = match kind {
            "bytes" => hex::decode(alloc, rest).unwrap_or(Vec::new(alloc)),
            "many" => Vec::from_slice(alloc, repeated(alloc, rest)?.as_bytes())?,
            _ => bytes_of(alloc, rest)?,
        };
        self.list(alloc, path, bytes)
    }

    fn source(&mut self, alloc: Global, source: String) -> Result<(), AllocError> {
        self.list(alloc, "hello.b", Vec::from_slice(alloc, source.as_bytes())?)
    }

    // A port's call that fails.
    fn fail(&mut self, rest: &str) {
        let (port, call) = rest.split_once(' ').unwrap_or((rest, ""));
        let call = Some(number(call));
        match port {
            "files" => self.files_fail = call,
            "out" => self.plan.out_fails = call,
            _ => self.plan.err_fails = call,
        }
    }

    // A line that says what the case begins with.
    fn set(&mut self, alloc: Global, kind: &str, rest: &str) -> Result<(), AllocError> {
        self.begin(alloc);
        match kind {
            "program" => self.source(alloc, program(alloc, rest)?)?,
            "declares" => self.source(alloc, declaring(alloc, rest)?)?,
            "fails" => self.fail(rest),
            "room" => self.plan.room = usize::try_from(number(rest)).unwrap_or(ROOM),
            "bytewise" => self.plan.is_bytewise = true,
            "journal" => self.plan.has_journal = true,
            kind => self.file(alloc, kind, rest)?,
        }
        Ok(())
    }

    // Runs a command over the files as they are.
    fn command(&mut self, alloc: Global, words: &str) -> Result<String, AllocError> {
        let mut files = match self.files.take() {
            Some(files) => files,
            None => {
                let listed = std::mem::replace(&mut self.listed, Vec::new(alloc));
                MemTree::new(listed, calls(alloc, self.files_fail)?)
            }
        };
        let told = run(alloc, words, &mut files, self.plan)?;
        self.files = Some(files);
        format!(in alloc; "$ {words}\n{told}")
    }

    /// Takes a line of the input, and answers what is to be printed of it.
    ///
    /// # Errors
    /// Want of memory.
    pub fn take(&mut self, alloc: Global, line: &str) -> Result<Option<String>, AllocError> {
        let (kind, rest) = line.split_once(' ').unwrap_or((line, ""));
        if kind == "$" {
            return Ok(Some(self.command(alloc, rest)?));
        }
        if !kind.is_empty() {
            self.set(alloc, kind, rest)?;
        }
        Ok(None)
    }
}
