ghost use Rattle.std.specs.Prelude.{◌≡◌, ◌≤◌, true, Some, map, is_some, string_bytes, encode_utf8_all, IfOk, IfSome};
ghost use Rattle.clap.specs.Words.{found_of, first_value, rows_of};
ghost use Rattle.inferno_words.specs.Forms.{go_form, limbo_form, dump_form, rows_by};
ghost use Rattle.inferno_words.specs.Commands.{command_in, is_of_form, asked_by, go_in, limbo_in, dump_in, text_under, IsWithinBounds};

use crate::form::{dump_form, go_form, limbo_form, read};
use clap::ArgMatches;
use inf_text::{Text, is_spelled};
use std::alloc::{AllocError, Global};

/// How many quanta a program may run where the words don't say.
const QUANTA: u32 = 1_000_000;

/// What the words of the command line ask for.
#[derive(Drop)]
pub enum Command {
    /// `go FILE [-q N] [--stats]`: compile the file and run it, for at most so many quanta, and tell what it took.
    Go {
        file: Text,
        quanta: u32,
        stats: bool,
    },
    /// `limbo FILE -o OUT`: compile the file, and write the object to another.
    Limbo {
        file: Text,
        out: Text,
    },
    /// `dump FILE`: list the object in the file.
    Dump {
        file: Text,
    },
}

/// The words in UTF-8, as `clap` takes them.
fn spelled(alloc: Global, words: &[Text]) -> Result<Vec<String>, AllocError>
    ensures { IfOk result (λ spelled. map string_bytes spelled.items ≡ map encode_utf8_all words.now) }
{
    let mut spelled = Vec::new(alloc);
    for word in words {
        let word: String = word.as_slice().iter().copied().collect(alloc)?;
        spelled.push(word)?;
    }
    Ok(spelled)
}

/// The text that was read under a name.
fn text_under(alloc: Global, matches: &ArgMatches<'_>, name: &str) -> Result<Text, AllocError>
    requires { is_some (first_value (found_of matches.now) name.now) ≡ true }
    ensures { IfOk result (λ text. text_under name.now (rows_of (found_of matches.now)) ≡ Some text) }
{
    let word = matches.get_str(name).unwrap();
    let chars: Vec<char> = word.chars().collect(alloc)?;
    Ok(Text::from_vec(chars))
}

/// What `go` and its words ask for.
fn go(alloc: Global, words: &[String]) -> Result<Option<Command>, AllocError>
    ensures asked { IfOk result (λ command. command ≡ asked_by go_form go_in (map string_bytes words.now)) }
    ensures taken { IfOk result (λ command. is_some command ≡ is_some (rows_by go_form (map string_bytes words.now))) }
    ensures bounds { IfOk result (λ command. IfSome command IsWithinBounds) }
{
    let Some(matches) = read(go_form(alloc)?, words)? else {
        return Ok(None);
    };
    let file = text_under(alloc, &matches, "file")?;
    let quanta = matches.get_one::<u32>("quanta").unwrap_or(QUANTA);
    let stats = matches.get_flag("stats");
    Ok(Some(Command::Go {
        file,
        quanta,
        stats,
    }))
}

/// What `limbo` and its words ask for.
fn limbo(alloc: Global, words: &[String]) -> Result<Option<Command>, AllocError>
    ensures asked { IfOk result (λ command. command ≡ asked_by limbo_form limbo_in (map string_bytes words.now)) }
    ensures taken { IfOk result (λ command. is_some command ≡ is_some (rows_by limbo_form (map string_bytes words.now))) }
{
    let Some(matches) = read(limbo_form(alloc)?, words)? else {
        return Ok(None);
    };
    let file = text_under(alloc, &matches, "file")?;
    let out = text_under(alloc, &matches, "out")?;
    Ok(Some(Command::Limbo { file, out }))
}

/// What `dump` and its words ask for.
fn dump(alloc: Global, words: &[String]) -> Result<Option<Command>, AllocError>
    ensures asked { IfOk result (λ command. command ≡ asked_by dump_form dump_in (map string_bytes words.now)) }
    ensures taken { IfOk result (λ command. is_some command ≡ is_some (rows_by dump_form (map string_bytes words.now))) }
{
    let Some(matches) = read(dump_form(alloc)?, words)? else {
        return Ok(None);
    };
    let file = text_under(alloc, &matches, "file")?;
    Ok(Some(Command::Dump { file }))
}

/// The command that the words ask for, the name of the command first. `None` is a wrong usage: the first word names no command, or
/// the form of the command refuses the words.
///
/// # Errors
/// Want of memory.
pub fn command_of(alloc: Global, words: &[Text]) -> Result<Option<Command>, AllocError>
    ensures asked { IfOk result (λ command. command ≡ command_in words.now) }
    ensures usage_exactly { IfOk result (λ command. is_some command ≡ is_of_form words.now) }
    ensures bounds { IfOk result (λ command. IfSome command IsWithinBounds) }
{
    let Some(name) = words.first() else {
        return Ok(None);
    };
    let spelled = spelled(alloc, words)?;
    let name = name.as_slice();
    if is_spelled(name, "go") {
        return go(alloc, spelled.as_slice());
    }
    if is_spelled(name, "limbo") {
        return limbo(alloc, spelled.as_slice());
    }
    if is_spelled(name, "dump") {
        return dump(alloc, spelled.as_slice());
    }
    Ok(None)
}
