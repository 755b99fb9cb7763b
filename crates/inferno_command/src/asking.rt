//! The command that is carried out.

ghost use Rattle.std.specs.Prelude.{◌≡◌, IfOk, IfSome};
ghost use Rattle.inferno_words.specs.Commands.{IsWithinBounds};
ghost use Rattle.inferno_command.specs.Asked.{asked, file_of};

use crate::base::has_short_name;
use inf_text::Text;
use inferno_words::{Command, command_of};
use std::alloc::{AllocError, Global};

/// The file that a command reads.
fn file_of(command: &Command) -> &Text
    ensures { result.now ≡ file_of command.now }
{
    match command {
        Command::Go { file, .. } | Command::Limbo { file, .. } | Command::Dump { file } => file,
    }
}

/// The command that the words ask for. `None` is a wrong usage: the words ask for no command, or its FILE has a base name of more than
/// 250 bytes of UTF-8.
///
/// # Errors
/// Want of memory.
#[tactic(auto, unfolding(crate::specs::Asked::asked))]
pub fn asked(alloc: Global, words: &[Text]) -> Result<Option<Command>, AllocError>
    ensures asked { IfOk result (λ command. command ≡ asked words.now) }
    ensures bounds { IfOk result (λ command. IfSome command IsWithinBounds) }
{
    match command_of(alloc, words)? {
        Some(command) if has_short_name(file_of(&command)) => Ok(Some(command)),
        _ => Ok(None),
    }
}
