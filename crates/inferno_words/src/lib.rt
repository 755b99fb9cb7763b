//! The words of the command `inferno`: which command they ask for, by `clap`.
//!
//! The first word names the command, and a form of `clap`'s reads the words: `go FILE [-q N] [--stats]`, `limbo FILE -o OUT` or
//! `dump FILE`. `-q` is a number from 1 to 10,000,000, and 1,000,000 where it isn't written. Each option stands at most once, and
//! options and FILE may come in any order. `clap` decides how a word is cut into an option and its value (`-q5`, `-q 5` and `-q=5` are
//! one), which texts are numbers (`+5` and `007` are), and that what follows `--` is no option. All else is a wrong usage: another
//! command, a form that refuses the words, and a call for help or a version.
//!
//! `specs/Forms.antt` has the three forms, and `specs/Commands.antt` the command that words ask for: `command_of` answers that, and
//! nothing else. The command will stand on it.
//!
//! Read `form`, then `command`.
#![tactic(auto)]

mod command;
mod form;

pub use command::{Command, command_of};
