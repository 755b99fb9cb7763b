ghost use Rattle.std.specs.Prelude.{◌≡◌, true, false, map, option_map, string_bytes, IfOk, IfSome};
ghost use Rattle.clap.specs.Words.{app_of, rule_of, rows_of, found_of, is_simple, is_simple_and_free, IsParsedFrom};
ghost use Rattle.inferno_words.specs.Forms.{file_rule, quanta_rule, stats_rule, out_rule, go_form, limbo_form, dump_form, rows_by};

use clap::error::ErrorKind;
use clap::{Arg, ArgAction, ArgMatches};
use std::alloc::{AllocError, Global};

/// `FILE`, which has to be there.
fn file<'a>(alloc: Global) -> Arg<'a>
    ensures rule { rule_of result ≡ file_rule }
    ensures local { result.global ≡ false }
{
    Arg::new(alloc, "file")
        .action(ArgAction::Set)
        .required(true)
}

/// `-q N`, from 1 to 10,000,000.
fn quanta<'a>(alloc: Global) -> Arg<'a>
    ensures rule { rule_of result ≡ quanta_rule }
    ensures local { result.global ≡ false }
{
    Arg::new(alloc, "quanta")
        .short('q')
        .action(ArgAction::Set)
        .value_parser(clap::value_parser!(u32).range(1..=10_000_000))
}

/// `--stats`.
fn stats<'a>(alloc: Global) -> Arg<'a>
    ensures rule { rule_of result ≡ stats_rule }
    ensures local { result.global ≡ false }
{
    Arg::new(alloc, "stats")
        .long("stats")
        .action(ArgAction::SetTrue)
        .value_parser(clap::value_parser!(bool))
}

/// `-o OUT`, which has to be there.
fn out<'a>(alloc: Global) -> Arg<'a>
    ensures rule { rule_of result ≡ out_rule }
    ensures local { result.global ≡ false }
{
    Arg::new(alloc, "out")
        .required(true)
        .short('o')
        .action(ArgAction::Set)
}

/// The form `go FILE [-q N] [--stats]`.
///
/// # Errors
/// Want of memory.
pub fn go_form<'a>(alloc: Global) -> Result<clap::Command<'a>, AllocError>
    ensures { IfOk result (λ form. app_of form ≡ go_form) }
{
    clap::Command::new(alloc, "go")
        .arg(file(alloc))?
        .arg(quanta(alloc))?
        .arg(stats(alloc))
}

/// The form `limbo FILE -o OUT`.
///
/// # Errors
/// Want of memory.
pub fn limbo_form<'a>(alloc: Global) -> Result<clap::Command<'a>, AllocError>
    ensures { IfOk result (λ form. app_of form ≡ limbo_form) }
{
    clap::Command::new(alloc, "limbo")
        .arg(file(alloc))?
        .arg(out(alloc))
}

/// The form `dump FILE`.
///
/// # Errors
/// Want of memory.
pub fn dump_form<'a>(alloc: Global) -> Result<clap::Command<'a>, AllocError>
    ensures { IfOk result (λ form. app_of form ≡ dump_form) }
{
    clap::Command::new(alloc, "dump").arg(file(alloc))
}

/// What a form reads in the words, where it takes them.
///
/// # Errors
/// Want of memory.
pub fn read<'a>(
    form: clap::Command<'a>,
    words: &'a [String],
) -> Result<Option<ArgMatches<'a>>, AllocError>
    requires { is_simple_and_free (app_of form) ≡ true }
    ensures read { IfOk result (λ found. option_map (λ m. rows_of (found_of m)) found
        ≡ rows_by (app_of form.entry) (map string_bytes words.entry.now)) }
    ensures parsed { IfOk result (λ found. IfSome found (IsParsedFrom form.entry)) }
{
    match form.try_get_matches_from(words) {
        Ok(matches) => Ok(Some(matches)),
        Err(error) => {
            if error.kind() == ErrorKind::OutOfMemory {
                return Err(AllocError);
            }
            Ok(None)
        }
    }
}
