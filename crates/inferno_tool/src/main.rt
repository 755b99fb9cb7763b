//! The command `inferno`: it compiles Limbo to Dis objects and runs them, and lists objects.
//!
//! `main` hands the real files and streams to the one public call that does all of it, `inferno` of `inferno_top`.
#![tactic(auto)]

ghost use Rattle.std.specs.Prelude.{◌≡◌, ◌≢◌, ◌⊎◌, ◌↔◌, IfOk, IfErr, IsOkAnd, IsErrAnd, IsErrOf, map, drop, string_bytes, encode_utf8_all};
ghost use Rattle.std.specs.IoError.{error_kind};
ghost use Rattle.std.specs.Vec.Iter.{into_iter_items};

use inf_ports::{StdSink, StdTree};
use inf_text::Text;
use inferno_top::{Cause, close, inferno};
use std::alloc::{AllocError, Global};
use std::env::Args;
use std::io::ErrorKind;
use std::mem::forget;
use std::process::ExitCode;
use std::{env, io};

/// Why the runtime gave no words: want of memory, or a word that isn't UTF-8, so no text.
fn refusal(error: &io::Error) -> Cause
    ensures memory { error_kind error.now ≡ ErrorKind.OutOfMemory → result ≡ Cause.NoMemory }
    ensures usage { error_kind error.now ≢ ErrorKind.OutOfMemory → result ≡ Cause.Usage }
{
    match error.kind() {
        ErrorKind::OutOfMemory => Cause::NoMemory,
        _ => Cause::Usage,
    }
}

/// The words behind the program's own name, as texts.
///
/// # Errors
/// Want of memory.
fn texts_of(alloc: Global, given: Args) -> Result<Vec<Text>, AllocError>
    ensures { IfOk result (λ words. map encode_utf8_all words.items ≡ map string_bytes (drop 1 (into_iter_items given))) }
{
    let mut rest = given;
    let _ = rest.next();
    let mut words = Vec::new(alloc);
    for word in rest {
        let Ok(text) = Text::from_utf8(alloc, word.as_bytes()) else {
            return Err(AllocError);
        };
        words.push(text)?;
    }
    Ok(words)
}

/// The words behind the program's own name, from what the runtime answers for its words.
///
/// # Errors
/// `Usage` exactly where the runtime gives no words, and not for want of memory; `NoMemory`.
fn given_words(alloc: Global, given: io::Result<Args>) -> Result<Vec<Text>, Cause>
    ensures words { IfOk result (λ words. IsOkAnd given (λ given.
        map encode_utf8_all words.items ≡ map string_bytes (drop 1 (into_iter_items given)))) }
    ensures usage { IsErrOf result Cause.Usage ↔ IsErrAnd given (λ error. error_kind error ≢ ErrorKind.OutOfMemory) }
    ensures memory { IfErr result (λ cause. (cause ≡ Cause.Usage) ⊎ (cause ≡ Cause.NoMemory)) }
{
    match given {
        Ok(given) => texts_of(alloc, given).map_err(|_| Cause::NoMemory),
        Err(error) => Err(refusal(&error)),
    }
}

fn main(rt: HostRuntime) -> ExitCode {
    let mut out = StdSink::new(rt.stdout());
    let mut err = StdSink::new(rt.stderr());
    let status = match given_words(rt.alloc(), env::args(&rt)) {
        Ok(words) => {
            let mut files = StdTree::new(&rt);
            let ended = inferno(rt.alloc(), &words, &mut files, &mut out, &mut err);
            let status = ended.status;
            // The program ends here, so its journal and objects aren't let go one by one.
            forget(ended);
            status
        }
        Err(cause) => close(rt.alloc(), cause, None, &mut err).status(),
    };
    ExitCode::from(status)
}
