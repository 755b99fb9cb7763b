//! What a format makes of the arguments in a region's words.

ghost use Rattle.std.specs.Prelude.{◌≡◌, ◌+◌, ◌<◌, ◌≤◌, ◌^◌, ◌++◌, ◌∷◌, [], IfErr, IfOk};
ghost use Rattle.std.specs.Fmt.{signed_decimal};
ghost use Rattle.system_model.specs.Verbs.{hexadecimal as hexadecimal_of};
ghost use Rattle.dis_memory.specs.Control as control;
ghost use Rattle.dis_memory.specs.Formats as meaning;
ghost use Rattle.dis_places.specs.declared.fault.Halt.TheVariants as halt;
ghost use Rattle.dis_places.specs.Regions.{words_here};
ghost use Rattle.dis_places.specs.View.{view_world};
ghost use Rattle.dis_places.specs.Words.{Gives};
ghost use Rattle.dis_formats.specs.Formatting.{int_told, width, AddsVerb};

use crate::arguments::{big_at, int_at, text_in};
use crate::verbs::{PERCENT, Verb, verb_of};
use dis_places::{Halt, Memory, Process, Raise, Region};
use inf_text::{Text, decimal};
use std::alloc::Global;
use sys_print::{character, hexadecimal};

/// The numbers of the words in which a print's frame has the format, and the first argument behind it.
const FORMAT: usize = 8;

const FIRST_ARGUMENT: usize = 9;

// A character of a string, by its code. No string has a code that is no character's.
fn push_code(text: &mut Text, code: u32) -> Result<(), Halt>
    ensures ok { IfOk result (λ _. text.new ≡ text.old ++ code ∷ []) }
    ensures fault { IfErr result (λ h. h ≡ halt.NoMemory) }
{
    match char::from_u32(code) {
        Some(c) => match text.push(c) {
            Ok(()) => Ok(()),
            Err(_) => Err(Halt::NoMemory),
        },
        None => Err(Halt::NoMemory),
    }
}

// The characters of a string.
fn push_codes(text: &mut Text, codes: &[u32]) -> Result<(), Halt>
    ensures ok { IfOk result (λ _. text.new ≡ text.old ++ codes.now) }
    ensures fault { IfErr result (λ h. h ≡ halt.NoMemory) }
{
    for code in codes {
        match push_code(text, *code) {
            Ok(()) => {}
            Err(halt) => return Err(halt),
        }
    }
    Ok(())
}

// A number as its decimal digits.
fn push_decimal(alloc: Global, text: &mut Text, n: i64) -> Result<(), Halt>
    ensures ok { IfOk result (λ _. text.new ≡ text.old ++ signed_decimal n) }
    ensures fault { IfErr result (λ h. h ≡ halt.NoMemory) }
{
    let digits = match decimal(alloc, n) {
        Ok(digits) => digits,
        Err(_) => return Err(Halt::NoMemory),
    };
    match text.push_all(digits.as_slice()) {
        Ok(()) => Ok(()),
        Err(_) => Err(Halt::NoMemory),
    }
}

// An int to the base 16.
fn push_hexadecimal(alloc: Global, text: &mut Text, n: i32) -> Result<(), Halt>
    ensures ok { IfOk result (λ _. text.new ≡ text.old ++ hexadecimal_of n) }
    ensures fault { IfErr result (λ h. h ≡ halt.NoMemory) }
{
    let digits = match hexadecimal(alloc, n) {
        Ok(digits) => digits,
        Err(_) => return Err(Halt::NoMemory),
    };
    match text.push_all(digits.as_slice()) {
        Ok(()) => Ok(()),
        Err(_) => Err(Halt::NoMemory),
    }
}

// What a verb that takes an int stands for, of an int.
fn push_int(alloc: Global, text: &mut Text, verb: Verb, n: i32) -> Result<(), Halt>
    ensures ok { IfOk result (λ _. text.new ≡ text.old ++ int_told verb n) }
    ensures fault { IfErr result (λ h. h ≡ halt.NoMemory) }
{
    match verb {
        Verb::Decimal => push_decimal(alloc, text, i64::from(n)),
        Verb::Hexadecimal => push_hexadecimal(alloc, text, n),
        Verb::Character => push_code(text, u32::from(character(n))),
        _ => Ok(()),
    }
}

// Adds what a verb stands for, and gives the number of the word behind those that it takes, from this one on.
fn add_verb(
    alloc: Global,
    memory: &Memory,
    process: &Process,
    region: Region,
    text: &mut Text,
    verb: Verb,
    next: usize,
) -> Result<usize, Halt>
    requires { next < 2 ^ 63 + 2 ^ 32 }
    ensures adds { AddsVerb result text.old text.new verb (view_world memory.now) (words_here memory.now.heap process.now region) next }
    ensures within { IfOk result (λ k. k ≤ next + 1 + width verb) }
{
    match verb {
        Verb::Percent => {
            push_code(text, PERCENT)?;
            Ok(next)
        }
        Verb::BigDecimal => {
            // A big stands at a multiple of its size, which is two words.
            let first = next.next_multiple_of(2);
            push_decimal(alloc, text, big_at(memory, process, region, first)?)?;
            Ok(first + 2)
        }
        Verb::Characters => {
            push_codes(text, text_in(memory, process, region, next)?)?;
            Ok(next + 1)
        }
        _ => {
            push_int(alloc, text, verb, int_at(memory, process, region, next)?)?;
            Ok(next + 1)
        }
    }
}

// The text that a format makes of the arguments in a region's words.
fn formatted(
    alloc: Global,
    memory: &Memory,
    process: &Process,
    region: Region,
    format: &[u32],
) -> Result<Text, Halt>
    ensures { Gives (λ t. t) result
        (meaning.formatted (view_world memory.now) (words_here memory.now.heap process.now region) format.now 36) }
{
    let mut text = Text::new(alloc);
    let mut rest = format;
    let mut next = FIRST_ARGUMENT;
    while let Some((c, more)) = rest.split_first() {
        if *c != PERCENT {
            push_code(&mut text, *c)?;
            rest = more;
            continue;
        }
        let Some((verb, behind)) = verb_of(more) else {
            return Err(Halt::Raises(Raise::BadFormat));
        };
        next = add_verb(alloc, memory, process, region, &mut text, verb, next)?;
        rest = behind;
    }
    Ok(text)
}

/// The text of a print whose frame has these words: at 32 stands a reference to the format, and the arguments are behind it.
///
/// # Errors
/// `bad format` is raised where the format isn't one, or doesn't fit what stands there; want of memory.
pub fn printed(
    alloc: Global,
    memory: &Memory,
    process: &Process,
    region: Region,
) -> Result<Text, Halt>
    ensures { Gives (λ t. t) result
        (control.printed (view_world memory.now) (words_here memory.now.heap process.now region)) }
{
    match text_in(memory, process, region, FORMAT) {
        Ok(format) => formatted(alloc, memory, process, region, format),
        Err(halt) => Err(halt),
    }
}
