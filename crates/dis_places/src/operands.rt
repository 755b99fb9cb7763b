//! What operands name (Dis Virtual Machine Specification, "Operand formats").

ghost use Rattle.std.specs.Prelude.{◌≡◌, IfOk};
ghost use Rattle.std.specs.Option.{option_map};
ghost use Rattle.limbo_values.specs.Numbers.{kind_of, value_of};
ghost use Rattle.ref_heap.specs.declared.word.Ref.{Ref as CodeRef};
ghost use Rattle.dis_meaning.specs.Words as words;
ghost use Rattle.dis_meaning.specs.Numbers as numbers;
ghost use Rattle.dis_meaning.specs.Places as places;
ghost use Rattle.dis_memory.specs.Places as meaning;
ghost use Rattle.dis_places.specs.View.{view_process, view_spot, view_world};
ghost use Rattle.dis_places.specs.Words.{view_word, Gives, GivesFault};

use crate::fault::{Fault, Halt, Raise};
use crate::memory::Memory;
use crate::numbers::number_at;
use crate::process::Process;
use crate::spots::{Spot, nth, reach, word_number};
use dis_isa::{Middle, Operand};
use limbo_values::{Kind, Number, byte};
use ref_heap::{Place, Ref, Word};

/// The word that stands at a byte.
#[inline(always)]
pub fn read(memory: &Memory, process: &Process, spot: Spot) -> Result<Word, Fault>
    ensures { GivesFault view_word result
        (meaning.read (view_world memory.now) (view_process process.now) (view_spot spot)) }
{
    let region = reach(memory, process, spot)?;
    let k = word_number(spot.byte())?;
    nth(memory, process, region, k)
}

/// The byte so far behind the one whose address stands in a word, or behind the first of a block that it refers to.
fn behind(word: Word, outer: i32) -> Result<Spot, Halt>
    ensures { Gives view_spot result (meaning.behind (view_word word) outer) }
{
    match word {
        Word::Address { place, at } => Ok(Spot::Far(place, i64::from(at) + i64::from(outer))),
        Word::Refer(Some(block)) => Ok(Spot::Far(Place::Block(block), i64::from(outer))),
        Word::Refer(None) => Err(Halt::Raises(Raise::Nil)),
        Word::Plain(_) => Err(Halt::Fault(Fault::TypeCheck)),
    }
}

/// The byte that a source or destination names. An immediate names none.
pub fn spot_of(memory: &Memory, process: &Process, operand: Operand) -> Result<Spot, Halt>
    ensures { Gives view_spot result
        (meaning.spot (view_world memory.now) (view_process process.now) operand) }
{
    match operand {
        Operand::Fp(at) => Ok(Spot::Own(i64::from(at))),
        Operand::Mp(at) => Ok(Spot::Data(i64::from(at))),
        Operand::IndFp { inner, outer } => {
            let word = read(memory, process, Spot::Own(i64::from(inner)))?;
            behind(word, outer)
        }
        Operand::IndMp { inner, outer } => {
            let word = read(memory, process, Spot::Data(i64::from(inner)))?;
            behind(word, outer)
        }
        Operand::Imm(_) => Err(Halt::Fault(Fault::TypeCheck)),
        Operand::None => Err(Halt::Fault(Fault::TypeCheck)),
    }
}

/// The byte that a middle names.
#[inline(always)]
pub fn middle_spot(middle: Middle) -> Result<Spot, Fault>
    ensures { GivesFault view_spot result (meaning.middle_spot middle) }
{
    match middle {
        Middle::Fp(at) => Ok(Spot::Own(i64::from(at))),
        Middle::Mp(at) => Ok(Spot::Data(i64::from(at))),
        Middle::Imm(_) => Err(Fault::TypeCheck),
        Middle::None => Err(Fault::TypeCheck),
    }
}

/// A word that is plain.
#[inline(always)]
pub fn plain(word: Word) -> Result<Word, Fault>
    ensures { GivesFault view_word result (words.plain (view_word word)) }
{
    match word {
        Word::Refer(_) => Err(Fault::TypeCheck),
        Word::Plain(_) => Ok(word),
        Word::Address { .. } => Ok(word),
    }
}

/// The block of a word that is a reference.
#[inline(always)]
pub fn reference(word: Word) -> Result<Option<Ref>, Fault>
    ensures { GivesFault (option_map (λ (r : CodeRef). r.serial)) result (words.reference (view_word word)) }
{
    match word {
        Word::Refer(block) => Ok(block),
        Word::Plain(_) => Err(Fault::TypeCheck),
        Word::Address { .. } => Err(Fault::TypeCheck),
    }
}

/// The address of a byte. No memory has bytes whose number has more than 32 bits.
pub fn address(process: &Process, spot: Spot) -> Result<Word, Halt>
    ensures { Gives view_word result (words.Found (places.address (view_process process.now) (view_spot spot))) }
{
    let Ok(at) = u32::try_from(spot.byte()) else {
        return Err(Halt::NoMemory);
    };
    match spot {
        Spot::Own(_) => Ok(Word::Address {
            place: Place::Frame(process.frame.serial),
            at,
        }),
        Spot::Data(_) => Ok(Word::Address {
            place: Place::Block(process.frame.instance),
            at,
        }),
        Spot::Far(place, _) => Ok(Word::Address { place, at }),
    }
}

// The word of a place that isn't an immediate.
#[inline(never)]
fn word_of(memory: &Memory, process: &Process, source: Operand) -> Result<Word, Halt>
    ensures { Gives view_word result (words.◌>>=◌
        (meaning.spot (view_world memory.now) (view_process process.now) source)
        (meaning.read (view_world memory.now) (view_process process.now))) }
{
    let spot = spot_of(memory, process, source)?;
    Ok(read(memory, process, spot)?)
}

/// The word of a source; an immediate is the number itself.
#[inline(always)]
pub fn source_word(memory: &Memory, process: &Process, source: Operand) -> Result<Word, Halt>
    ensures { Gives view_word result
        (meaning.source_word (view_world memory.now) (view_process process.now) source) }
{
    match source {
        Operand::Imm(n) => Ok(Word::Plain(n.cast_unsigned())),
        Operand::Fp(at) => Ok(read(memory, process, Spot::Own(i64::from(at)))?),
        Operand::None => word_of(memory, process, source),
        Operand::Mp(_) => word_of(memory, process, source),
        Operand::IndFp { .. } => word_of(memory, process, source),
        Operand::IndMp { .. } => word_of(memory, process, source),
    }
}

// The plain word that an operand names.
#[inline(never)]
fn plain_of(memory: &Memory, process: &Process, source: Operand) -> Result<Word, Halt>
    ensures { Gives view_word result (words.◌>>=◌
        (meaning.spot (view_world memory.now) (view_process process.now) source)
        (λ s. words.◌>>=◌ (meaning.read (view_world memory.now) (view_process process.now) s) words.plain)) }
{
    let spot = spot_of(memory, process, source)?;
    let word = read(memory, process, spot)?;
    Ok(plain(word)?)
}

/// The word of a source that is plain; an immediate is the number itself.
#[inline(always)]
pub fn source_plain(memory: &Memory, process: &Process, source: Operand) -> Result<Word, Halt>
    ensures { Gives view_word result
        (meaning.source_plain (view_world memory.now) (view_process process.now) source) }
{
    match source {
        Operand::Imm(n) => Ok(Word::Plain(n.cast_unsigned())),
        Operand::None => plain_of(memory, process, source),
        Operand::Fp(_) => plain_of(memory, process, source),
        Operand::Mp(_) => plain_of(memory, process, source),
        Operand::IndFp { .. } => plain_of(memory, process, source),
        Operand::IndMp { .. } => plain_of(memory, process, source),
    }
}

// The word at a byte by itself, for places that most operands don't name.
#[inline(never)]
fn far_word(memory: &Memory, process: &Process, spot: Spot) -> Result<Word, Fault>
    ensures { GivesFault view_word result
        (meaning.read (view_world memory.now) (view_process process.now) (view_spot spot)) }
{
    read(memory, process, spot)
}

/// The word of a middle.
#[inline(always)]
pub fn middle_word(memory: &Memory, process: &Process, middle: Middle) -> Result<Word, Fault>
    ensures { GivesFault view_word result
        (meaning.middle_word (view_world memory.now) (view_process process.now) middle) }
{
    match middle {
        Middle::Imm(n) => Ok(Word::Plain(n.cast_unsigned())),
        Middle::Fp(at) => read(memory, process, Spot::Own(i64::from(at))),
        Middle::Mp(at) => far_word(memory, process, Spot::Data(i64::from(at))),
        Middle::None => Err(Fault::TypeCheck),
    }
}

/// The number of a kind that stands at a byte.
#[inline(always)]
pub fn read_number(
    memory: &Memory,
    process: &Process,
    kind: Kind,
    spot: Spot,
) -> Result<Number, Fault>
    ensures number { GivesFault value_of result
        (meaning.read_number kind (view_world memory.now) (view_process process.now) (view_spot spot)) }
    ensures kind { IfOk result (λ n. kind_of n ≡ kind) }
{
    let region = reach(memory, process, spot)?;
    number_at(memory, process, kind, region, spot.byte())
}

// The same by itself, for places that most operands don't name.
#[inline(never)]
fn far_number(memory: &Memory, process: &Process, kind: Kind, spot: Spot) -> Result<Number, Fault>
    ensures number { GivesFault value_of result
        (meaning.read_number kind (view_world memory.now) (view_process process.now) (view_spot spot)) }
    ensures kind { IfOk result (λ n. kind_of n ≡ kind) }
{
    read_number(memory, process, kind, spot)
}

// An immediate, which is an int: as a byte it is what is left of it.
#[inline(always)]
fn immediate_as(kind: Kind, n: i32) -> Number
    ensures number { value_of result ≡ numbers.immediate_as kind n }
    ensures kind { kind_of result ≡ kind }
{
    match kind {
        Kind::Byte => Number::Byte(byte::wrap(i64::from(n))),
        Kind::Int => Number::Int(n),
        Kind::Big => Number::Big(i64::from(n)),
    }
}

// The number of a place that isn't an immediate.
#[inline(never)]
fn number_of(
    memory: &Memory,
    process: &Process,
    kind: Kind,
    source: Operand,
) -> Result<Number, Halt>
    ensures number { Gives value_of result (words.◌>>=◌
        (meaning.spot (view_world memory.now) (view_process process.now) source)
        (meaning.read_number kind (view_world memory.now) (view_process process.now))) }
    ensures kind { IfOk result (λ n. kind_of n ≡ kind) }
{
    let spot = spot_of(memory, process, source)?;
    Ok(far_number(memory, process, kind, spot)?)
}

/// The number of a source.
#[inline(always)]
pub fn source_of(
    memory: &Memory,
    process: &Process,
    kind: Kind,
    source: Operand,
) -> Result<Number, Halt>
    ensures number { Gives value_of result
        (meaning.source_of kind (view_world memory.now) (view_process process.now) source) }
    ensures kind { IfOk result (λ n. kind_of n ≡ kind) }
{
    match source {
        Operand::Imm(n) => Ok(immediate_as(kind, n)),
        Operand::Fp(at) => Ok(read_number(memory, process, kind, Spot::Own(i64::from(at)))?),
        Operand::None => number_of(memory, process, kind, source),
        Operand::Mp(_) => number_of(memory, process, kind, source),
        Operand::IndFp { .. } => number_of(memory, process, kind, source),
        Operand::IndMp { .. } => number_of(memory, process, kind, source),
    }
}

/// The number of a middle that is there.
#[inline(always)]
pub fn given_of(
    memory: &Memory,
    process: &Process,
    kind: Kind,
    middle: Middle,
) -> Result<Number, Fault>
    ensures number { GivesFault value_of result
        (meaning.given_of kind (view_world memory.now) (view_process process.now) middle) }
    ensures kind { IfOk result (λ n. kind_of n ≡ kind) }
{
    match middle {
        Middle::Imm(n) => Ok(immediate_as(kind, n)),
        Middle::Fp(at) => read_number(memory, process, kind, Spot::Own(i64::from(at))),
        Middle::Mp(at) => far_number(memory, process, kind, Spot::Data(i64::from(at))),
        Middle::None => Err(Fault::TypeCheck),
    }
}

/// The number of an operation's middle; where there is none, the destination's.
#[inline(always)]
pub fn middle_of(
    memory: &Memory,
    process: &Process,
    kind: Kind,
    middle: Middle,
    destination: Operand,
) -> Result<Number, Halt>
    ensures number { Gives value_of result
        (meaning.middle_of kind (view_world memory.now) (view_process process.now) middle destination) }
    ensures kind { IfOk result (λ n. kind_of n ≡ kind) }
{
    match middle {
        Middle::None => source_of(memory, process, kind, destination),
        Middle::Imm(_) => Ok(given_of(memory, process, kind, middle)?),
        Middle::Fp(_) => Ok(given_of(memory, process, kind, middle)?),
        Middle::Mp(_) => Ok(given_of(memory, process, kind, middle)?),
    }
}
