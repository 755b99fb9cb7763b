//! Instructions by their families.

ghost use Rattle.std.specs.Prelude.{◌≡◌};
ghost use Rattle.std.specs.Option.{option_map};
ghost use Rattle.dis_meaning.specs.Numbers.{number_row};
ghost use Rattle.dis_memory.specs.Strings.{text_row};
ghost use Rattle.dis_steps.specs.Forms.{by_rows, form_of};

use dis_isa::Op;
use dis_makings::Carried;
use dis_numbers::{Row, number_row};
use limbo_values::{Comparison, Kind};

/// Instructions that move data.
#[derive(Clone, Copy)]
pub enum Moving {
    /// `movw`
    Word,
    /// `movp`
    Reference,
    /// `movm`
    Bytes,
    /// `movmp`
    Value,
    /// `lea`
    Address,
}

/// Instructions on records and arrays.
#[derive(Clone, Copy)]
pub enum Arraying {
    /// `new`, `newz`
    Record,
    /// `newa`, `newaz`
    Array,
    /// `indx`
    Index,
    /// `indb`, `indw`, `indl`: elements of so many bytes.
    IndexOf(u32),
    /// `lena`
    Length,
    /// `slicea`
    Part,
    /// `slicela`
    Copy,
}

/// Instructions on strings.
#[derive(Clone, Copy)]
pub enum Texting {
    /// `addc`
    Join,
    /// `lenc`
    Length,
    /// `indc`
    Character,
    /// `insc`
    Insert,
    /// `slicec`
    Part,
    /// `cvtwc`, `cvtlc`
    OfNumber(Kind),
    /// `cvtcw`, `cvtcl`
    ToNumber(Kind),
    /// `cvtca`
    ToBytes,
    /// `cvtac`
    OfBytes,
}

/// Instructions on lists.
#[derive(Clone, Copy)]
pub enum Listing {
    /// `consb`, `consw`, `consl`
    Number(Kind),
    /// `consp`
    Reference,
    /// `consm`
    Bytes,
    /// `consmp`
    Value,
    /// `headb`, `headw`, `headl`
    HeadNumber(Kind),
    /// `headp`
    HeadReference,
    /// `headm`
    HeadBytes,
    /// `headmp`
    HeadValue,
    /// `tail`
    Rest,
    /// `lenl`
    Length,
}

/// Instructions that make channels.
#[derive(Clone, Copy)]
pub enum Channelling {
    /// `newcb`, `newcw`, `newcl`, `newcp`
    Of(Carried),
    /// `newcm`
    Bytes,
    /// `newcmp`
    Value,
}

/// Jumps, frames, calls and modules.
#[derive(Clone, Copy)]
pub enum Control {
    /// `jmp`
    Jump,
    /// `frame`
    Frame,
    /// `call`
    Call,
    /// `ret`
    Return,
    /// `load`
    Load,
    /// `mcall`
    CallModule,
}

/// What an instruction is.
#[derive(Clone, Copy)]
pub enum Form {
    Number(Row),
    Compare(Comparison),
    Moves(Moving),
    Arrays(Arraying),
    Texts(Texting),
    Lists(Listing),
    Channels(Channelling),
    Controls(Control),
    /// It isn't in this part.
    Unknown,
}

// The comparison of strings that an operation is.
#[inline]
fn text_row(op: Op) -> Option<Comparison>
    ensures { result ≡ text_row op }
{
    match op {
        Op::Beqc => Some(Comparison::Equal),
        Op::Bnec => Some(Comparison::Unequal),
        Op::Bltc => Some(Comparison::Less),
        Op::Blec => Some(Comparison::AtMost),
        Op::Bgtc => Some(Comparison::Greater),
        Op::Bgec => Some(Comparison::AtLeast),
        _ => None,
    }
}

// What the tables say of an operation on numbers, or of a comparison of strings.
#[inline(always)]
fn by_tables(op: Op) -> Form
    ensures { result ≡ by_rows (number_row op) (text_row op) }
{
    match number_row(op) {
        Some(row) => Form::Number(row),
        None => match text_row(op) {
            Some(comparison) => Form::Compare(comparison),
            None => Form::Unknown,
        },
    }
}

/// What an operation is.
#[inline(always)]
pub(crate) fn form_of(op: Op) -> Form
    ensures { result ≡ form_of op }
{
    match op {
        Op::Movw => Form::Moves(Moving::Word),
        Op::Movp => Form::Moves(Moving::Reference),
        Op::Movm => Form::Moves(Moving::Bytes),
        Op::Movmp => Form::Moves(Moving::Value),
        Op::Lea => Form::Moves(Moving::Address),
        Op::New => Form::Arrays(Arraying::Record),
        Op::Newz => Form::Arrays(Arraying::Record),
        Op::Newa => Form::Arrays(Arraying::Array),
        Op::Newaz => Form::Arrays(Arraying::Array),
        Op::Indx => Form::Arrays(Arraying::Index),
        Op::Indb => Form::Arrays(Arraying::IndexOf(1)),
        Op::Indw => Form::Arrays(Arraying::IndexOf(4)),
        Op::Indl => Form::Arrays(Arraying::IndexOf(8)),
        Op::Lena => Form::Arrays(Arraying::Length),
        Op::Slicea => Form::Arrays(Arraying::Part),
        Op::Slicela => Form::Arrays(Arraying::Copy),
        Op::Addc => Form::Texts(Texting::Join),
        Op::Lenc => Form::Texts(Texting::Length),
        Op::Indc => Form::Texts(Texting::Character),
        Op::Insc => Form::Texts(Texting::Insert),
        Op::Slicec => Form::Texts(Texting::Part),
        Op::Cvtwc => Form::Texts(Texting::OfNumber(Kind::Int)),
        Op::Cvtlc => Form::Texts(Texting::OfNumber(Kind::Big)),
        Op::Cvtcw => Form::Texts(Texting::ToNumber(Kind::Int)),
        Op::Cvtcl => Form::Texts(Texting::ToNumber(Kind::Big)),
        Op::Cvtca => Form::Texts(Texting::ToBytes),
        Op::Cvtac => Form::Texts(Texting::OfBytes),
        Op::Consb => Form::Lists(Listing::Number(Kind::Byte)),
        Op::Consw => Form::Lists(Listing::Number(Kind::Int)),
        Op::Consl => Form::Lists(Listing::Number(Kind::Big)),
        Op::Consp => Form::Lists(Listing::Reference),
        Op::Consm => Form::Lists(Listing::Bytes),
        Op::Consmp => Form::Lists(Listing::Value),
        Op::Headb => Form::Lists(Listing::HeadNumber(Kind::Byte)),
        Op::Headw => Form::Lists(Listing::HeadNumber(Kind::Int)),
        Op::Headl => Form::Lists(Listing::HeadNumber(Kind::Big)),
        Op::Headp => Form::Lists(Listing::HeadReference),
        Op::Headm => Form::Lists(Listing::HeadBytes),
        Op::Headmp => Form::Lists(Listing::HeadValue),
        Op::Tail => Form::Lists(Listing::Rest),
        Op::Lenl => Form::Lists(Listing::Length),
        Op::Newcb => Form::Channels(Channelling::Of(Carried::Byte)),
        Op::Newcw => Form::Channels(Channelling::Of(Carried::Word)),
        Op::Newcl => Form::Channels(Channelling::Of(Carried::Big)),
        Op::Newcp => Form::Channels(Channelling::Of(Carried::Reference)),
        Op::Newcm => Form::Channels(Channelling::Bytes),
        Op::Newcmp => Form::Channels(Channelling::Value),
        Op::Jmp => Form::Controls(Control::Jump),
        Op::Frame => Form::Controls(Control::Frame),
        Op::Call => Form::Controls(Control::Call),
        Op::Ret => Form::Controls(Control::Return),
        Op::Load => Form::Controls(Control::Load),
        Op::Mcall => Form::Controls(Control::CallModule),
        _ => by_tables(op),
    }
}
