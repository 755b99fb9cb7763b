//! The module's data, one datum behind the other.

ghost use Rattle.std.specs.Prelude.{◌≡◌, ◌+◌, ◌≤◌, [], ◌∷◌, ◌++◌, pos, map, IfOk, OnOk};
ghost use Rattle.slot_code.specs.View.{view_operand};
ghost use Rattle.dis_objects.specs.Code as dis;
ghost use Rattle.dis_objects.specs.Objects as objects;
ghost use Rattle.dis_objects.specs.Words.{data_limit};
ghost use Rattle.dis_objects.specs.Spelled.{IsSpelled};
ghost use Rattle.dis_objects.specs.Growing.{GrowsBy};

use crate::immediates::{fits_middle, fits_source};
use dis_file::Item;
use inf_text::{Seq, Text};
use limbo_typed::Operation;
use limbo_values::Kind;
use slot_code::Operand;
use std::alloc::{AllocError, Global};

/// The module's data so far: their items, which of their words refer, and where the next datum stands.
#[derive(Drop)]
pub struct Data {
    pub items: Vec<Item>,
    pub words: Vec<bool>,
    pub place: u32,
}

// A string of the module's data. One of 4 GiB or more counts as want of memory.
pub(crate) fn make_string(alloc: Global, offset: u32, text: &Text) -> Result<Item, AllocError>
    ensures item { IfOk result (λ item. item ≡ objects.string_item offset text.now) }
    ensures spelled { IfOk result IsSpelled }
{
    let content = text.to_utf8(alloc)?;
    if content.len() > u32::MAX as usize {
        return Err(AllocError);
    }
    Ok(Item {
        kind: 3,
        count: content.len() as u32,
        offset,
        content: Seq::from_vec(content),
    })
}

// A word of the module's data, the high byte first. A number that has more bits, which no int or byte has, counts as want of memory.
fn make_word(alloc: Global, offset: u32, number: i64) -> Result<Item, AllocError>
    ensures item { IfOk result (λ item. item ≡ objects.word_item offset number) }
    ensures spelled { IfOk result IsSpelled }
{
    if number < -2_147_483_648 || number > 2_147_483_647 {
        return Err(AllocError);
    }
    let bytes = (number as i32).to_be_bytes();
    Ok(Item {
        kind: 2,
        count: 1,
        offset,
        content: Seq::from_vec(Vec::from_slice(alloc, &bytes)?),
    })
}

// A big of the module's data.
fn make_long(alloc: Global, offset: u32, number: i64) -> Result<Item, AllocError>
    ensures item { IfOk result (λ item. item ≡ objects.long_item offset number) }
    ensures spelled { IfOk result IsSpelled }
{
    let bytes = number.to_be_bytes();
    Ok(Item {
        kind: 2,
        count: 2,
        offset,
        content: Seq::from_vec(Vec::from_slice(alloc, &bytes)?),
    })
}

// Adds a text.
pub(crate) fn put_text(alloc: Global, store: &mut Data, text: &Text) -> Result<(), AllocError>
    requires place { store.old.place ≤ data_limit }
    ensures { OnOk result (GrowsBy store.old store.new (dis.Datum.Text text.now ∷ [])) }
{
    let item = make_string(alloc, store.place, text)?;
    store.items.push(item)?;
    store.words.push(true)?;
    store.place += 4;
    Ok(())
}

// Adds a number in one word.
fn put_word(alloc: Global, store: &mut Data, number: i64) -> Result<(), AllocError>
    requires place { store.old.place ≤ data_limit }
    ensures { OnOk result (GrowsBy store.old store.new (dis.Datum.Word number ∷ [])) }
{
    let item = make_word(alloc, store.place, number)?;
    store.items.push(item)?;
    store.words.push(false)?;
    store.place += 4;
    Ok(())
}

// Adds a number in two words.
fn put_long(alloc: Global, store: &mut Data, number: i64) -> Result<(), AllocError>
    requires place { store.old.place ≤ data_limit }
    ensures { OnOk result (GrowsBy store.old store.new (dis.Datum.Long number ∷ [])) }
{
    let item = make_long(alloc, store.place, number)?;
    store.items.push(item)?;
    store.words.push(false)?;
    store.words.push(false)?;
    store.place += 8;
    Ok(())
}

/// Adds a number of a kind.
pub(crate) fn put_number(
    alloc: Global,
    store: &mut Data,
    kind: Kind,
    number: i64,
) -> Result<(), AllocError>
    requires place { store.old.place ≤ data_limit }
    ensures { OnOk result (GrowsBy store.old store.new (dis.number_datum kind number ∷ [])) }
{
    match kind {
        Kind::Byte => put_word(alloc, store, number),
        Kind::Int => put_word(alloc, store, number),
        Kind::Big => put_long(alloc, store, number),
    }
}

// Adds a number of a kind, unless it is an immediate.
#[tactic(auto, using(crate::proofs::Growing::grows_none))]
fn put_unless(
    alloc: Global,
    store: &mut Data,
    fits: bool,
    kind: Kind,
    number: i64,
) -> Result<(), AllocError>
    requires place { store.old.place ≤ data_limit }
    ensures { OnOk result (GrowsBy store.old store.new (dis.unless_fits fits (dis.number_datum kind number))) }
{
    if fits {
        return Ok(());
    }
    put_number(alloc, store, kind, number)
}

// Adds the datum of a source of a kind, if it needs one.
#[tactic(auto, using(crate::proofs::Growing::grows_none))]
pub(crate) fn put_source(
    alloc: Global,
    store: &mut Data,
    kind: Kind,
    operand: Operand,
) -> Result<(), AllocError>
    requires place { store.old.place ≤ data_limit }
    ensures { OnOk result (GrowsBy store.old store.new (dis.source_data kind (view_operand operand))) }
{
    match operand {
        Operand::In(_) => Ok(()),
        Operand::Number(number) => put_unless(alloc, store, fits_source(number), kind, number),
    }
}

// Adds that of a middle.
#[tactic(auto, using(crate::proofs::Growing::grows_none))]
pub(crate) fn put_middle(
    alloc: Global,
    store: &mut Data,
    kind: Kind,
    operand: Operand,
) -> Result<(), AllocError>
    requires place { store.old.place ≤ data_limit }
    ensures { OnOk result (GrowsBy store.old store.new (dis.middle_data kind (view_operand operand))) }
{
    match operand {
        Operand::In(_) => Ok(()),
        Operand::Number(number) => put_unless(alloc, store, fits_middle(number), kind, number),
    }
}

// Adds a number of bytes that are moved, unless it is an immediate.
pub(crate) fn put_bytes(alloc: Global, store: &mut Data, bytes: u32) -> Result<(), AllocError>
    requires place { store.old.place ≤ data_limit }
    ensures { OnOk result (GrowsBy store.old store.new (dis.bytes_data bytes)) }
{
    let number = i64::from(bytes);
    put_unless(alloc, store, fits_middle(number), Kind::Int, number)
}

/// Adds those of a source of a kind and a middle of another.
#[tactic(auto, using(crate::proofs::Growing::grows_more))]
pub(crate) fn put_both(
    alloc: Global,
    store: &mut Data,
    first: Kind,
    source: Operand,
    second: Kind,
    middle: Operand,
) -> Result<(), AllocError>
    requires place { store.old.place + 8 ≤ data_limit }
    ensures { OnOk result (GrowsBy store.old store.new
        (dis.source_data first (view_operand source) ++ dis.middle_data second (view_operand middle))) }
{
    put_source(alloc, store, first, source)?;
    put_middle(alloc, store, second, middle)
}

/// Adds the data of an operation on two operands.
pub(crate) fn put_operands(
    alloc: Global,
    store: &mut Data,
    operation: Operation,
    left: Operand,
    right: Operand,
) -> Result<(), AllocError>
    requires place { store.old.place + 8 ≤ data_limit }
    ensures { OnOk result (GrowsBy store.old store.new (dis.operation_data operation (view_operand left) (view_operand right))) }
{
    match operation {
        Operation::Arithmetic { kind, .. } => put_both(alloc, store, kind, right, kind, left),
        Operation::Shift { kind, .. } => put_both(alloc, store, Kind::Int, right, kind, left),
        Operation::Compare { kind, .. } => put_both(alloc, store, kind, left, kind, right),
        _ => Ok(()),
    }
}
