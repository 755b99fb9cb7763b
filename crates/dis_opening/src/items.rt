//! Items of the data, put in one after another.

ghost use Rattle.std.specs.Prelude.{OnOk};
ghost use Rattle.dis_counts.specs.Opening as opening;
ghost use Rattle.dis_code.specs.Loaded.{IsLoaded};
ghost use Rattle.dis_opening.specs.Loading.{view_loading, Holds};
ghost use Rattle.dis_opening.specs.Starting.{Gives};

use crate::entering::{enter, leave};
use crate::fault::StartFault;
use crate::loading::Loading;
use crate::making::{put_array, put_text};
use crate::puts::put_numbers;
use dis_code::Code;
use dis_file::Item;
use limbo_values::Kind;
use std::alloc::Global;

// The kinds of items (dis(6), "Data section").
const BYTES: u8 = 1;

const WORDS: u8 = 2;

const STRING: u8 = 3;

const ARRAY: u8 = 5;

const INTO_ARRAY: u8 = 6;

const BACK: u8 = 7;

const BIGS: u8 = 8;

// Puts numbers in, one behind the other.
fn put_numbers_of(
    alloc: Global,
    loading: &mut Loading,
    kind: Kind,
    item: &Item,
) -> Result<(), StartFault>
    ensures gives { Gives (λ _. view_loading loading.new) result
        (opening.with_numbers_of kind (view_loading loading.old) item.now.offset item.now.content) }
    ensures holds { OnOk result (Holds loading.old loading.new) }
{
    put_numbers(
        alloc,
        &mut loading.memory,
        loading.here,
        kind,
        item.offset,
        item.content.as_slice(),
    )
}

// Puts an item in.
fn put_item(
    alloc: Global,
    loading: &mut Loading,
    code: &Code,
    item: &Item,
) -> Result<(), StartFault>
    requires loaded { IsLoaded loading.old.memory.tables code.now }
    ensures gives { Gives (λ _. view_loading loading.new) result
        (opening.with_item code.now.object (view_loading loading.old) item.now) }
    ensures holds { OnOk result (Holds loading.old loading.new) }
{
    let content = item.content.as_slice();
    match item.kind {
        BYTES => put_numbers_of(alloc, loading, Kind::Byte, item),
        WORDS => put_numbers_of(alloc, loading, Kind::Int, item),
        STRING => put_text(alloc, loading, item.offset, content),
        ARRAY => put_array(alloc, loading, code, item.offset, content),
        INTO_ARRAY => enter(alloc, loading, item.offset, content),
        BACK => leave(loading),
        BIGS => put_numbers_of(alloc, loading, Kind::Big, item),
        _ => Err(StartFault::Malformed),
    }
}

/// Puts the items in, in order.
pub(crate) fn put_items(
    alloc: Global,
    loading: &mut Loading,
    code: &Code,
    items: &[Item],
) -> Result<(), StartFault>
    requires loaded { IsLoaded loading.old.memory.tables code.now }
    ensures gives { Gives (λ _. view_loading loading.new) result
        (opening.with_items code.now.object (view_loading loading.old) items.now) }
    ensures holds { OnOk result (Holds loading.old loading.new) }
{
    for item in items {
        match put_item(alloc, loading, code, item) {
            Ok(()) => {}
            Err(fault) => return Err(fault),
        }
    }
    Ok(())
}
