//! Strings and arrays that items make.

ghost use Rattle.std.specs.Prelude.{◌≡◌, ◌≤◌, ◌+◌, ℕ, None, true, IfErr, IfOk, OnOk};
ghost use Rattle.ref_heap.specs.Kinds.{fd_number};
ghost use Rattle.ref_heap.specs.Store.{one, outside};
ghost use Rattle.ref_heap.specs.Words.{cells, naming};
ghost use Rattle.dis_meaning.specs.Words as words;
ghost use Rattle.dis_memory.specs.Arrays as arrays;
ghost use Rattle.dis_memory.specs.Blocks as blocks;
ghost use Rattle.dis_memory.specs.Operands as operands;
ghost use Rattle.dis_counts.specs.Opening as opening;
ghost use Rattle.dis_places.specs.Blocks.{block_by, is_proper, type_by};
ghost use Rattle.dis_places.specs.View.{view_world};
ghost use Rattle.dis_code.specs.Loaded.{IsLoaded};
ghost use Rattle.dis_opening.specs.Loading.{view_loading, Holds};
ghost use Rattle.dis_opening.specs.Starting.{Gives};
ghost use Rattle.dis_opening.specs.declared.fault.StartFault.TheVariants.{NoMemory};

use crate::fault::StartFault;
use crate::loading::Loading;
use crate::numbers::pair;
use crate::puts::put_word;
use dis_blocks::element_words;
use dis_code::{Code, type_at};
use dis_file::TypeDesc;
use dis_places::{Memory, Ref, Tables, Word};
use inf_text::{Text, TextFault};
use ref_heap::{Kind, Words};
use std::alloc::{AllocError, Global};

// The most bytes that the elements of an array take.
const MOST_BYTES: u64 = 268_435_456;

// Makes a block that refers to nothing.
fn make(memory: &mut Memory, kind: Kind, words: Words) -> Result<Ref, StartFault>
    requires no_file { fd_number kind ≡ None }
    requires proper { is_proper kind words ≡ true }
    requires bare { (n : ℕ) → naming (cells words) n ≡ 0 }
    ensures serial { IfOk result (λ block. block.serial ≡ blocks.next_serial (view_world memory.old)) }
    ensures world { OnOk result (view_world memory.new
        ≡ blocks.with_block (view_world memory.old) (block_by memory.old.tables kind words)) }
    ensures held { IfOk result (λ block. (n : ℕ) → outside memory.new.heap n ≡ outside memory.old.heap n + one block.serial n) }
    ensures tables { memory.new.tables ≡ memory.old.tables }
    ensures fault { IfErr result (λ fault. fault ≡ NoMemory) }
{
    match memory.heap.add(kind, words) {
        Ok(block) => Ok(block),
        Err(_) => Err(StartFault::NoMemory),
    }
}

// Puts a reference to a new block over one that stands there, whose reference is held until all items are in.
fn put_new(
    alloc: Global,
    loading: &mut Loading,
    offset: u32,
    kind: Kind,
    words: Words,
) -> Result<(), StartFault>
    requires no_file { fd_number kind ≡ None }
    requires proper { is_proper kind words ≡ true }
    requires bare { (n : ℕ) → naming (cells words) n ≡ 0 }
    ensures gives { Gives (λ _. view_loading loading.new) result
        (opening.with_new (view_loading loading.old) offset (block_by loading.old.memory.tables kind words)) }
    ensures holds { OnOk result (Holds loading.old loading.new) }
{
    let at = loading.here.byte(u64::from(offset))?;
    let block = make(&mut loading.memory, kind, words)?;
    let was = put_word(
        alloc,
        &mut loading.memory,
        loading.here.block,
        at,
        Word::Refer(Some(block)),
    )?;
    loading.over.push(was)?;
    Ok(())
}

// The codes of characters.
fn codes_of(alloc: Global, chars: &[char]) -> Result<Vec<u32>, AllocError>
    ensures { IfOk result (λ codes. codes.items ≡ chars.now) }
{
    chars.iter().map(|c| *c as u32).collect(alloc)
}

// The characters that bytes spell.
fn text_of(alloc: Global, bytes: &[u8]) -> Result<Vec<u32>, StartFault>
    ensures { Gives (λ codes. blocks.Text codes.items) result (opening.text_of bytes.now) }
{
    match Text::from_utf8(alloc, bytes) {
        Ok(text) => Ok(codes_of(alloc, text.as_slice())?),
        Err(TextFault::BadUtf8 { .. }) => Err(StartFault::Malformed),
        Err(TextFault::NoMemory) => Err(StartFault::NoMemory),
    }
}

/// Makes the string that bytes spell.
pub(crate) fn put_text(
    alloc: Global,
    loading: &mut Loading,
    offset: u32,
    content: &[u8],
) -> Result<(), StartFault>
    ensures gives { Gives (λ _. view_loading loading.new) result
        (words.◌>>=◌ (opening.text_of content.now) (opening.with_new (view_loading loading.old) offset)) }
    ensures holds { OnOk result (Holds loading.old loading.new) }
{
    let codes = text_of(alloc, content)?;
    put_new(alloc, loading, offset, Kind::Text, Words::compact(codes))
}

// An array that is asked for: the number of its elements' type in the tables, and how many there are.
#[derive(Clone, Copy)]
struct Asked {
    element: u32,
    long: u32,
}

// How many bytes the elements take.
fn bytes_for(desc: &TypeDesc, long: u32) -> u64
    ensures { result ≡ blocks.bytes_for desc.now long }
{
    u64::from(desc.size) * u64::from(long)
}

// An array of so many elements of a type of the object, unless they take too many bytes.
fn array_by(tables: &Tables, code: &Code, element: u32, long: u32) -> Result<Asked, StartFault>
    requires loaded { IsLoaded tables.now code.now }
    ensures gives { Gives (λ a. blocks.blank_array (type_by tables.now a.element) a.long) result
        (words.◌>>=◌ (operands.type_of code.now.object element) (λ desc. arrays.if_small desc long)) }
    ensures small { IfOk result (λ a. blocks.bytes_for (type_by tables.now a.element) a.long ≤ blocks.most_bytes) }
{
    let desc = type_at(&code.object, element)?;
    if bytes_for(desc, long) > MOST_BYTES {
        return Err(StartFault::Malformed);
    }
    Ok(Asked {
        element: code.types + element,
        long,
    })
}

// The array that two numbers ask for.
fn array_of(tables: &Tables, code: &Code, content: &[u8]) -> Result<Asked, StartFault>
    requires loaded { IsLoaded tables.now code.now }
    ensures gives { Gives (λ a. blocks.blank_array (type_by tables.now a.element) a.long) result
        (opening.array_of code.now.object content.now) }
    ensures small { IfOk result (λ a. blocks.bytes_for (type_by tables.now a.element) a.long ≤ blocks.most_bytes) }
{
    match pair(content) {
        Some((element, long)) => array_by(tables, code, element, long),
        None => Err(StartFault::Malformed),
    }
}

/// Makes an array, by the number of its elements' type and how many there are.
pub(crate) fn put_array(
    alloc: Global,
    loading: &mut Loading,
    code: &Code,
    offset: u32,
    content: &[u8],
) -> Result<(), StartFault>
    requires loaded { IsLoaded loading.old.memory.tables code.now }
    ensures gives { Gives (λ _. view_loading loading.new) result (words.◌>>=◌ (opening.array_of code.now.object content.now)
        (opening.with_new (view_loading loading.old) offset)) }
    ensures holds { OnOk result (Holds loading.old loading.new) }
{
    let asked = array_of(&loading.memory.tables, code, content)?;
    let words = element_words(alloc, &loading.memory.tables, asked.element, asked.long)?;
    let kind = Kind::Array {
        element: asked.element,
        length: asked.long,
    };
    put_new(alloc, loading, offset, kind, words)
}
