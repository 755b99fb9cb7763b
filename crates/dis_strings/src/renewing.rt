//! Strings that change in place, where a word has the only reference to them.

ghost use Rattle.std.specs.Prelude.{◌≡◌, ◌+◌, ◌<◌, ◌≤◌, ◌^◌, ◌++◌, ℕ, List, length, slice_set, Some, true, false};
ghost use Rattle.std.specs.Prelude.{IfErr, IfOk, IfSome, OnErr};
ghost use Rattle.ref_heap.specs.Answers.{most};
ghost use Rattle.ref_heap.specs.Store.{AreHeld, IsSole};
ghost use Rattle.dis_meaning.specs.Words as words;
ghost use Rattle.dis_memory.specs.Blocks as blocks;
ghost use Rattle.dis_memory.specs.Naming.{names};
ghost use Rattle.dis_memory.specs.Results.{gives_block_at};
ghost use Rattle.dis_memory.specs.Strings.{with_character};
ghost use Rattle.dis_places.specs.declared.fault.Halt.TheVariants as halt;
ghost use Rattle.dis_places.specs.View.{view_place, view_process, view_spot, view_world};
ghost use Rattle.dis_results.specs.Going.{Goes};
ghost use Rattle.dis_strings.specs.Renewing.{edited, in_frame, is_frame, Comes, Fits, HasText, IsAnew, IsEdited, IsOwn, MayRenew};

use crate::giving::finish_text;
use dis_places::{Halt, Memory, Place, Process, Ref, Spot, Word};
use dis_results::advance;
use dis_stores::put;
use ref_heap::Heap;

/// A change of a string: characters behind its last one, or one at an index, which may be that behind its last one.
#[derive(Drop)]
pub(crate) enum Edit {
    Append(Vec<u32>),
    Insert(usize, u32),
}

/// How a string comes about: the one to which a word has the only reference changes, or a new one is made.
#[derive(Drop)]
pub(crate) enum Change {
    Renew(Ref, Edit),
    Make(Vec<u32>),
}

fn is_frame(place: Place) -> bool
    ensures { result ≡ is_frame (view_place place) }
{
    match place {
        Place::Block(_) => false,
        Place::Frame(_) => true,
    }
}

// Whether a byte is one of a frame.
fn in_frame(spot: Spot) -> bool
    ensures { result ≡ in_frame (view_spot spot) }
{
    match spot {
        Spot::Own(_) => true,
        Spot::Data(_) => false,
        Spot::Far(place, _) => is_frame(place),
    }
}

// Whether there is one reference to a block, and one more serial is left.
fn may_renew(heap: &Heap, block: Ref) -> bool
    ensures { result ≡ true → MayRenew heap.now block.serial }
{
    match heap.count_of(block) {
        Ok(count) => count == 1 && heap.made() != u64::MAX,
        Err(_) => false,
    }
}

fn append(heap: &mut Heap, block: Ref, more: &[u32]) -> Result<(), Halt>
    requires { (s : List ℕ) × HasText heap.old block.serial s }
    ensures edited { (s : List ℕ) → HasText heap.old block.serial s
        → IfOk result (λ _. IsEdited heap.old heap.new block.serial s (s ++ more.now)) }
    ensures fault { IfErr result (λ h. h ≡ halt.NoMemory) }
    ensures kept { OnErr result (heap.new ≡ heap.old) }
{
    match heap.append(block, more) {
        Ok(()) => Ok(()),
        Err(_) => Err(Halt::NoMemory),
    }
}

fn put_character(heap: &mut Heap, block: Ref, at: usize, code: u32)
    requires { (s : List ℕ) × HasText heap.old block.serial s × (at < length s) }
    ensures { (s : List ℕ) → HasText heap.old block.serial s
        → IsEdited heap.old heap.new block.serial s (slice_set s at code) }
{
    match heap.set_word(block, at, Word::Plain(code)) {
        Ok(()) => {}
        Err(_) => unreachable!(),
    }
}

fn insert(heap: &mut Heap, block: Ref, at: usize, code: u32) -> Result<(), Halt>
    requires { (s : List ℕ) × HasText heap.old block.serial s × (at ≤ length s) }
    ensures edited { (s : List ℕ) → HasText heap.old block.serial s
        → IfOk result (λ _. IsEdited heap.old heap.new block.serial s (with_character s at code)) }
    ensures fault { IfErr result (λ h. h ≡ halt.NoMemory) }
    ensures kept { OnErr result (heap.new ≡ heap.old) }
{
    match heap.len_of(block) {
        Ok(count) => {
            if at == count {
                return append(heap, block, &[code]);
            }
            put_character(heap, block, at, code);
            Ok(())
        }
        Err(_) => unreachable!(),
    }
}

fn apply(heap: &mut Heap, block: Ref, change: Edit) -> Result<(), Halt>
    requires { (s : List ℕ) × HasText heap.old block.serial s × Fits s change }
    ensures edited { (s : List ℕ) → HasText heap.old block.serial s
        → IfOk result (λ _. IsEdited heap.old heap.new block.serial s (edited s change)) }
    ensures fault { IfErr result (λ h. h ≡ halt.NoMemory) }
    ensures kept { OnErr result (heap.new ≡ heap.old) }
{
    match change {
        Edit::Append(more) => append(heap, block, &more),
        Edit::Insert(at, code) => insert(heap, block, at, code),
    }
}

// A string to which the caller has the only reference changes, and becomes the next block.
fn edit_anew(heap: &mut Heap, block: Ref, change: Edit) -> Result<Ref, Halt>
    requires sole { IsSole heap.old block.serial }
    requires room { heap.old.made ≡ most → ⊥ }
    requires fits { (s : List ℕ) × HasText heap.old block.serial s × Fits s change }
    ensures anew { (s : List ℕ) → HasText heap.old block.serial s
        → IfOk result (λ r. IsAnew heap.old heap.new block.serial r.serial s (edited s change)) }
    ensures fault { IfErr result (λ h. h ≡ halt.NoMemory) }
    ensures kept { OnErr result (heap.new ≡ heap.old) }
{
    match apply(heap, block, change) {
        Ok(()) => {}
        Err(halt) => return Err(halt),
    }
    match heap.renew(block) {
        Ok(renewed) => Ok(renewed),
        Err(_) => unreachable!(),
    }
}

// Changes the string to which a word of a frame has the only reference; that word refers to the next block from then on.
fn edit_own(
    memory: &mut Memory,
    process: &mut Process,
    spot: Spot,
    block: Ref,
    change: Edit,
) -> Result<(), Halt>
    requires place { process.old.frame.pc + 1 < 2 ^ 64 }
    requires held { AreHeld memory.old.heap (names (view_process process.old)) }
    requires frame { in_frame (view_spot spot) ≡ true }
    requires own { (t : List ℕ) × IsOwn memory.old process.old spot block change t }
    ensures goes { (t : List ℕ) → IsOwn memory.old process.old spot block change t → Goes memory.old process.old result
        (gives_block_at (view_world memory.old) (view_process process.old) (view_spot spot) (words.Found (blocks.Text t)))
        memory.new process.new }
    ensures kept { OnErr result ((memory.new ≡ memory.old) × (process.new ≡ process.old)) }
{
    memory.heap.stands();
    let renewed = match edit_anew(&mut memory.heap, block, change) {
        Ok(renewed) => renewed,
        Err(halt) => return Err(halt),
    };
    match put(memory, process, spot, Word::Refer(Some(renewed))) {
        Ok(_) => {
            memory.heap.stands();
            advance(process);
            Ok(())
        }
        Err(_) => unreachable!(),
    }
}

// Changes the string to which a word of a block has the only reference. That word is nil until the string is the next block, to which it
// refers from then on.
fn edit_held(
    memory: &mut Memory,
    process: &mut Process,
    spot: Spot,
    block: Ref,
    change: Edit,
) -> Result<(), Halt>
    requires place { process.old.frame.pc + 1 < 2 ^ 64 }
    requires block { in_frame (view_spot spot) ≡ false }
    requires own { (t : List ℕ) × IsOwn memory.old process.old spot block change t }
    ensures goes { (t : List ℕ) → IsOwn memory.old process.old spot block change t → Goes memory.old process.old result
        (gives_block_at (view_world memory.old) (view_process process.old) (view_spot spot) (words.Found (blocks.Text t)))
        memory.new process.new }
    ensures kept { OnErr result ((memory.new ≡ memory.old) × (process.new ≡ process.old)) }
{
    memory.heap.stands();
    match apply(&mut memory.heap, block, change) {
        Ok(()) => {}
        Err(halt) => return Err(halt),
    }
    match put(memory, process, spot, Word::Refer(None)) {
        Ok(_) => {}
        Err(_) => unreachable!(),
    }
    memory.heap.stands();
    let renewed = match memory.heap.renew(block) {
        Ok(renewed) => renewed,
        Err(_) => unreachable!(),
    };
    match put(memory, process, spot, Word::Refer(Some(renewed))) {
        Ok(_) => {}
        Err(_) => unreachable!(),
    }
    memory.heap.stands();
    advance(process);
    Ok(())
}

/// The block to which a word has the only reference, if one more serial is left.
pub(crate) fn own_block(memory: &Memory, reference: Option<Ref>) -> Option<Ref>
    ensures is { IfSome result (λ r. reference ≡ Some r) }
    ensures may { IfSome result (λ r. MayRenew memory.now.heap r.serial) }
{
    match reference {
        Some(block) => {
            if may_renew(&memory.heap, block) {
                Some(block)
            } else {
                None
            }
        }
        None => None,
    }
}

// The string to which a word has the only reference changes.
fn renew_text(
    memory: &mut Memory,
    process: &mut Process,
    spot: Spot,
    block: Ref,
    change: Edit,
) -> Result<(), Halt>
    requires place { process.old.frame.pc + 1 < 2 ^ 64 }
    requires held { AreHeld memory.old.heap (names (view_process process.old)) }
    requires own { (t : List ℕ) × IsOwn memory.old process.old spot block change t }
    ensures goes { (t : List ℕ) → IsOwn memory.old process.old spot block change t → Goes memory.old process.old result
        (gives_block_at (view_world memory.old) (view_process process.old) (view_spot spot) (words.Found (blocks.Text t)))
        memory.new process.new }
    ensures kept { OnErr result ((memory.new ≡ memory.old) × (process.new ≡ process.old)) }
{
    if in_frame(spot) {
        edit_own(memory, process, spot, block, change)
    } else {
        edit_held(memory, process, spot, block, change)
    }
}

/// A string comes about, and a reference to it stands where one stood; the process goes on.
///
/// # Errors
/// The fault that the definition has, or want of memory; then nothing has changed.
pub(crate) fn give_change(
    memory: &mut Memory,
    process: &mut Process,
    spot: Spot,
    change: Change,
) -> Result<(), Halt>
    requires place { process.old.frame.pc + 1 < 2 ^ 64 }
    requires held { AreHeld memory.old.heap (names (view_process process.old)) }
    requires comes { (t : List ℕ) × Comes memory.old process.old spot change t }
    ensures goes { (t : List ℕ) → Comes memory.old process.old spot change t → Goes memory.old process.old result
        (gives_block_at (view_world memory.old) (view_process process.old) (view_spot spot) (words.Found (blocks.Text t)))
        memory.new process.new }
    ensures kept { OnErr result ((memory.new ≡ memory.old) × (process.new ≡ process.old)) }
{
    match change {
        Change::Renew(block, edit) => renew_text(memory, process, spot, block, edit),
        Change::Make(text) => finish_text(memory, process, spot, text),
    }
}
