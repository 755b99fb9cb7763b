ghost use Rattle.std.specs.Prelude.{◌≡◌, ◌≢◌, ◌≤◌, ◌<◌, ◌++◌, ◌∷◌, [], ℕ, List, length, map, slice_get, slice_range, slice_set, true, false, Some, None, IfOk, IfErr, IsErr, OnErr};
ghost use Rattle.std.specs.Ordering.{nat_cmp};
ghost use Rattle.std.specs.Cmp.Lexicographic.{slice_cmp};
ghost use Rattle.ref_heap.specs.Words.{compact, naming, refer};
ghost use Rattle.ref_heap.specs.Store.{Block, AreHeld, at, count, fresh, one};
ghost use Rattle.ref_heap.specs.Answers.{most};
ghost use Rattle.dis_values.specs.Making.{Makes, IsMakeFault, serial_of};
ghost use Rattle.dis_values.specs.Texts.{text_of, IsText, IsTextBlock, character as character_of, Becomes, Apart, with_code, count_of_text};

use inf_text::Text;
use ref_heap::{Heap, HeapFault, Kind, Ref, Word, Words};
use std::alloc::{AllocError, Global};
use std::cmp::Ordering;

/// The codes of a text's characters. Nil is the empty text.
pub fn codes(heap: &Heap, text: Option<Ref>) -> &[u32]
    ensures { result.now ≡ text_of heap.now (serial_of text) }
{
    match text {
        Some(r) => match heap.numbers(r) {
            Some(numbers) => numbers,
            None => &[],
        },
        None => &[],
    }
}

/// How many characters a text has.
pub fn text_len(heap: &Heap, text: Option<Ref>) -> usize
    ensures { result ≡ length (text_of heap.now (serial_of text)) }
{
    codes(heap, text).len()
}

/// The code of character `i` of a text, if there is one.
pub fn code_at(heap: &Heap, text: Option<Ref>, i: u32) -> Option<u32>
    ensures { result ≡ slice_get (text_of heap.now (serial_of text)) i }
{
    codes(heap, text).get(i as usize).copied()
}

/// The order of two texts, by the codes of their characters.
pub fn compare_texts(heap: &Heap, a: Option<Ref>, b: Option<Ref>) -> Ordering
    ensures { result ≡ slice_cmp nat_cmp (text_of heap.now (serial_of a)) (text_of heap.now (serial_of b)) }
{
    codes(heap, a).cmp(codes(heap, b))
}

/// The character of this code, and U+FFFD where no character has it.
pub fn character(code: u32) -> char
    ensures { result ≡ character_of code }
{
    match char::from_u32(code) {
        Some(c) => c,
        None => char::REPLACEMENT_CHARACTER,
    }
}

/// The characters of a text.
///
/// # Errors
/// Want of memory.
pub fn to_text(alloc: Global, heap: &Heap, text: Option<Ref>) -> Result<Text, AllocError>
    ensures { IfOk result (λ t. t ≡ map character_of (text_of heap.now (serial_of text))) }
{
    let chars: Vec<char> = codes(heap, text)
        .iter()
        .map(|code| character(*code))
        .collect(alloc)?;
    Ok(Text::from_vec(chars))
}

// A text of these codes.
fn make_text(heap: &mut Heap, numbers: Vec<u32>) -> Result<Ref, HeapFault>
    ensures ok { IfOk result (λ r. Makes heap.old heap.new r.serial (fresh Kind.Text (compact numbers.items))) }
    ensures fault { IfErr result (IsMakeFault heap.old) }
    ensures full { heap.old.made ≡ most → IsErr result }
    ensures err { OnErr result (heap.new ≡ heap.old) }
{
    heap.add(Kind::Text, Words::compact(numbers))
}

fn codes_of(alloc: Global, chars: &[char]) -> Result<Vec<u32>, AllocError>
    ensures { IfOk result (λ codes. codes.items ≡ chars.now) }
{
    chars.iter().map(|c| *c as u32).collect(alloc)
}

/// A new text.
///
/// # Errors
/// 94 `Full` exactly where all serials are used; `NoMemory`. Then the heap is as before.
pub fn new_text(alloc: Global, heap: &mut Heap, text: &Text) -> Result<Ref, HeapFault>
    ensures ok { IfOk result (λ r. Makes heap.old heap.new r.serial (fresh Kind.Text (compact text.now))) }
    ensures fault { IfErr result (IsMakeFault heap.old) }
    ensures full { heap.old.made ≡ most → IsErr result }
    ensures err { OnErr result (heap.new ≡ heap.old) }
{
    let numbers = codes_of(alloc, text.as_slice())?;
    make_text(heap, numbers)
}

/// A new text of the characters of another from `from` on to `to`.
///
/// # Errors
/// As `new_text`.
pub fn sub_text(
    alloc: Global,
    heap: &mut Heap,
    text: Option<Ref>,
    from: u32,
    to: u32,
) -> Result<Ref, HeapFault>
    requires rising { from ≤ to }
    requires within { to ≤ length (text_of heap.old (serial_of text)) }
    ensures ok { IfOk result (λ r. Makes heap.old heap.new r.serial (fresh Kind.Text (compact (slice_range (text_of heap.old (serial_of text)) from to)))) }
    ensures fault { IfErr result (IsMakeFault heap.old) }
    ensures full { heap.old.made ≡ most → IsErr result }
    ensures err { OnErr result (heap.new ≡ heap.old) }
{
    let numbers = Vec::from_slice(alloc, &codes(heap, text)[from as usize..to as usize])?;
    make_text(heap, numbers)
}

/// A new text of the characters of two, one behind the other.
///
/// # Errors
/// As `new_text`.
pub fn join(
    alloc: Global,
    heap: &mut Heap,
    front: Option<Ref>,
    back: Option<Ref>,
) -> Result<Ref, HeapFault>
    ensures ok { IfOk result (λ r. Makes heap.old heap.new r.serial (fresh Kind.Text (compact (text_of heap.old (serial_of front) ++ text_of heap.old (serial_of back))))) }
    ensures fault { IfErr result (IsMakeFault heap.old) }
    ensures full { heap.old.made ≡ most → IsErr result }
    ensures err { OnErr result (heap.new ≡ heap.old) }
{
    let mut numbers = Vec::from_slice(alloc, codes(heap, front))?;
    numbers.extend_from_slice(codes(heap, back))?;
    make_text(heap, numbers)
}

// Whether there is one reference to a block.
fn is_alone(heap: &Heap, r: Ref) -> bool
    ensures yes { result ≡ true → (b : Block) → at heap.now r.serial ≡ Some b → b.count ≡ 1 }
    ensures no { result ≡ false → (b : Block) → at heap.now r.serial ≡ Some b → 1 < b.count }
{
    heap.stands();
    match heap.count_of(r) {
        Ok(count) => count == 1,
        Err(_) => false,
    }
}

// Gives away one of several references to a text for one to another.
fn replace(heap: &mut Heap, r: Ref, numbers: Vec<u32>) -> Result<Ref, HeapFault>
    requires shared { (b : Block) → at heap.old r.serial ≡ Some b → 1 < b.count }
    requires text { IsTextBlock heap.old r.serial }
    requires held { AreHeld heap.old (one r.serial) }
    ensures ok { IfOk result (λ made. Apart heap.old heap.new r.serial made.serial numbers.items) }
    ensures fault { IfErr result (IsMakeFault heap.old) }
    ensures full { heap.old.made ≡ most → IsErr result }
    ensures err { OnErr result (heap.new ≡ heap.old) }
{
    heap.stands();
    let made = make_text(heap, numbers)?;
    heap.stands();
    match heap.drop_ref(r) {
        Ok(_) => Ok(made),
        Err(_) => unreachable!(),
    }
}

/// Gives away a reference to a text for one to the text with more characters behind. Where it was the only reference, the
/// text grows in place; else what others see stays as it is.
///
/// # Errors
/// 94 `Full` only where all serials are used and a new block is needed; `NoMemory`. Then the heap is as before.
pub fn append(
    alloc: Global,
    heap: &mut Heap,
    text: Option<Ref>,
    more: &[u32],
) -> Result<Ref, HeapFault>
    requires text { IsText heap.old (serial_of text) }
    requires held { AreHeld heap.old (naming (refer (serial_of text) ∷ [])) }
    ensures ok { IfOk result (λ r. Becomes heap.old heap.new (serial_of text) r.serial (text_of heap.old (serial_of text) ++ more.now)) }
    ensures fault { IfErr result (IsMakeFault heap.old) }
    ensures full { heap.old.made ≡ most → count_of_text heap.old (serial_of text) ≢ 1 → IsErr result }
    ensures err { OnErr result (heap.new ≡ heap.old) }
{
    match text {
        Some(r) => append_to(alloc, heap, r, more),
        None => {
            let numbers = Vec::from_slice(alloc, more)?;
            make_text(heap, numbers)
        }
    }
}

fn append_to(alloc: Global, heap: &mut Heap, r: Ref, more: &[u32]) -> Result<Ref, HeapFault>
    requires text { IsTextBlock heap.old r.serial }
    requires held { AreHeld heap.old (one r.serial) }
    ensures ok { IfOk result (λ made. Becomes heap.old heap.new (Some r.serial) made.serial (text_of heap.old (Some r.serial) ++ more.now)) }
    ensures fault { IfErr result (IsMakeFault heap.old) }
    ensures full { heap.old.made ≡ most → count (at heap.old) r.serial ≢ 1 → IsErr result }
    ensures err { OnErr result (heap.new ≡ heap.old) }
{
    if is_alone(heap, r) {
        heap.append(r, more)?;
        return Ok(r);
    }
    let mut numbers = Vec::from_slice(alloc, codes(heap, Some(r)))?;
    numbers.extend_from_slice(more)?;
    replace(heap, r, numbers)
}

/// Gives away a reference to a text for one to the text in which character `i` has another code; where `i` is the length,
/// the character is added. A code that no character has becomes U+FFFD.
///
/// # Errors
/// As `append`.
pub fn set_code(
    alloc: Global,
    heap: &mut Heap,
    text: Option<Ref>,
    i: u32,
    code: u32,
) -> Result<Ref, HeapFault>
    requires text { IsText heap.old (serial_of text) }
    requires held { AreHeld heap.old (naming (refer (serial_of text) ∷ [])) }
    requires within { i ≤ length (text_of heap.old (serial_of text)) }
    ensures ok { IfOk result (λ r. Becomes heap.old heap.new (serial_of text) r.serial (with_code (text_of heap.old (serial_of text)) i (character_of code))) }
    ensures fault { IfErr result (IsMakeFault heap.old) }
    ensures full { heap.old.made ≡ most → count_of_text heap.old (serial_of text) ≢ 1 → IsErr result }
    ensures err { OnErr result (heap.new ≡ heap.old) }
{
    let c = character(code) as u32;
    if i as usize == text_len(heap, text) {
        return append(alloc, heap, text, &[c]);
    }
    match text {
        Some(r) => put_code(alloc, heap, r, i, c),
        None => unreachable!(),
    }
}

fn put_code(alloc: Global, heap: &mut Heap, r: Ref, i: u32, c: u32) -> Result<Ref, HeapFault>
    requires text { IsTextBlock heap.old r.serial }
    requires held { AreHeld heap.old (one r.serial) }
    requires within { i < length (text_of heap.old (Some r.serial)) }
    ensures ok { IfOk result (λ made. Becomes heap.old heap.new (Some r.serial) made.serial (slice_set (text_of heap.old (Some r.serial)) i c)) }
    ensures fault { IfErr result (IsMakeFault heap.old) }
    ensures full { heap.old.made ≡ most → count (at heap.old) r.serial ≢ 1 → IsErr result }
    ensures err { OnErr result (heap.new ≡ heap.old) }
{
    if is_alone(heap, r) {
        return match heap.set_word(r, i as usize, Word::Plain(c)) {
            Ok(()) => Ok(r),
            Err(_) => unreachable!(),
        };
    }
    let numbers = with_number(alloc, codes(heap, Some(r)), i, c)?;
    replace(heap, r, numbers)
}

// A copy with another number i.
fn with_number(alloc: Global, numbers: &[u32], i: u32, number: u32) -> Result<Vec<u32>, AllocError>
    requires { i < length numbers.now }
    ensures { IfOk result (λ copy. copy.items ≡ slice_set numbers.now i number) }
{
    let mut copy = Vec::from_slice(alloc, numbers)?;
    copy[i as usize] = number;
    Ok(copy)
}
