//! Whether a module can be a program's first one.

ghost use Rattle.std.specs.Prelude.{◌≡◌, ◌↔◌, ◌<◌, ℕ, None, Some, length, map, true, false, codes, IsTrue, IfOk, IfSome, IfNone};
ghost use Rattle.std.specs.List.{Contains};
ghost use Rattle.limbo_types.specs.View.{view_ty, view_fn};
ghost use Rattle.limbo_types.specs.Types.{RefAdt, ListOf, Chars, Nothing};
ghost use Rattle.limbo_declarations.specs.View.{view_declared as view_row};
ghost use Rattle.limbo_typed.specs.Typed.{Declared as AnyDeclared};
ghost use Rattle.limbo_typed.specs.View.{view_declared, view_module};
ghost use Rattle.limbo_entries.specs.View.{entries_of, view_entry};
ghost use Rattle.limbo_exports.specs.System as system;
ghost use Rattle.limbo_exports.specs.System.{IsFirst, HasNone};
ghost use Rattle.limbo_modules.specs.First as first;
ghost use Rattle.limbo_modules.specs.First.{IsDrawContext, DeclaresInit, first_init};

use inf_text::is_spelled;
use limbo_declarations::Declared as Row;
use limbo_entries::{Entry, Table};
use limbo_meanings::find_meanings;
use limbo_scope::Meaning;
use limbo_typed::{Declared, TypedModule};
use limbo_types::{FnTy, Ty, equal};
use std::alloc::{AllocError, Global};

// Whether a declaration is the module of the built-in text of pictures.
fn is_draw(entry: Entry) -> bool
    ensures { result ≡ first.is_draw (view_entry entry.entry) }
{
    match entry.row.declared {
        Row::Module(_members) => is_spelled(entry.row.path.as_slice(), "draw.m"),
        _ => false,
    }
}

// Whether a declaration is the adt `Context` of the module of a number.
fn is_context(draw: u32, entry: Entry) -> bool
    ensures { result ≡ first.is_draw_context (Some draw) (view_entry entry.entry) }
{
    match entry.row.declared {
        Row::Adt { .. } => {
            entry.within == Some(draw) && is_spelled(entry.row.name.text.as_slice(), "Context")
        }
        _ => false,
    }
}

// The number of the declaration of the built-in module of pictures.
fn find_draw(table: &Table) -> Option<u32>
    ensures found { IfSome result (λ k. IsFirst first.is_draw (entries_of table.now.entries.items) k) }
    ensures none { IfNone result (HasNone first.is_draw (entries_of table.now.entries.items)) }
{
    for number in 0..table.entries.len() as u32 {
        if is_draw(table.entries[number as usize]) {
            return Some(number);
        }
    }
    None
}

// The number of the declaration of its adt `Context`.
fn find_context(table: &Table, draw: u32) -> Option<u32>
    ensures found { IfSome result (λ k. IsFirst (first.is_draw_context (Some draw)) (entries_of table.now.entries.items) k) }
    ensures none { IfNone result (HasNone (first.is_draw_context (Some draw)) (entries_of table.now.entries.items)) }
{
    for number in 0..table.entries.len() as u32 {
        if is_context(draw, table.entries[number as usize]) {
            return Some(number);
        }
    }
    None
}

// The number of `Draw->Context` among the adts.
fn context_number(alloc: Global, table: &Table, implemented: u32) -> Result<Option<u32>, AllocError>
    ensures some { IfOk result (λ o. IfSome o (IsDrawContext (entries_of table.now.entries.items) implemented)) }
    ensures none { IfOk result (λ o. IfNone o ((n : ℕ) → IsDrawContext (entries_of table.now.entries.items) implemented n → ⊥)) }
{
    let Some(draw) = find_draw(table) else {
        return Ok(None);
    };
    let Some(number) = find_context(table, draw) else {
        return Ok(None);
    };
    let meanings = find_meanings(alloc, table, implemented)?;
    match meanings.get(number as usize) {
        Some(Some(Meaning::Adt(adt))) => Ok(Some(*adt)),
        _ => Ok(None),
    }
}

// Whether a type is that of lists of strings.
#[tactic(auto, using(limbo_types::proofs::View::the_types))]
fn is_words(t: &Ty) -> bool
    ensures { IsTrue result ↔ (view_ty t.now ≡ ListOf Chars) }
{
    match t {
        Ty::List(item) => equal(item, &Ty::Chars),
        _ => false,
    }
}

// Whether these are the types of a `ref` of an adt, of a list of strings, and of no answer.
#[tactic(auto, using(limbo_types::proofs::View::the_types))]
fn are_first(context: &Ty, words: &Ty, answer: &Ty, adt: u32) -> bool
    ensures { IsTrue result ↔ ((view_ty context.now ≡ RefAdt adt) × (view_ty words.now ≡ ListOf Chars) × (view_ty answer.now ≡ Nothing)) }
{
    equal(context, &Ty::RefAdt(adt)) && is_words(words) && equal(answer, &Ty::Nothing)
}

// Whether a function takes a `ref` of an adt and a list of strings, and answers nothing.
fn is_first_init(of: &FnTy, adt: u32) -> bool
    ensures { IsTrue result ↔ (view_fn of.now ≡ first_init adt) }
{
    match of.args.as_slice() {
        [context, words] => are_first(context, words, &of.answer, adt),
        _ => false,
    }
}

// Whether one of the functions that a module declares is such an `init`.
fn has_init(declared: &[Declared], adt: u32) -> bool
    ensures yes { result ≡ true → (d : AnyDeclared) × Contains (map view_declared declared.now) d × (d.name ≡ codes "init")
        × (d.of ≡ first_init adt) }
    ensures no { result ≡ false → (d : AnyDeclared) → Contains (map view_declared declared.now) d → d.name ≡ codes "init"
        → d.of ≡ first_init adt → ⊥ }
{
    for function in declared {
        if is_spelled(function.name.as_slice(), "init") && is_first_init(&function.of, adt) {
            return true;
        }
    }
    false
}

/// Whether a module declares `init: fn(ctxt: ref Draw->Context, args: list of string)`, as a program's first module has to, where these are
/// all declarations and the implemented module has this number.
///
/// # Errors
/// Want of memory.
pub fn declares_init(
    alloc: Global,
    table: &Table,
    implemented: u32,
    checked: &TypedModule,
) -> Result<bool, AllocError>
    ensures yes { IfOk result (λ b. b ≡ true
        → DeclaresInit (entries_of table.now.entries.items) implemented (view_module checked.now)) }
    ensures no { IfOk result (λ b. b ≡ false
        → DeclaresInit (entries_of table.now.entries.items) implemented (view_module checked.now) → ⊥) }
{
    match context_number(alloc, table, implemented)? {
        Some(adt) => Ok(has_init(&checked.declared, adt)),
        None => Ok(false),
    }
}
