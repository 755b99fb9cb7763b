//! The indices of an initialiser's elements, and where the elements stand.

ghost use Rattle.std.specs.Prelude.{◌≡◌, ◌+◌, ◌<◌, ◌^◌, ◌∷◌, ◌++◌, [], IfOk, List, OnOk, if◌then◌else◌, pos, suc, unsigned_abs};
ghost use Rattle.limbo_layout.specs.Adts.{Def};
ghost use Rattle.limbo_meaning.specs.Program as program;
ghost use Rattle.limbo_meaning.specs.Trees.{Evaluated};
ghost use Rattle.limbo_meaning.specs.Values.{Num};
ghost use Rattle.core_code.specs.Terms as terms;
ghost use Rattle.core_parts.specs.Lowered.{view_lowered};
ghost use Rattle.core_parts.specs.Nodes as nodes;
ghost use Rattle.limbo_types.specs.View.{view_ty};
ghost use Rattle.core_writing.specs.Initialisers.{none_stored, view_items};

use core_data::{Inst, Known};
use core_parts::{Lowered, put, store};
use limbo_typed::Item;
use limbo_types::Ty;
use std::alloc::{AllocError, Global};

// Adds the index that an element names.
fn add_index(indices: &mut Vec<i64>, item: &Item) -> Result<(), AllocError>
    ensures { OnOk result (indices.new.items ≡ indices.old.items ++ item.now.index ∷ []) }
{
    indices.push(item.index)?;
    Ok(())
}

// How long an array is that has an element where this one is.
fn length_with(item: &Item) -> u64
    ensures { result ≡ suc (unsigned_abs item.now.index) }
{
    item.index.unsigned_abs() + 1
}

/// The indices that elements name.
#[tactic(auto, using(limbo_typed::proofs::View::the_exprs))]
pub(crate) fn indices_of(alloc: Global, items: &[Item]) -> Result<Vec<i64>, AllocError>
    ensures { (defs : List Def) → IfOk result (λ v. v.items ≡ terms.named defs (program.items_of (view_items items.now))) }
{
    let mut indices = Vec::new(alloc);
    for item in items {
        add_index(&mut indices, item)?;
    }
    Ok(indices)
}

// How long an array is whose length isn't written.
fn long_enough(items: &[Item]) -> u64
    ensures { result ≡ program.long_enough (view_items items.now) }
{
    let mut longest = 0u64;
    for item in items {
        let own = length_with(item);
        longest = longest.max(own);
    }
    longest
}

/// The length of an array that isn't written, which has a slot.
pub(crate) fn known_length(alloc: Global, lo: u32, items: &[Item]) -> Result<Lowered, AllocError>
    requires { lo + 1 < 2 ^ 32 }
    ensures { (defs : List Def) → IfOk result (λ l. view_lowered l
        ≡ terms.lower defs lo (Evaluated (Num (pos (program.long_enough (view_items items.now)))))) }
{
    let mut code = Vec::new(alloc);
    put(
        &mut code,
        Inst::Known {
            value: Known::Length(long_enough(items)),
            into: lo,
        },
    )?;
    Ok(Lowered {
        code,
        drops: Vec::new(alloc),
        value: lo,
        free: lo + 1,
    })
}

/// No element is stored yet.
pub(crate) fn nothing_stored(alloc: Global, array: u32, lo: u32) -> Lowered
    ensures { view_lowered result ≡ none_stored array lo }
{
    Lowered {
        code: Vec::new(alloc),
        drops: Vec::new(alloc),
        value: array,
        free: lo,
    }
}

/// From which slot on an element stands: what it may hold has slots of its own.
pub(crate) fn slots_from(held: bool, own: u32, shared: u32) -> u32
    ensures { result ≡ (if held then own else shared) }
{
    if held { own } else { shared }
}

/// Stores one element more, which may hold something or not.
pub(crate) fn store_element(
    alloc: Global,
    sum: &mut Lowered,
    ty: &Ty,
    item: &Item,
    element: Lowered,
    held: bool,
) -> Result<(), AllocError>
    ensures { OnOk result (view_lowered sum.new
        ≡ nodes.stored (view_ty ty.now) item.now.index held (view_lowered sum.old) (view_lowered element)) }
{
    store(alloc, sum, ty, item.index, element, held)?;
    Ok(())
}
