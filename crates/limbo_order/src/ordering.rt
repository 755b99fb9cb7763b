//! An order of numbers, each behind those that it needs: a way is gone from a number to one that it needs, and so on, and a number
//! is put to the order once all that it needs stand there.

ghost use Rattle.std.specs.Prelude.{◌≡◌, ℕ, ◌<◌, ◌≤◌, ◌^◌, [], List, true, false, length, OnOk, IfOk, IfErr};
ghost use Rattle.limbo_order.specs.Order.{StandsAt, NeedsWithin, NeedsOnly, IsOrder};
ghost use Rattle.limbo_order.specs.View.{rows};
ghost use Rattle.limbo_order.specs.Searching.{left};
ghost use Rattle.limbo_order.specs.Seen.{Searches};
ghost use Rattle.limbo_order.specs.declared.fault.OrderFault.TheVariants.{Cycle};

use crate::fault::OrderFault;
use std::alloc::{AllocError, Global};

// What was found so far.
#[derive(Drop)]
struct Search {
    // To whom a way has come.
    entered: Vec<bool>,
    // Who stands in the order.
    done: Vec<bool>,
    // How far each row was gone through: all before that place are done.
    cursors: Vec<usize>,
    order: Vec<u32>,
}

// The place in the row, from one on, of the first number that isn't done; the row's length where all are.
fn first_undone(row: &[u32], done: &[bool], from: usize) -> usize
    requires there { (k m : ℕ) → StandsAt row.now k m → m < length done.now }
    ensures passed { (k m : ℕ) → from ≤ k → k < result → StandsAt row.now k m → StandsAt done.now m true }
    ensures stops { (m : ℕ) → StandsAt row.now result m → StandsAt done.now m true → ⊥ }
    ensures within { result ≤ length row.now }
{
    for place in from..row.len() {
        if !done[row[place] as usize] {
            return place;
        }
    }
    row.len()
}

// Goes on to a number that the last one on the path needs and that isn't done yet, or puts the last one to the order.
fn step(needs: &[Vec<u32>], search: &mut Search, path: &mut Vec<u32>) -> Result<(), OrderFault>
    requires there { NeedsOnly (rows needs.now) }
    requires some { 0 < length path.old.items }
    requires searches { Searches (rows needs.now) search.old path.old.items }
    ensures searches { OnOk result (Searches (rows needs.now) search.new path.new.items) }
    ensures entered { OnOk result ((n : ℕ) → StandsAt search.old.entered.items n true → StandsAt search.new.entered.items n true) }
    ensures keeps { OnOk result ((n : ℕ) → StandsAt search.old.done.items n true → StandsAt search.new.done.items n true) }
    ensures less { OnOk result (left search.new.entered.items path.new.items < left search.old.entered.items path.old.items) }
    ensures cycle { IfErr result (λ e. (n : ℕ) → e ≡ Cycle n → NeedsWithin (rows needs.now) n n) }
{
    let top = path[path.len() - 1];
    let row = &needs[top as usize];
    let place = first_undone(row, &search.done, search.cursors[top as usize]);
    search.cursors[top as usize] = place;
    if place < row.len() {
        let next = row[place];
        if search.entered[next as usize] {
            return Err(OrderFault::Cycle { number: next });
        }
        search.entered[next as usize] = true;
        path.push(next)?;
    } else {
        search.order.push(top)?;
        search.done[top as usize] = true;
        let _ = path.pop();
    }
    Ok(())
}

// Puts a number to the order, behind all that it needs and that isn't there yet.
fn put(
    alloc: Global,
    needs: &[Vec<u32>],
    number: u32,
    search: &mut Search,
) -> Result<(), OrderFault>
    requires there { NeedsOnly (rows needs.now) }
    requires undone { StandsAt search.old.done.items number false }
    requires searches { Searches (rows needs.now) search.old [] }
    ensures searches { OnOk result (Searches (rows needs.now) search.new []) }
    ensures keeps { OnOk result ((n : ℕ) → StandsAt search.old.done.items n true → StandsAt search.new.done.items n true) }
    ensures done { OnOk result (StandsAt search.new.done.items number true) }
    ensures cycle { IfErr result (λ e. (n : ℕ) → e ≡ Cycle n → NeedsWithin (rows needs.now) n n) }
{
    search.entered[number as usize] = true;
    let mut path = vec![in alloc; number]?;
    'going: while !path.is_empty() {
        step(needs, search, &mut path)?;
    }
    Ok(())
}

// A search among so many numbers that has found nothing yet.
fn empty_search(alloc: Global, count: usize) -> Result<Search, AllocError>
    ensures { IfOk result (λ search. (rows : List (List ℕ)) → length rows ≡ count → Searches rows search []) }
{
    Ok(Search {
        entered: vec![in alloc; false; count]?,
        done: vec![in alloc; false; count]?,
        cursors: vec![in alloc; 0; count]?,
        order: Vec::with_capacity(alloc, count)?,
    })
}

/// The numbers of a list, each behind those that it needs. `needs[n]` are the numbers that n needs.
///
/// # Errors
/// Want of memory. `Cycle` exactly where a number needs itself, at once or through others: one that does.
pub fn order(alloc: Global, needs: &[Vec<u32>]) -> Result<Vec<u32>, OrderFault>
    requires few { length needs.now < 2 ^ 32 }
    requires there { NeedsOnly (rows needs.now) }
    ensures order { IfOk result (λ order. IsOrder (rows needs.now) order.items) }
    ensures no_cycle { OnOk result ((n : ℕ) → NeedsWithin (rows needs.now) n n → ⊥) }
    ensures cycle { IfErr result (λ e. (n : ℕ) → e ≡ Cycle n → NeedsWithin (rows needs.now) n n) }
{
    let mut search = empty_search(alloc, needs.len())?;
    for number in 0..needs.len() as u32 {
        if !search.done[number as usize] {
            put(alloc, needs, number, &mut search)?;
        }
    }
    let Search { order, .. } = search;
    Ok(order)
}
