ghost use Rattle.std.specs.Prelude.{◌≡◌, ◌≢◌, ℕ, ◌+◌, ◌≤◌, Bool, true, None};
ghost use Rattle.std.specs.Vec.{vec_len, vec_capacity};
ghost use Rattle.std.specs.List.{count_by};
ghost use Rattle.std.specs.List.Sorted.{IsSorted};
ghost use Rattle.std.specs.Ordering.{nat_cmp};
ghost use Rattle.slab.specs.Slab.{HasRoomFor};
ghost use Rattle.ref_heap.specs.Drops.{tells, number_in};
ghost use Rattle.ref_heap.specs.Slots.{IsUnique, KeepsNumbers, Changed, kept};
ghost use Rattle.ref_heap.specs.Chain.{DropsAll, Ready, FreesAll, Releasable, Releases};

use crate::slots::{Slot, drop_one, find, take};
use crate::word::{Ref, Word};
use slab::Slab;

// Drops each name in these words.
fn drop_names(slots: &mut Slab<Slot>, words: &[Word], first: u64) -> u64
    requires { IsUnique slots.old }
    ensures unique { IsUnique slots.new }
    ensures drops { DropsAll slots.old slots.new words.now first result }
    ensures numbers { KeepsNumbers slots.old slots.new }
{
    let mut head = first;
    for word in words {
        match word.reference() {
            Some(r) => head = drop_one(slots, r, head),
            None => {}
        }
    }
    head
}

// Adds a number to the list, if there is one.
fn list_number(lost: &mut Vec<u32>, number: Option<u32>)
    requires { tells (λ _. true) number + vec_len lost.old ≤ vec_capacity lost.old }
    ensures listed { (p : ℕ → Bool) → count_by p lost.new.items ≡ count_by p lost.old.items + tells p number }
    ensures len { vec_len lost.new ≡ vec_len lost.old + tells (λ _. true) number }
    ensures capacity { vec_capacity lost.new ≡ vec_capacity lost.old }
{
    match number {
        Some(number) => lost.push_reserved(number),
        None => {}
    }
}

// Frees the blocks of the chain, and what they alone kept.
fn free_chain(slots: &mut Slab<Slot>, lost: &mut Vec<u32>, first: u64)
    requires { Ready slots.old first (vec_len lost.old) (vec_capacity lost.old) }
    ensures unique { IsUnique slots.new }
    ensures frees { FreesAll slots.old slots.new first lost.old.items lost.new.items }
    ensures capacity { vec_capacity lost.new ≡ vec_capacity lost.old }
{
    let mut head = first;
    while head != u64::MAX {
        match take(slots, head) {
            Some(block) => {
                list_number(lost, block.kind.fd_number());
                head = drop_names(slots, block.words.references(), block.count);
                drop(block);
            }
            None => head = u64::MAX,
        }
    }
}

// Gives away the references in these words, frees what goes, and lists the numbers of what went.
pub(crate) fn release(slots: &mut Slab<Slot>, lost: &mut Vec<u32>, words: &[Word])
    requires { Releasable slots.old words.now (vec_capacity lost.old) }
    ensures unique { IsUnique slots.new }
    ensures frees { Releases slots.old slots.new words.now lost.new.items }
    ensures sorted { IsSorted nat_cmp lost.new.items }
    ensures capacity { vec_capacity lost.new ≡ vec_capacity lost.old }
{
    lost.clear();
    let head = drop_names(slots, words, u64::MAX);
    free_chain(slots, lost, head);
    lost.sort_unstable();
}

// Takes out a block, and lists its number alone.
pub(crate) fn empty(slots: &mut Slab<Slot>, lost: &mut Vec<u32>, r: Ref)
    requires unique { IsUnique slots.old }
    requires live { kept slots.old r.serial ≢ None }
    requires room { tells (λ _. true) (number_in (kept slots.old r.serial)) ≤ vec_capacity lost.old }
    ensures unique { IsUnique slots.new }
    ensures gone { Changed (kept slots.old) (kept slots.new) r.serial None }
    ensures room { HasRoomFor slots.new 1 }
    ensures listed { (p : ℕ → Bool) → count_by p lost.new.items ≡ tells p (number_in (kept slots.old r.serial)) }
    ensures len { vec_len lost.new ≡ tells (λ _. true) (number_in (kept slots.old r.serial)) }
    ensures sorted { IsSorted nat_cmp lost.new.items }
    ensures capacity { vec_capacity lost.new ≡ vec_capacity lost.old }
{
    lost.clear();
    match find(slots, r) {
        Some(i) => match take(slots, i as u64) {
            Some(block) => list_number(lost, block.kind.fd_number()),
            None => unreachable!(),
        },
        None => unreachable!(),
    }
    lost.sort_unstable();
}
