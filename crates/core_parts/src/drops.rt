//! Drops, and where they are once what they drop moved.

ghost use Rattle.std.specs.Prelude.{◌≡◌, ◌+◌, ◌≤◌, ◌^◌, ◌++◌, IsTrue, OnOk, map};
ghost use Rattle.core_data.specs.View.{view_inst};
ghost use Rattle.core_code.specs.Terms.{is_moved, drop_after, drops_after, drops_after_all, drops_from};
ghost use Rattle.core_parts.specs.Lowered.{code_of};
ghost use Rattle.core_parts.specs.Nodes.{view_moved, AllFit};

use crate::lowered::put;
use core_data::Inst;
use std::alloc::AllocError;

/// So many references of a slot, from one on, stand in another slot from there on.
#[derive(Clone, Copy)]
pub struct Moved {
    pub slot: u32,
    pub first: u32,
    pub count: u32,
    pub into: u32,
    pub at: u32,
}

/// Writes a drop for each of so many references of a slot.
pub fn put_drops(drops: &mut Vec<Inst>, slot: u32, count: u32) -> Result<(), AllocError>
    ensures { OnOk result (code_of drops.new.items ≡ code_of drops.old.items ++ drops_from slot 0 count) }
{
    for reference in 0..count {
        put(drops, Inst::Drop { slot, reference })?;
    }
    Ok(())
}

impl Moved {
    // Whether this reference of a slot moves.
    fn takes(self, slot: u32, reference: u32) -> bool
        ensures { result ≡ is_moved (view_moved self) slot reference }
    {
        self.slot == slot && self.first <= reference && reference - self.first < self.count
    }
}

// Drops what moved where it is.
fn move_drop(drop: &mut Inst, moved: Moved)
    requires { moved.at + moved.count ≤ 2 ^ 32 }
    ensures { view_inst drop.new ≡ drop_after (view_moved moved) (view_inst drop.old) }
{
    if let Inst::Drop { slot, reference } = drop {
        if moved.takes(*slot, *reference) {
            *reference = moved.at + (*reference - moved.first);
            *slot = moved.into;
        }
    }
}

/// Drops what moved where it is.
pub fn move_drops(drops: &mut Vec<Inst>, moved: Moved)
    requires { moved.at + moved.count ≤ 2 ^ 32 }
    ensures { code_of drops.new.items ≡ drops_after (view_moved moved) (code_of drops.old.items) }
{
    for i in 0..drops.len() {
        move_drop(&mut drops[i], moved);
    }
}

/// Drops all that moved where it is.
pub fn move_all(drops: &mut Vec<Inst>, moves: &[Moved])
    requires { AllFit moves.now }
    ensures { code_of drops.new.items ≡ drops_after_all (map view_moved moves.now) (code_of drops.old.items) }
{
    for moved in moves {
        move_drops(drops, *moved);
    }
}
