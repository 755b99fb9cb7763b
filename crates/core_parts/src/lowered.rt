//! What is lowered so far.

ghost use Rattle.std.specs.Prelude.{◌≡◌, ◌∷◌, ◌++◌, [], IfOk, OnOk};
ghost use Rattle.core_data.specs.View.{view_inst};
ghost use Rattle.core_parts.specs.Lowered as lowered;
ghost use Rattle.core_parts.specs.Lowered.{code_of, codes_of, view_lowered, view_lowered_all, none_from, added};

use core_data::Inst;
use std::alloc::{AllocError, Global};

/// The code of a tree.
#[derive(Drop)]
pub struct Lowered {
    pub code: Vec<Inst>,
    /// The drops of what it got, in that order.
    pub drops: Vec<Inst>,
    /// The slot of its value.
    pub value: u32,
    /// The first slot that it doesn't use.
    pub free: u32,
}

/// The code of trees in a row, of each its own, and the slots of their values.
#[derive(Drop)]
pub struct LoweredAll {
    pub each: Vec<Vec<Inst>>,
    pub drops: Vec<Inst>,
    pub values: Vec<u32>,
    pub free: u32,
}

/// Writes one instruction.
#[tactic(auto, using(crate::proofs::Coded::code_of_push))]
pub fn put(code: &mut Vec<Inst>, inst: Inst) -> Result<(), AllocError>
    ensures { OnOk result (code_of code.new.items ≡ code_of code.old.items ++ view_inst inst ∷ []) }
{
    code.push(inst)?;
    Ok(())
}

/// Writes instructions behind others.
#[tactic(auto, using(crate::proofs::Coded::code_of_append))]
pub fn put_all(code: &mut Vec<Inst>, mut behind: Vec<Inst>) -> Result<(), AllocError>
    ensures { OnOk result (code_of code.new.items ≡ code_of code.old.items ++ code_of behind.items) }
{
    code.append(&mut behind)?;
    Ok(())
}

/// The code of trees in a row, one behind the other.
#[tactic(auto, using(crate::proofs::Coded::code_of_none))]
pub fn join(alloc: Global, each: Vec<Vec<Inst>>) -> Result<Vec<Inst>, AllocError>
    ensures { IfOk result (λ code. code_of code.items ≡ lowered.joined (codes_of each.items)) }
{
    let mut code = Vec::new(alloc);
    for own in each {
        put_all(&mut code, own)?;
    }
    Ok(code)
}

impl LoweredAll {
    /// No operand yet: the slots from one on are free.
    #[tactic(auto, using(crate::proofs::Coded::code_of_none, crate::proofs::Coded::codes_of_none))]
    pub fn new(alloc: Global, lo: u32) -> LoweredAll
        ensures { view_lowered_all result ≡ none_from lo }
    {
        LoweredAll {
            each: Vec::new(alloc),
            drops: Vec::new(alloc),
            values: Vec::new(alloc),
            free: lo,
        }
    }

    /// One operand more.
    #[tactic(auto, using(crate::proofs::Coded::codes_of_push, crate::proofs::Coded::joined_push))]
    pub fn add(&mut self, operand: Lowered) -> Result<(), AllocError>
        ensures { OnOk result (view_lowered_all self.new ≡ added (view_lowered_all self.old) (view_lowered operand)) }
    {
        let Lowered {
            code,
            drops,
            value,
            free,
        } = operand;
        self.each.push(code)?;
        put_all(&mut self.drops, drops)?;
        self.values.push(value)?;
        self.free = free;
        Ok(())
    }
}
