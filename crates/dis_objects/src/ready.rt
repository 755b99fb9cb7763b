//! What is being made ready at a place of the code.

ghost use Rattle.std.specs.Prelude.{◌≡◌, ◌+◌, ◌≤◌, [], ◌∷◌, map, take, OnOk, MatchOption};
ghost use Rattle.slot_code.specs.View.{view_inst, view_function};
ghost use Rattle.dis_objects.specs.Frames as frames;
ghost use Rattle.dis_objects.specs.Frames.{Calls};
ghost use Rattle.dis_objects.specs.Words.{frame_limit};
ghost use Rattle.dis_objects.specs.Sites.{view_callee, made_of, IsCounted};

use crate::layout::{FIRST_PRINTED, LINKAGE, end_of, place_in, printed_end, printed_place, whole};
use limbo_typed::Piece;
use limbo_values::Kind;
use slot_code::{Inst, SlotFn};
use std::alloc::{AllocError, Global};

/// A call of a function, or a print by a format.
#[derive(Clone, Copy)]
pub enum Callee<'a> {
    Calls(u32),
    Prints(&'a [Piece]),
}

/// What is being made ready: these, the innermost last, whose arguments take so many bytes.
#[derive(Drop)]
pub struct Making<'a> {
    callees: Vec<Callee<'a>>,
    bytes: u32,
}

// The parameters of a function.
fn parameters_of(function: &SlotFn) -> &[Option<Kind>]
    ensures { result.now ≡ take function.now.parameters function.now.variables.items }
{
    let end = function.parameters.min(function.variables.len());
    &function.variables[..end]
}

// The parameters of a function, by its number.
fn parameters_in(functions: &[SlotFn], number: u32) -> &[Option<Kind>]
    ensures { result.now ≡ frames.parameters (map view_function functions.now) (Calls number) }
{
    match functions.get(number as usize) {
        Some(function) => parameters_of(function),
        None => &[],
    }
}

/// Where the numbers of a callee begin in its frame.
pub fn first_place(callee: Callee<'_>) -> u32
    ensures value { result ≡ frames.first_place (view_callee callee.entry) }
    ensures low { result ≤ 36 }
{
    match callee {
        Callee::Calls(_) => LINKAGE,
        Callee::Prints(_) => FIRST_PRINTED,
    }
}

/// How many bytes the arguments of a callee take.
#[tactic(auto, using(crate::proofs::Layouts::end_grows))]
pub fn argument_bytes(functions: &[SlotFn], callee: Callee<'_>) -> u32
    requires { frames.argument_bytes (map view_function functions.now) (view_callee callee) ≤ frame_limit }
    ensures { result ≡ frames.argument_bytes (map view_function functions.now) (view_callee callee.entry) }
{
    match callee {
        Callee::Calls(number) => whole(end_of(LINKAGE, parameters_in(functions, number))) - LINKAGE,
        Callee::Prints(pieces) => whole(printed_end(pieces)) - FIRST_PRINTED,
    }
}

/// Where an argument of a callee stands in its frame.
pub fn argument_place(functions: &[SlotFn], callee: Callee<'_>, number: usize) -> u32
    requires { frames.argument_bytes (map view_function functions.now) (view_callee callee) ≤ frame_limit }
    ensures { result ≡ frames.argument_place (map view_function functions.now) (view_callee callee.entry) number }
{
    match callee {
        Callee::Calls(f) => place_in(LINKAGE, parameters_in(functions, f), number),
        Callee::Prints(pieces) => printed_place(pieces, number),
    }
}

impl<'a> Making<'a> {
    /// Nothing.
    pub fn new(alloc: Global) -> Making<'a>
        ensures made { made_of result ≡ [] }
        ensures counted { result.bytes ≡ 0 }
    {
        Making {
            callees: Vec::new(alloc),
            bytes: 0,
        }
    }

    /// How many bytes the arguments take.
    pub fn bytes(&self) -> u32
        ensures { result ≡ self.now.bytes }
    {
        self.bytes
    }

    /// The innermost.
    pub fn innermost(&self) -> Option<Callee<'a>>
        ensures { MatchOption result (made_of self.now ≡ [])
            (λ c. made_of self.now ≡ view_callee c ∷ frames.without_first (made_of self.now)) }
    {
        self.callees.last().copied()
    }

    /// One more, within the others.
    ///
    /// # Errors
    /// Want of memory.
    pub fn begin(&mut self, functions: &[SlotFn], callee: Callee<'a>) -> Result<(), AllocError>
        requires counted { IsCounted (map view_function functions.now) self.old }
        requires small { frames.argument_bytes (map view_function functions.now) (view_callee callee) + self.old.bytes ≤ frame_limit }
        ensures made { OnOk result (made_of self.new ≡ view_callee callee.entry ∷ made_of self.old) }
        ensures counted { OnOk result (IsCounted (map view_function functions.now) self.new) }
    {
        self.callees.push(callee)?;
        self.bytes += argument_bytes(functions, callee);
        Ok(())
    }

    /// The innermost is made.
    pub fn end(&mut self, functions: &[SlotFn]) -> Option<Callee<'a>>
        requires counted { IsCounted (map view_function functions.now) self.old }
        requires small { self.old.bytes ≤ frame_limit }
        ensures made { MatchOption result ((made_of self.old ≡ []) × (made_of self.new ≡ []))
            (λ c. made_of self.old ≡ view_callee c ∷ made_of self.new) }
        ensures counted { IsCounted (map view_function functions.now) self.new }
    {
        let callee = self.callees.pop()?;
        self.bytes -= argument_bytes(functions, callee);
        Some(callee)
    }

    /// An instruction is passed.
    ///
    /// # Errors
    /// Want of memory.
    pub fn step(&mut self, functions: &[SlotFn], inst: &'a Inst) -> Result<(), AllocError>
        requires counted { IsCounted (map view_function functions.now) self.old }
        requires old_small { self.old.bytes ≤ frame_limit }
        requires small { frames.all_bytes (map view_function functions.now) (frames.made_by (made_of self.old) (view_inst inst.now))
            ≤ frame_limit }
        ensures made { OnOk result (made_of self.new ≡ frames.made_by (made_of self.old) (view_inst inst.now)) }
        ensures counted { OnOk result (IsCounted (map view_function functions.now) self.new) }
    {
        match inst {
            Inst::Begin { function } => self.begin(functions, Callee::Calls(*function)),
            Inst::Format { pieces } => self.begin(functions, Callee::Prints(pieces.as_slice())),
            Inst::Call { .. } => {
                self.end(functions);
                Ok(())
            }
            Inst::Print { .. } => {
                self.end(functions);
                Ok(())
            }
            _ => Ok(()),
        }
    }
}
