//! Numbers that are stored over others of their kinds.

ghost use Rattle.std.specs.Prelude.{◌≡◌, ◌+◌, ◌<◌, ◌^◌, pos, IfErr, OnErr, OnOk};
ghost use Rattle.limbo_values.specs.declared.number.Kind.TheVariants as kind;
ghost use Rattle.limbo_values.specs.Numbers.{kind_of, value_of};
ghost use Rattle.dis_meaning.specs.Words.{Plain};
ghost use Rattle.dis_memory.specs.Places as places;
ghost use Rattle.dis_memory.specs.Places.{store, store_number};
ghost use Rattle.dis_places.specs.View.{view_process, view_spot, view_world};
ghost use Rattle.dis_places.specs.Words.{Gives};
ghost use Rattle.dis_stores.specs.Storing.{rested, settled, IsNoMemory, Stores};
ghost use Rattle.dis_results.specs.Going.{HoldsAlike};

use crate::words::{high_part, low_part, moved, word_with_byte};
use dis_places::{Halt, Memory, Process, Spot, Word, reach, read_number};
use dis_stores::put;
use limbo_values::{Kind, Number};

// Replaces a plain word by a number: nothing is held and nothing let go.
#[inline(always)]
fn put_int(memory: &mut Memory, process: &mut Process, spot: Spot, z: i32) -> Result<(), Halt>
    ensures gives { Gives (λ _. places.memory (view_world memory.new) (settled (view_process process.new))) result
        (rested (store (view_world memory.old) (view_process process.old) (view_spot spot) (Plain z))) }
    ensures alike { OnOk result (HoldsAlike memory.old process.old memory.new process.new) }
    ensures place { process.new.frame.pc ≡ process.old.frame.pc }
    ensures sure { IfErr result (λ h. IsNoMemory h → ⊥) }
    ensures kept { OnErr result ((memory.new ≡ memory.old) × (process.new ≡ process.old)) }
{
    match put(memory, process, spot, Word::Plain(z.cast_unsigned())) {
        Ok(_) => Ok(()),
        Err(halt) => Err(halt),
    }
}

// Replaces a byte: the others of its word are left as they were read.
#[inline]
fn put_byte(memory: &mut Memory, process: &mut Process, spot: Spot, byte: u8) -> Result<(), Halt>
    ensures gives { Gives (λ _. places.memory (view_world memory.new) (settled (view_process process.new))) result
        (rested (store_number kind.Byte (view_world memory.old) (view_process process.old) (view_spot spot) (pos byte))) }
    ensures alike { OnOk result (HoldsAlike memory.old process.old memory.new process.new) }
    ensures place { process.new.frame.pc ≡ process.old.frame.pc }
    ensures kept { OnErr result ((memory.new ≡ memory.old) × (process.new ≡ process.old)) }
{
    let region = match reach(memory, process, spot) {
        Ok(region) => region,
        Err(fault) => return Err(Halt::Fault(fault)),
    };
    match word_with_byte(memory, process, region, spot.byte(), byte) {
        Ok((at, word)) => put_int(memory, process, moved(spot, at), word),
        Err(fault) => Err(Halt::Fault(fault)),
    }
}

// Replaces a big, which has two words. Both are looked at before the first is replaced. No memory has the greatest bytes of all.
#[inline]
fn put_big(memory: &mut Memory, process: &mut Process, spot: Spot, z: i64) -> Result<(), Halt>
    ensures gives { Gives (λ _. places.memory (view_world memory.new) (settled (view_process process.new))) result
        (rested (store_number kind.Big (view_world memory.old) (view_process process.old) (view_spot spot) z)) }
    ensures alike { OnOk result (HoldsAlike memory.old process.old memory.new process.new) }
    ensures place { process.new.frame.pc ≡ process.old.frame.pc }
    ensures kept { OnErr result ((memory.new ≡ memory.old) × (process.new ≡ process.old)) }
{
    match read_number(memory, process, Kind::Big, spot) {
        Ok(_) => {}
        Err(fault) => return Err(Halt::Fault(fault)),
    }
    let Some(at) = spot.byte().checked_add(4) else {
        return Err(Halt::NoMemory);
    };
    match put_int(memory, process, spot, high_part(z)) {
        Ok(()) => {}
        Err(_) => unreachable!(),
    }
    match put_int(memory, process, moved(spot, at), low_part(z)) {
        Ok(()) => Ok(()),
        Err(_) => unreachable!(),
    }
}

/// Replaces a number by another of its kind: nothing is held and nothing let go.
///
/// # Errors
/// The fault that the definition has, or want of memory; then nothing has changed.
#[inline(always)]
pub fn put_number(
    memory: &mut Memory,
    process: &mut Process,
    spot: Spot,
    number: Number,
) -> Result<(), Halt>
    ensures gives { Gives (λ _. places.memory (view_world memory.new) (settled (view_process process.new))) result
        (rested (store_number (kind_of number) (view_world memory.old) (view_process process.old) (view_spot spot) (value_of number))) }
    ensures alike { OnOk result (HoldsAlike memory.old process.old memory.new process.new) }
    ensures place { process.new.frame.pc ≡ process.old.frame.pc }
    ensures kept { OnErr result ((memory.new ≡ memory.old) × (process.new ≡ process.old)) }
{
    match number {
        Number::Byte(byte) => put_byte(memory, process, spot, byte),
        Number::Int(z) => put_int(memory, process, spot, z),
        Number::Big(z) => put_big(memory, process, spot, z),
    }
}

/// Stores a number over one of its kind.
///
/// # Errors
/// The fault that the definition has, or want of memory; then nothing has changed.
#[inline(always)]
pub fn store_number(
    memory: &mut Memory,
    process: &mut Process,
    spot: Spot,
    number: Number,
) -> Result<(), Halt>
    ensures stores { Stores memory.old process.old result
        (rested (store_number (kind_of number) (view_world memory.old) (view_process process.old) (view_spot spot) (value_of number)))
        memory.new process.new }
    ensures place { process.new.frame.pc ≡ process.old.frame.pc }
    ensures kept { OnErr result ((memory.new ≡ memory.old) × (process.new ≡ process.old)) }
{
    match put_number(memory, process, spot, number) {
        Ok(()) => {
            memory.heap.stands();
            Ok(())
        }
        Err(halt) => Err(halt),
    }
}
