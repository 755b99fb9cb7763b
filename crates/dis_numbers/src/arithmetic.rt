//! Operations on numbers: arithmetic, shifts, conversions and moves (Dis Virtual Machine Specification, the instructions by name).

ghost use Rattle.std.specs.Prelude.{◌≡◌, ◌+◌, ◌<◌, ◌^◌, IfOk, OnErr};
ghost use Rattle.limbo_values.specs.Numbers.{kind_of, value_of, wrapped};
ghost use Rattle.limbo_values.specs.Operators as values;
ghost use Rattle.dis_file.specs.declared.object.Object.{Object};
ghost use Rattle.dis_memory.specs.Numbers as numbers;
ghost use Rattle.dis_memory.specs.Raising.{unless_raised};
ghost use Rattle.dis_places.specs.View.{view_process, view_world};
ghost use Rattle.dis_results.specs.Going.{told, Goes};

use dis_isa::Inst;
use dis_places::{Halt, Memory, Process, Raise, middle_of, source_of};
use dis_results::{number_to, source_int};
use limbo_values::{Kind, Number, Operator, Shift, big, byte, int};

// What an operator gives of two numbers of a kind, or raises.
#[inline(always)]
fn combined(kind: Kind, operator: Operator, left: Number, right: Number) -> Result<Number, Raise>
    requires left { kind_of left ≡ kind }
    requires right { kind_of right ≡ kind }
    ensures number { told value_of result ≡ unless_raised (values.applied kind operator (value_of left) (value_of right)) }
    ensures kind { IfOk result (λ n. kind_of n ≡ kind) }
{
    let outcome = match (left, right) {
        (Number::Byte(a), Number::Byte(b)) => byte::apply(operator, a, b).map(Number::Byte),
        (Number::Int(a), Number::Int(b)) => int::apply(operator, a, b).map(Number::Int),
        (Number::Big(a), Number::Big(b)) => big::apply(operator, a, b).map(Number::Big),
        _ => unreachable!(),
    };
    outcome.map_err(Raise::Value)
}

// What a shift gives of a number of a kind.
#[inline(always)]
fn shifted(kind: Kind, shift: Shift, number: Number, count: i32) -> Number
    requires { kind_of number ≡ kind }
    ensures number { value_of result ≡ values.shifted kind shift (value_of number) count }
    ensures kind { kind_of result ≡ kind }
{
    match number {
        Number::Byte(a) => Number::Byte(byte::shift(shift, a, count)),
        Number::Int(a) => Number::Int(int::shift(shift, a, count)),
        Number::Big(a) => Number::Big(big::shift(shift, a, count)),
    }
}

// An operator on two numbers of a kind that the caller knows.
#[inline(always)]
fn calculate_as(
    memory: &mut Memory,
    process: &mut Process,
    kind: Kind,
    operator: Operator,
    inst: Inst,
) -> Result<(), Halt>
    requires place { process.old.frame.pc + 1 < 2 ^ 64 }
    ensures goes { (o : Object) → Goes memory.old process.old result
        (numbers.calculates o (view_world memory.old) (view_process process.old) inst kind operator) memory.new process.new }
    ensures kept { OnErr result ((memory.new ≡ memory.old) × (process.new ≡ process.old)) }
{
    let right = match source_of(memory, process, kind, inst.src) {
        Ok(right) => right,
        Err(halt) => return Err(halt),
    };
    let left = match middle_of(memory, process, kind, inst.middle, inst.dst) {
        Ok(left) => left,
        Err(halt) => return Err(halt),
    };
    let outcome = combined(kind, operator, left, right);
    number_to(memory, process, kind, inst.dst, outcome)
}

/// An operator on two numbers of a kind: the middle is the left one, the source the right one.
pub fn calculate(
    memory: &mut Memory,
    process: &mut Process,
    kind: Kind,
    operator: Operator,
    inst: Inst,
) -> Result<(), Halt>
    requires place { process.old.frame.pc + 1 < 2 ^ 64 }
    ensures goes { (o : Object) → Goes memory.old process.old result
        (numbers.calculates o (view_world memory.old) (view_process process.old) inst kind operator) memory.new process.new }
    ensures kept { OnErr result ((memory.new ≡ memory.old) × (process.new ≡ process.old)) }
{
    // Each kind by itself: most programs calculate with ints.
    match kind {
        Kind::Int => calculate_as(memory, process, Kind::Int, operator, inst),
        Kind::Byte => calculate_as(memory, process, Kind::Byte, operator, inst),
        Kind::Big => calculate_as(memory, process, Kind::Big, operator, inst),
    }
}

/// The middle is shifted, by a source that is an int.
pub fn shift_by(
    memory: &mut Memory,
    process: &mut Process,
    kind: Kind,
    shift: Shift,
    inst: Inst,
) -> Result<(), Halt>
    requires place { process.old.frame.pc + 1 < 2 ^ 64 }
    ensures goes { (o : Object) → Goes memory.old process.old result
        (numbers.shifts o (view_world memory.old) (view_process process.old) inst kind shift) memory.new process.new }
    ensures kept { OnErr result ((memory.new ≡ memory.old) × (process.new ≡ process.old)) }
{
    let count = match source_int(memory, process, inst.src) {
        Ok(count) => count,
        Err(halt) => return Err(halt),
    };
    let number = match middle_of(memory, process, kind, inst.middle, inst.dst) {
        Ok(number) => number,
        Err(halt) => return Err(halt),
    };
    let outcome = shifted(kind, shift, number, count);
    number_to(memory, process, kind, inst.dst, Ok(outcome))
}

// What is left of a number in a kind.
#[inline(always)]
fn converted(number: Number, kind: Kind) -> Number
    ensures number { value_of result ≡ wrapped kind (value_of number) }
    ensures kind { kind_of result ≡ kind }
{
    let value = number.value();
    match kind {
        Kind::Byte => Number::Byte(byte::wrap(value)),
        Kind::Int => Number::Int(int::wrap(value)),
        Kind::Big => Number::Big(value),
    }
}

/// A number of one kind goes as one of another: what is left of it there.
pub fn convert(
    memory: &mut Memory,
    process: &mut Process,
    from: Kind,
    into: Kind,
    inst: Inst,
) -> Result<(), Halt>
    requires place { process.old.frame.pc + 1 < 2 ^ 64 }
    ensures goes { (o : Object) → Goes memory.old process.old result
        (numbers.converts o (view_world memory.old) (view_process process.old) inst from into) memory.new process.new }
    ensures kept { OnErr result ((memory.new ≡ memory.old) × (process.new ≡ process.old)) }
{
    match source_of(memory, process, from, inst.src) {
        Ok(number) => number_to(memory, process, into, inst.dst, Ok(converted(number, into))),
        Err(halt) => Err(halt),
    }
}

/// A number of a kind goes.
pub fn move_number(
    memory: &mut Memory,
    process: &mut Process,
    kind: Kind,
    inst: Inst,
) -> Result<(), Halt>
    requires place { process.old.frame.pc + 1 < 2 ^ 64 }
    ensures goes { (o : Object) → Goes memory.old process.old result
        (numbers.moves o (view_world memory.old) (view_process process.old) inst kind) memory.new process.new }
    ensures kept { OnErr result ((memory.new ≡ memory.old) × (process.new ≡ process.old)) }
{
    match source_of(memory, process, kind, inst.src) {
        Ok(number) => number_to(memory, process, kind, inst.dst, Ok(number)),
        Err(halt) => Err(halt),
    }
}
