//! The operations on numbers: a table of them, and what each row of it does.

ghost use Rattle.std.specs.Prelude.{◌≡◌, ◌+◌, ◌<◌, ◌^◌, OnErr};
ghost use Rattle.std.specs.Option.{option_map};
ghost use Rattle.dis_meaning.specs.Numbers.{number_row};
ghost use Rattle.dis_memory.specs.Numbers as numbers;
ghost use Rattle.dis_places.specs.View.{view_process, view_world};
ghost use Rattle.dis_numbers.specs.Rows.{view_row};
ghost use Rattle.dis_results.specs.Going.{Goes};

use crate::arithmetic::{calculate, convert, move_number, shift_by};
use crate::branches::branch_where;
use dis_code::Code;
use dis_isa::{Inst, Op};
use dis_places::{Halt, Memory, Process};
use limbo_values::{Comparison, Kind, Operator, Shift};

/// What an operation on numbers does.
#[derive(Clone, Copy)]
pub enum Row {
    /// It combines two numbers of a kind.
    Calculates(Kind, Operator),
    /// It shifts a number of a kind by an int.
    Shifts(Kind, Shift),
    /// It converts a number of one kind to another.
    Converts(Kind, Kind),
    /// It moves a number of a kind.
    Moves(Kind),
    /// It goes on elsewhere where a comparison of two numbers of a kind holds.
    Branches(Kind, Comparison),
}

/// The operations on numbers.
#[inline(always)]
pub fn number_row(op: Op) -> Option<Row>
    ensures { option_map view_row result ≡ number_row op }
{
    match op {
        Op::Addb => Some(Row::Calculates(Kind::Byte, Operator::Add)),
        Op::Addw => Some(Row::Calculates(Kind::Int, Operator::Add)),
        Op::Addl => Some(Row::Calculates(Kind::Big, Operator::Add)),
        Op::Subb => Some(Row::Calculates(Kind::Byte, Operator::Subtract)),
        Op::Subw => Some(Row::Calculates(Kind::Int, Operator::Subtract)),
        Op::Subl => Some(Row::Calculates(Kind::Big, Operator::Subtract)),
        Op::Mulb => Some(Row::Calculates(Kind::Byte, Operator::Multiply)),
        Op::Mulw => Some(Row::Calculates(Kind::Int, Operator::Multiply)),
        Op::Mull => Some(Row::Calculates(Kind::Big, Operator::Multiply)),
        Op::Divb => Some(Row::Calculates(Kind::Byte, Operator::Divide)),
        Op::Divw => Some(Row::Calculates(Kind::Int, Operator::Divide)),
        Op::Divl => Some(Row::Calculates(Kind::Big, Operator::Divide)),
        Op::Modb => Some(Row::Calculates(Kind::Byte, Operator::Remainder)),
        Op::Modw => Some(Row::Calculates(Kind::Int, Operator::Remainder)),
        Op::Modl => Some(Row::Calculates(Kind::Big, Operator::Remainder)),
        Op::Andb => Some(Row::Calculates(Kind::Byte, Operator::And)),
        Op::Andw => Some(Row::Calculates(Kind::Int, Operator::And)),
        Op::Andl => Some(Row::Calculates(Kind::Big, Operator::And)),
        Op::Orb => Some(Row::Calculates(Kind::Byte, Operator::Or)),
        Op::Orw => Some(Row::Calculates(Kind::Int, Operator::Or)),
        Op::Orl => Some(Row::Calculates(Kind::Big, Operator::Or)),
        Op::Xorb => Some(Row::Calculates(Kind::Byte, Operator::Xor)),
        Op::Xorw => Some(Row::Calculates(Kind::Int, Operator::Xor)),
        Op::Xorl => Some(Row::Calculates(Kind::Big, Operator::Xor)),
        Op::Shlb => Some(Row::Shifts(Kind::Byte, Shift::Left)),
        Op::Shlw => Some(Row::Shifts(Kind::Int, Shift::Left)),
        Op::Shll => Some(Row::Shifts(Kind::Big, Shift::Left)),
        Op::Shrb => Some(Row::Shifts(Kind::Byte, Shift::Right)),
        Op::Shrw => Some(Row::Shifts(Kind::Int, Shift::Right)),
        Op::Shrl => Some(Row::Shifts(Kind::Big, Shift::Right)),
        Op::Cvtbw => Some(Row::Converts(Kind::Byte, Kind::Int)),
        Op::Cvtwb => Some(Row::Converts(Kind::Int, Kind::Byte)),
        Op::Cvtlw => Some(Row::Converts(Kind::Big, Kind::Int)),
        Op::Cvtwl => Some(Row::Converts(Kind::Int, Kind::Big)),
        Op::Movb => Some(Row::Moves(Kind::Byte)),
        Op::Movl => Some(Row::Moves(Kind::Big)),
        Op::Beqb => Some(Row::Branches(Kind::Byte, Comparison::Equal)),
        Op::Beqw => Some(Row::Branches(Kind::Int, Comparison::Equal)),
        Op::Beql => Some(Row::Branches(Kind::Big, Comparison::Equal)),
        Op::Bneb => Some(Row::Branches(Kind::Byte, Comparison::Unequal)),
        Op::Bnew => Some(Row::Branches(Kind::Int, Comparison::Unequal)),
        Op::Bnel => Some(Row::Branches(Kind::Big, Comparison::Unequal)),
        Op::Bltb => Some(Row::Branches(Kind::Byte, Comparison::Less)),
        Op::Bltw => Some(Row::Branches(Kind::Int, Comparison::Less)),
        Op::Bltl => Some(Row::Branches(Kind::Big, Comparison::Less)),
        Op::Bleb => Some(Row::Branches(Kind::Byte, Comparison::AtMost)),
        Op::Blew => Some(Row::Branches(Kind::Int, Comparison::AtMost)),
        Op::Blel => Some(Row::Branches(Kind::Big, Comparison::AtMost)),
        Op::Bgtb => Some(Row::Branches(Kind::Byte, Comparison::Greater)),
        Op::Bgtw => Some(Row::Branches(Kind::Int, Comparison::Greater)),
        Op::Bgtl => Some(Row::Branches(Kind::Big, Comparison::Greater)),
        Op::Bgeb => Some(Row::Branches(Kind::Byte, Comparison::AtLeast)),
        Op::Bgew => Some(Row::Branches(Kind::Int, Comparison::AtLeast)),
        Op::Bgel => Some(Row::Branches(Kind::Big, Comparison::AtLeast)),
        _ => None,
    }
}

/// What a row of the table does.
#[inline(always)]
pub fn obey_row(
    code: &Code,
    memory: &mut Memory,
    process: &mut Process,
    inst: Inst,
    row: Row,
) -> Result<(), Halt>
    requires place { process.old.frame.pc + 1 < 2 ^ 64 }
    ensures goes { Goes memory.old process.old result
        (numbers.by_row code.now.object (view_world memory.old) (view_process process.old) inst (view_row row)) memory.new process.new }
    ensures kept { OnErr result ((memory.new ≡ memory.old) × (process.new ≡ process.old)) }
{
    match row {
        Row::Calculates(kind, operator) => calculate(memory, process, kind, operator, inst),
        Row::Shifts(kind, shift) => shift_by(memory, process, kind, shift, inst),
        Row::Converts(from, into) => convert(memory, process, from, into, inst),
        Row::Moves(kind) => move_number(memory, process, kind, inst),
        Row::Branches(kind, comparison) => {
            branch_where(code, memory, process, kind, comparison, inst)
        }
    }
}
