//! The constants of a source.

ghost use Rattle.std.specs.Prelude.{◌≡◌, ◌<◌, ◌+◌, length, map, option_map, IfOk, OnOk};
ghost use Rattle.limbo_entries.specs.View.{entries_of};
ghost use Rattle.limbo_types.specs.View.{view_ty};
ghost use Rattle.limbo_context.specs.View.{view_valued};
ghost use Rattle.limbo_constant_values.specs.Valuing.{AreValues};
ghost use Rattle.limbo_outline.specs.Outline.{type_of_constant, value_of_constant, valued, known_at, ConstantsTo, ConstantsAre};

use limbo_constants::Constant;
use limbo_context::Valued;
use limbo_entries::Table;
use limbo_types::Ty;
use limbo_values::Number;
use std::alloc::{AllocError, Global};

/// The type of a constant.
#[tactic(auto, using(limbo_types::proofs::View::the_types))]
pub fn type_of(constant: &Constant) -> Ty
    ensures { view_ty result ≡ type_of_constant constant.now }
{
    match constant {
        Constant::Number(Number::Byte(_)) => Ty::Byte,
        Constant::Number(Number::Int(_)) => Ty::Int,
        Constant::Number(Number::Big(_)) => Ty::Big,
        Constant::Chars(_) => Ty::Chars,
    }
}

/// A constant as the typed tree has it.
///
/// # Errors
/// Want of memory.
pub fn value_of(constant: &Constant) -> Result<limbo_typed::Constant, AllocError>
    ensures { IfOk result (λ v. v ≡ value_of_constant constant.now) }
{
    match constant {
        Constant::Number(number) => Ok(limbo_typed::Constant::Number(number.value())),
        Constant::Chars(text) => Ok(limbo_typed::Constant::Chars(text.clone()?)),
    }
}

// A constant with its type.
fn with_type(constant: &Constant) -> Result<Valued, AllocError>
    ensures { IfOk result (λ v. view_valued v ≡ valued constant.now) }
{
    let value = value_of(constant)?;
    Ok(Valued {
        ty: type_of(constant),
        value,
    })
}

/// What is known of the declaration of a number.
pub(crate) fn known(values: &[Option<Constant>], number: u32) -> Option<&Constant>
    ensures { option_map (λ c. c.now) result ≡ known_at values.now number }
{
    match values.get(number as usize) {
        None => None,
        Some(value) => match value {
            None => None,
            Some(constant) => Some(constant),
        },
    }
}

// Adds a declaration, if it is a constant.
fn push_constant(
    table: &Table,
    implemented: u32,
    values: &[Option<Constant>],
    number: u32,
    constants: &mut Vec<Valued>,
) -> Result<(), AllocError>
    requires there { number < length table.now.entries.items }
    requires values { AreValues (entries_of table.now.entries.items) implemented values.now }
    ensures { OnOk result (ConstantsTo (entries_of table.now.entries.items) implemented number (map view_valued constants.old.items)
        → ConstantsTo (entries_of table.now.entries.items) implemented (number + 1) (map view_valued constants.new.items)) }
{
    match known(values, number) {
        None => Ok(()),
        Some(constant) => {
            let told = with_type(constant)?;
            constants.push(told)?;
            Ok(())
        }
    }
}

/// The constants of a table, in order, by the values of its declarations.
///
/// # Errors
/// Want of memory.
pub fn list_constants(
    alloc: Global,
    table: &Table,
    implemented: u32,
    values: &[Option<Constant>],
) -> Result<Vec<Valued>, AllocError>
    requires values { AreValues (entries_of table.now.entries.items) implemented values.now }
    ensures { IfOk result (λ all. ConstantsAre (entries_of table.now.entries.items) implemented (map view_valued all.items)) }
{
    let mut constants = Vec::new(alloc);
    for number in 0..table.entries.len() as u32 {
        push_constant(table, implemented, values, number, &mut constants)?;
    }
    Ok(constants)
}
