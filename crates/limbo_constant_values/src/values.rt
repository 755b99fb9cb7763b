//! The values of all constants, each found behind those that it needs; and initial values.

ghost use Rattle.std.specs.Prelude.{◌≡◌, ◌<◌, ℕ, List, Option, None, Some, length, slice_get, IfOk, IfErr, OnOk, IfSome, IfNone};
ghost use Rattle.limbo_tree.specs.Exprs as tree;
ghost use Rattle.limbo_tree.specs.View.{view_expr};
ghost use Rattle.limbo_constants.specs.declared.constant.Constant as constant;
ghost use Rattle.limbo_declarations.specs.View.{view_declared};
ghost use Rattle.limbo_entries.specs.View.{entries_of};
ghost use Rattle.limbo_order.specs.Order.{IsOrder};
ghost use Rattle.limbo_order.specs.View.{rows};
ghost use Rattle.limbo_naming.specs.Told.{Knows, IsNaming};
ghost use Rattle.limbo_constant_values.specs.Values.{initial_value, IsNotConstant, AllInitial};
ghost use Rattle.limbo_constant_values.specs.Asking.{AreNeedsOf};
ghost use Rattle.limbo_constant_values.specs.Valuing.{AreSound, AreReady, AreBehind, IsDone, Sets, AreValues};
ghost use Rattle.limbo_constant_values.specs.declared.fault.ValuesFault.TheVariants.{NotConstant};

use crate::fault::ValuesFault;
use crate::meaning::{Place, counted, evaluate_at};
use crate::needs::{all_needs, constant_in};
use limbo_constants::Constant;
use limbo_declarations::Declared;
use limbo_entries::Table;
use limbo_naming::Naming;
use limbo_order::{OrderFault, order};
use limbo_tree::Expr;
use std::alloc::{AllocError, Global};

// Finds the value of a declaration, if it is a constant, where those that it needs are known.
fn set_value(
    alloc: Global,
    table: &Table,
    naming: &Naming,
    number: u32,
    values: &mut Vec<Option<Constant>>,
) -> Result<(), ValuesFault>
    requires names { Knows naming.now }
    requires table { naming.now.table.now ≡ table.now }
    requires there { number < length table.now.entries.items }
    requires many { length values.old.items ≡ length table.now.entries.items }
    requires sound { AreSound naming.now values.old.items }
    requires ready { AreReady naming.now number values.old.items }
    ensures sets { OnOk result (Sets naming.now number values.old.items values.new.items) }
    ensures not_constant { IfErr result (λ e. (n : ℕ) → e ≡ NotConstant n
        → IsNotConstant (entries_of table.now.entries.items) naming.now.implemented n) }
{
    let entry = table.entry(number);
    match constant_in(entry.row.declared) {
        None => Ok(()),
        Some((value, iota)) => {
            let counter = counted(iota);
            let place = Place {
                scope: entry.within,
                counter: Some(&counter),
            };
            match evaluate_at(alloc, naming, place, values, value)? {
                None => Err(ValuesFault::NotConstant { number }),
                Some(constant) => {
                    values[number as usize] = Some(constant);
                    Ok(())
                }
            }
        }
    }
}

// Finds the values of these declarations, one after the other.
fn fill(
    alloc: Global,
    table: &Table,
    naming: &Naming,
    order: &[u32],
    values: &mut Vec<Option<Constant>>,
) -> Result<(), ValuesFault>
    requires names { Knows naming.now }
    requires table { naming.now.table.now ≡ table.now }
    requires many { length values.old.items ≡ length table.now.entries.items }
    requires sound { AreSound naming.now values.old.items }
    requires there { (i n : ℕ) → slice_get order.now i ≡ Some n → n < length table.now.entries.items }
    requires behind { AreBehind naming.now order.now }
    ensures sound { OnOk result (AreSound naming.now values.new.items) }
    ensures done { OnOk result ((i n : ℕ) → slice_get order.now i ≡ Some n → IsDone naming.now n values.new.items) }
    ensures not_constant { IfErr result (λ e. (n : ℕ) → e ≡ NotConstant n
        → IsNotConstant (entries_of table.now.entries.items) naming.now.implemented n) }
{
    for number in order {
        set_value(alloc, table, naming, *number, values)?;
    }
    Ok(())
}

// Values of which none is known.
fn none_known(alloc: Global, count: usize) -> Result<Vec<Option<Constant>>, AllocError>
    ensures many { IfOk result (λ values. length values.items ≡ count) }
    ensures none { IfOk result (λ values. (k : ℕ) (v : Option constant.Constant) → slice_get values.items k ≡ Some v → v ≡ None) }
{
    let mut values = Vec::with_capacity(alloc, count)?;
    for _ in 0..count {
        values.push(None)?;
    }
    Ok(values)
}

/// The values of the constants of a table, each at its number.
///
/// # Errors
/// Want of memory. `NotConstant` exactly where a constant has no value, as it isn't constant, would raise an exception, or needs itself.
pub fn evaluate_all(
    alloc: Global,
    table: &Table,
    naming: &Naming,
    implemented: u32,
) -> Result<Vec<Option<Constant>>, ValuesFault>
    requires naming { IsNaming table.now implemented naming.now }
    ensures values { IfOk result (λ values. AreValues (entries_of table.now.entries.items) implemented values.items) }
    ensures not_constant { IfErr result (λ e. (n : ℕ) → e ≡ NotConstant n
        → IsNotConstant (entries_of table.now.entries.items) implemented n) }
{
    let needs = all_needs(alloc, table, naming)?;
    let order = match order(alloc, &needs) {
        Ok(order) => order,
        Err(OrderFault::NoMemory) => return Err(ValuesFault::NoMemory),
        Err(OrderFault::Cycle { number }) => return Err(ValuesFault::NotConstant { number }),
    };
    let mut values = none_known(alloc, table.entries.len())?;
    match fill(alloc, table, naming, &order, &mut values) {
        Ok(()) => Ok(values),
        Err(fault) => Err(fault),
    }
}
