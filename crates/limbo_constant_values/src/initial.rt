//! The initial values of variables.

ghost use Rattle.std.specs.Prelude.{◌≡◌, ◌<◌, ℕ, None, Some, true, false, length, IfOk, IfErr, OnOk, IfSome, IfNone};
ghost use Rattle.limbo_tree.specs.Exprs as tree;
ghost use Rattle.limbo_tree.specs.View.{view_expr};
ghost use Rattle.limbo_declarations.specs.View.{view_declared};
ghost use Rattle.limbo_entries.specs.View.{entries_of};
ghost use Rattle.limbo_naming.specs.Told.{Knows, IsNaming};
ghost use Rattle.limbo_constant_values.specs.Values.{initial_value, IsNotConstant, AllInitial};
ghost use Rattle.limbo_constants.specs.declared.constant.Constant as constant;
ghost use Rattle.limbo_constant_values.specs.Valuing.{AreValues, IsInitial, AreComplete, AreSound};
ghost use Rattle.limbo_constant_values.specs.Initials.{HasInitial, AreInitials};
ghost use Rattle.limbo_constant_values.specs.declared.fault.ValuesFault.TheVariants.{NotConstant};

use crate::fault::ValuesFault;
use crate::meaning::{Place, evaluate_at};
use limbo_constants::Constant;
use limbo_declarations::Declared;
use limbo_entries::Table;
use limbo_naming::Naming;
use limbo_tree::Expr;
use std::alloc::{AllocError, Global};

/// The initial value of a variable, where one is written.
pub fn initial_in<'a>(declared: Declared<'a>) -> Option<&'a Expr>
    ensures some { IfSome result (λ e. initial_value (view_declared declared.entry) ≡ Some (view_expr e.now)) }
    ensures none { IfNone result (initial_value (view_declared declared.entry) ≡ None) }
{
    match declared {
        Declared::Variable { value, .. } => value,
        Declared::Inferred(value) => Some(value),
        _ => None,
    }
}

/// Whether it is `nil`.
pub fn is_nil(e: &Expr) -> bool
    ensures yes { result ≡ true → view_expr e.now ≡ tree.Nil }
    ensures no { result ≡ false → view_expr e.now ≡ tree.Nil → ⊥ }
{
    match e {
        Expr::Nil { .. } => true,
        _ => false,
    }
}

// Whether the initial value of a declaration, if it has one, is `nil` or constant.
fn check_one(
    alloc: Global,
    table: &Table,
    naming: &Naming,
    number: u32,
    values: &[Option<Constant>],
) -> Result<(), ValuesFault>
    requires names { Knows naming.now }
    requires table { naming.now.table.now ≡ table.now }
    requires there { number < length table.now.entries.items }
    requires sound { AreSound naming.now values.now }
    requires complete { AreComplete naming.now values.now }
    ensures initial { OnOk result (IsInitial naming.now number) }
    ensures not_constant { IfErr result (λ e. (n : ℕ) → e ≡ NotConstant n
        → IsNotConstant (entries_of naming.now.table.now.entries.items) naming.now.implemented n) }
{
    let entry = table.entry(number);
    match initial_in(entry.row.declared) {
        None => Ok(()),
        Some(value) => {
            if is_nil(value) {
                return Ok(());
            }
            let place = Place {
                scope: entry.within,
                counter: None,
            };
            match evaluate_at(alloc, naming, place, values, value)? {
                None => Err(ValuesFault::NotConstant { number }),
                Some(_constant) => Ok(()),
            }
        }
    }
}

/// Whether each initial value is `nil` or constant, by the values of the constants.
///
/// # Errors
/// Want of memory. `NotConstant` exactly where an initial value is neither.
pub fn check_initial(
    alloc: Global,
    table: &Table,
    naming: &Naming,
    implemented: u32,
    values: &[Option<Constant>],
) -> Result<(), ValuesFault>
    requires naming { IsNaming table.now implemented naming.now }
    requires values { AreValues (entries_of table.now.entries.items) implemented values.now }
    ensures initial { OnOk result (AllInitial (entries_of table.now.entries.items) implemented) }
    ensures not_constant { IfErr result (λ e. (n : ℕ) → e ≡ NotConstant n
        → IsNotConstant (entries_of table.now.entries.items) implemented n) }
{
    for number in 0..table.entries.len() as u32 {
        match check_one(alloc, table, naming, number, values) {
            Ok(()) => {}
            Err(fault) => return Err(fault),
        }
    }
    Ok(())
}

// The constant to which the initial value of a declaration comes, if it has one that comes to a constant.
fn initial_of(
    alloc: Global,
    table: &Table,
    naming: &Naming,
    number: u32,
    values: &[Option<Constant>],
) -> Result<Option<Constant>, AllocError>
    requires names { Knows naming.now }
    requires table { naming.now.table.now ≡ table.now }
    requires there { number < length table.now.entries.items }
    requires sound { AreSound naming.now values.now }
    requires complete { AreComplete naming.now values.now }
    ensures some { IfOk result (λ v. IfSome v (λ c. HasInitial (entries_of table.now.entries.items) naming.now.implemented number c)) }
    ensures none { IfOk result (λ v. IfNone v ((c : constant.Constant)
        → HasInitial (entries_of table.now.entries.items) naming.now.implemented number c → ⊥)) }
{
    let entry = table.entry(number);
    match initial_in(entry.row.declared) {
        None => Ok(None),
        Some(value) => {
            let place = Place {
                scope: entry.within,
                counter: None,
            };
            evaluate_at(alloc, naming, place, values, value)
        }
    }
}

/// The constants to which the initial values of a table come, each at the number of its variable, by the values of the constants.
///
/// # Errors
/// Want of memory.
pub fn find_initials(
    alloc: Global,
    table: &Table,
    naming: &Naming,
    implemented: u32,
    values: &[Option<Constant>],
) -> Result<Vec<Option<Constant>>, AllocError>
    requires naming { IsNaming table.now implemented naming.now }
    requires values { AreValues (entries_of table.now.entries.items) implemented values.now }
    ensures initials { IfOk result (λ all. AreInitials (entries_of table.now.entries.items) implemented all.items) }
{
    let mut all = Vec::with_capacity(alloc, table.entries.len())?;
    for number in 0..table.entries.len() as u32 {
        let initial = initial_of(alloc, table, naming, number, values)?;
        all.push(initial)?;
    }
    Ok(all)
}
