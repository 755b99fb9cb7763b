//! What the names of a table of declarations name, and the values of its constants.

ghost use Rattle.std.specs.Prelude.{◌≡◌, ◌<◌, ℕ, length, IfOk, IfErr, OnOk};
ghost use Rattle.limbo_entries.specs.Entries.{AreOnce};
ghost use Rattle.limbo_entries.specs.View.{entries_of};
ghost use Rattle.limbo_naming.specs.Told.{IsNaming};
ghost use Rattle.limbo_unknown.specs.Lacking.{HasUnknown};
ghost use Rattle.limbo_constant_values.specs.Values.{AllInitial, IsNotConstant};
ghost use Rattle.limbo_constant_values.specs.Valuing.{AreValues};
ghost use Rattle.limbo_constant_values.specs.declared.fault.ValuesFault.TheVariants as values_fault;
ghost use Rattle.limbo_declare.specs.Declares.{FailsTable};

use crate::fault::NameFault;
use limbo_constant_values::{ValuesFault, check_initial, evaluate_all};
use limbo_constants::Constant;
use limbo_entries::Table;
use limbo_naming::Naming;
use limbo_unknown::{UnknownFault, all_known};
use std::alloc::Global;

// Whether each name that is written is there.
fn check_names<'a>(
    alloc: Global,
    table: &Table<'a>,
    naming: &Naming<'_, 'a>,
    implemented: u32,
) -> Result<(), NameFault<'a>>
    requires naming { IsNaming table.now implemented naming.now }
    ensures known { OnOk result (HasUnknown (entries_of table.now.entries.items) implemented → ⊥) }
    ensures fails { IfErr result (λ e. FailsTable (entries_of table.now.entries.items) implemented e) }
{
    match all_known(alloc, table, naming) {
        Ok(()) => Ok(()),
        Err(UnknownFault::NoMemory) => Err(NameFault::NoMemory),
        Err(UnknownFault::Unknown { path, at }) => Err(NameFault::Unknown { path, at }),
    }
}

// The refusal of a declaration that should have a constant.
fn not_constant<'a>(table: &Table<'a>, fault: ValuesFault, implemented: u32) -> NameFault<'a>
    requires bad { (n : ℕ) → fault ≡ values_fault.NotConstant n → IsNotConstant (entries_of table.now.entries.items) implemented n }
    ensures fails { FailsTable (entries_of table.now.entries.items) implemented result }
{
    match fault {
        ValuesFault::NoMemory => NameFault::NoMemory,
        ValuesFault::NotConstant { number } => {
            let entry = table.entry(number);
            NameFault::NotConstant {
                path: entry.row.path,
                at: entry.row.name.span,
            }
        }
    }
}

// The values of the constants, where initial values are constant too.
fn find_values<'a>(
    alloc: Global,
    table: &Table<'a>,
    naming: &Naming<'_, 'a>,
    implemented: u32,
) -> Result<Vec<Option<Constant>>, NameFault<'a>>
    requires naming { IsNaming table.now implemented naming.now }
    ensures values { IfOk result (λ values. AreValues (entries_of table.now.entries.items) implemented values.items) }
    ensures initial { OnOk result (AllInitial (entries_of table.now.entries.items) implemented) }
    ensures fails { IfErr result (λ e. FailsTable (entries_of table.now.entries.items) implemented e) }
{
    let values = match evaluate_all(alloc, table, naming, implemented) {
        Ok(values) => values,
        Err(fault) => return Err(not_constant(table, fault, implemented)),
    };
    match check_initial(alloc, table, naming, implemented, &values) {
        Ok(()) => Ok(values),
        Err(fault) => Err(not_constant(table, fault, implemented)),
    }
}

/// The values of the constants of a table, each name of which is there.
pub(crate) fn find_meanings<'a>(
    alloc: Global,
    table: &Table<'a>,
    implemented: u32,
) -> Result<Vec<Option<Constant>>, NameFault<'a>>
    requires once { AreOnce (entries_of table.now.entries.items) }
    ensures known { OnOk result (HasUnknown (entries_of table.now.entries.items) implemented → ⊥) }
    ensures values { IfOk result (λ values. AreValues (entries_of table.now.entries.items) implemented values.items) }
    ensures initial { OnOk result (AllInitial (entries_of table.now.entries.items) implemented) }
    ensures fails { IfErr result (λ e. FailsTable (entries_of table.now.entries.items) implemented e) }
{
    let naming = Naming::new(alloc, table, implemented)?;
    match check_names(alloc, table, &naming, implemented) {
        Ok(()) => find_values(alloc, table, &naming, implemented),
        Err(fault) => Err(fault),
    }
}
