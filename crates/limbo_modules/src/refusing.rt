//! Refusals, and where they stand.

ghost use Rattle.std.specs.Prelude.{◌≡◌, ℕ, List, Some};
ghost use Rattle.limbo_causes.specs.Causes.{Cause as AnyCause, Unknown, nothing, told, Refused, FailsBy};
ghost use Rattle.limbo_causes.specs.declared.fault.Cause.TheVariants as code;
ghost use Rattle.limbo_refusals.specs.Refusals.{TypeTooLarge, Refuses};
ghost use Rattle.limbo_top.specs.Tops.{Placed};
ghost use Rattle.limbo_entries.specs.View.{entries_of};
ghost use Rattle.limbo_type_names.specs.Refusals.{FailsAt};
ghost use Rattle.limbo_source_context.specs.SourceContext as source;
ghost use Rattle.limbo_modules.specs.Failing.{FailsModule, type_cause, context_cause};
ghost use Rattle.limbo_modules.specs.Faults.{FailsWith, Tells};
ghost use Rattle.limbo_stmt_values.specs.declared.fault.Why.TheVariants as why;

use crate::fault::{ModuleFault, refused};
use inf_text::Span;
use limbo_causes::Cause;
use limbo_declarations::Declared;
use limbo_entries::Table;
use limbo_refusals::{ExprFault, clash_of};
use limbo_scope::Meaning;
use limbo_source_context::ContextFault;
use limbo_stmt_values::Why;
use limbo_type_names::TypesFault;
use limbo_types::Ty;
use std::alloc::Global;

// What something is that has no type where one is asked for.
fn no_type(alloc: Global) -> Cause
    ensures { FailsBy result (λ k. k ≡ nothing) }
{
    Cause::Refused(clash_of(alloc, &Ty::Nothing, &Ty::Nothing))
}

// A cause, in the text of the declaration of a number, at the place that is given, or else at its name.
fn at_declaration(table: &Table, number: u32, at: Option<Span>, cause: Cause) -> ModuleFault
    ensures { Tells (why.Part cause) result }
{
    match table.entries.get(number as usize) {
        Some(entry) => refused(
            entry.row.path,
            Why::Part(cause),
            at.unwrap_or(entry.row.name.span),
        ),
        None => ModuleFault::NoMemory,
    }
}

/// The refusal of what is declared by `type`.
pub(crate) fn of_types(alloc: Global, table: &Table, fault: TypesFault) -> ModuleFault
    ensures { (name : List ℕ) (tops : List Placed) (m : ℕ) → FailsAt table.now.entries.items m fault
        → FailsWith result (FailsModule name tops (entries_of table.now.entries.items) m) }
{
    match fault {
        TypesFault::NoMemory => ModuleFault::NoMemory,
        TypesFault::Unknown { number, at } => {
            at_declaration(table, number, Some(at), Cause::Unknown)
        }
        TypesFault::NotAType { number, at } => {
            at_declaration(table, number, Some(at), no_type(alloc))
        }
        TypesFault::TypeTooLarge { number } => at_declaration(
            table,
            number,
            None,
            Cause::Refused(ExprFault::TypeTooLarge),
        ),
    }
}

// The number of the declaration of an adt, by the adt's number; else that of the first declaration.
fn declaration_of_adt(table: &Table, adt: u32) -> u32 {
    let mut before = 0;
    for number in 0..table.entries.len() as u32 {
        if let Declared::Adt { .. } = table.entries[number as usize].row.declared {
            if before == adt {
                return number;
            }
            before += 1;
        }
    }
    0
}

// Which declaration a refusal is of, and where in it.
fn place_of(table: &Table, fault: ContextFault) -> (u32, Option<Span>) {
    match fault {
        ContextFault::NoMemory => (0, None),
        ContextFault::Unknown { number, at } | ContextFault::NotAType { number, at } => {
            (number, Some(at))
        }
        ContextFault::TooLarge { adt } => (declaration_of_adt(table, adt), None),
        ContextFault::NoType { number }
        | ContextFault::NotThere { number }
        | ContextFault::BadInitial { number } => (number, None),
    }
}

// The cause of a refusal.
fn cause_of(alloc: Global, fault: ContextFault) -> Cause
    ensures { FailsBy result (λ k. context_cause fault ≡ Some k) }
{
    match fault {
        ContextFault::NoMemory => Cause::NoMemory,
        ContextFault::Unknown { .. } => Cause::Unknown,
        ContextFault::NotAType { .. }
        | ContextFault::NoType { .. }
        | ContextFault::NotThere { .. }
        | ContextFault::BadInitial { .. } => no_type(alloc),
        ContextFault::TooLarge { .. } => Cause::Refused(ExprFault::TypeTooLarge),
    }
}

/// The refusal of what is known around the functions.
pub(crate) fn of_context(alloc: Global, table: &Table, fault: ContextFault) -> ModuleFault
    ensures { (name : List ℕ) (tops : List Placed) (m : ℕ) → source.Fails table.now.entries.items m fault
        → FailsWith result (FailsModule name tops (entries_of table.now.entries.items) m) }
{
    let (number, at) = place_of(table, fault);
    let cause = cause_of(alloc, fault);
    at_declaration(table, number, at, cause)
}

/// The refusal of the types that a declaration writes.
pub(crate) fn of_permitted(table: &Table, number: u32, fault: ExprFault) -> ModuleFault
    ensures { Tells (why.Part (code.Refused fault)) result }
{
    at_declaration(table, number, None, Cause::Refused(fault))
}

// The number of the declaration that is the function of a number; else that of the first declaration.
fn declaration_of_function(meanings: &[Option<Meaning>], function: usize) -> u32 {
    for number in 0..meanings.len() {
        if let Some(Meaning::Function(found)) = meanings[number] {
            if found as usize == function {
                return u32::try_from(number).unwrap_or(0);
            }
        }
    }
    0
}

/// The refusal of a function that nothing defines.
pub(crate) fn undefined(table: &Table, meanings: &[Option<Meaning>], function: usize) -> ModuleFault
    ensures { Tells (why.Part code.Unknown) result }
{
    let number = declaration_of_function(meanings, function);
    at_declaration(table, number, None, Cause::Unknown)
}
