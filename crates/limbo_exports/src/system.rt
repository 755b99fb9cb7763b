//! The built-in module of the system's calls.

ghost use Rattle.std.specs.Prelude.{◌≡◌, ◌<◌, length, true, false, IfSome, IfNone};
ghost use Rattle.limbo_declarations.specs.View.{view_declared};
ghost use Rattle.limbo_entries.specs.View.{entries_of, view_entry};
ghost use Rattle.limbo_exports.specs.System as system;
ghost use Rattle.limbo_exports.specs.System.{IsFirst, HasNone, module_number, adt_number};

use inf_text::{Text, is_spelled};
use limbo_declarations::Declared;
use limbo_entries::{Entry, Table};
use limbo_scope::Meaning;

// Whether it is a module.
fn is_module(declared: Declared) -> bool
    ensures { result ≡ system.is_module (view_declared declared.entry) }
{
    match declared {
        Declared::Module(_members) => true,
        _ => false,
    }
}

// Whether it is an adt.
fn is_adt(declared: Declared) -> bool
    ensures { result ≡ system.is_adt (view_declared declared.entry) }
{
    match declared {
        Declared::Adt { .. } => true,
        _ => false,
    }
}

// Whether what stands within the second stands in the first.
fn stands_in(scope: Option<u32>, within: Option<u32>) -> bool
    ensures { result ≡ system.stands_in scope within }
{
    match scope {
        None => false,
        Some(outer) => match within {
            None => false,
            Some(other) => outer == other,
        },
    }
}

// Whether a declaration is the built-in module.
fn is_system(entry: Entry) -> bool
    ensures { result ≡ system.is_system (view_entry entry.entry) }
{
    is_module(entry.row.declared) && is_spelled(entry.row.path.as_slice(), "sys.m")
}

// Whether a declaration is the adt of file descriptors of the module of a number.
fn is_fd(builtin: Option<u32>, entry: Entry) -> bool
    ensures { result ≡ system.is_fd builtin (view_entry entry.entry) }
{
    is_adt(entry.row.declared)
        && stands_in(builtin, entry.within)
        && is_spelled(entry.row.name.text.as_slice(), "FD")
}

/// The number of the built-in module, where its text is included.
pub fn find_system(table: &Table) -> Option<u32>
    ensures found { IfSome result (λ k. IsFirst system.is_system (entries_of table.now.entries.items) k) }
    ensures within { IfSome result (λ k. k < length table.now.entries.items) }
    ensures none { IfNone result (HasNone system.is_system (entries_of table.now.entries.items)) }
{
    for number in 0..table.entries.len() as u32 {
        let entry = table.entries[number as usize];
        if is_system(entry) {
            return Some(number);
        }
    }
    None
}

/// The number of the adt of file descriptors, if the built-in module has this number.
pub fn find_fd(table: &Table, builtin: Option<u32>) -> Option<u32>
    ensures found { IfSome result (λ k. IsFirst (system.is_fd builtin) (entries_of table.now.entries.items) k) }
    ensures within { IfSome result (λ k. k < length table.now.entries.items) }
    ensures none { IfNone result (HasNone (system.is_fd builtin) (entries_of table.now.entries.items)) }
{
    for number in 0..table.entries.len() as u32 {
        let entry = table.entries[number as usize];
        if is_fd(builtin, entry) {
            return Some(number);
        }
    }
    None
}

/// The number of the built-in module among the module types, by what the names of all declarations mean.
pub fn system_number(meanings: &[Option<Meaning>], builtin: Option<u32>) -> Option<u32>
    ensures { result ≡ module_number meanings.now builtin }
{
    match builtin {
        None => None,
        Some(number) => match meanings.get(number as usize) {
            Some(Some(Meaning::Module(place))) => Some(*place),
            _ => None,
        },
    }
}

/// The number of the adt of file descriptors among the adts, by what the names of all declarations mean.
pub fn fd_number(meanings: &[Option<Meaning>], fd: Option<u32>) -> Option<u32>
    ensures { result ≡ adt_number meanings.now fd }
{
    match fd {
        None => None,
        Some(number) => match meanings.get(number as usize) {
            Some(Some(Meaning::Adt(place))) => Some(*place),
            _ => None,
        },
    }
}

// The print of a name.
fn print_named(name: &Text) -> Option<u32>
    ensures { result ≡ system.print_named name.now }
{
    if is_spelled(name.as_slice(), "print") {
        return Some(0);
    }
    if is_spelled(name.as_slice(), "fprint") {
        return Some(1);
    }
    if is_spelled(name.as_slice(), "sprint") {
        return Some(2);
    }
    None
}

/// Which print a declaration is, if the built-in module has this number.
pub fn print_of(builtin: Option<u32>, entry: Entry) -> Option<u32>
    ensures { result ≡ system.print_of builtin (view_entry entry.entry) }
{
    if stands_in(builtin, entry.within) {
        print_named(&entry.row.name.text)
    } else {
        None
    }
}
