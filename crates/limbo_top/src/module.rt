//! The implemented module, and the functions that it doesn't declare.

ghost use Rattle.std.specs.Prelude.{◌≡◌, ◌∷◌, ◌++◌, true, false, ℕ, List, IfOk, IfSome, IfNone};
ghost use Rattle.limbo_tree.specs.Decls as decls;
ghost use Rattle.limbo_tree.specs.Decls.{Members};
ghost use Rattle.limbo_tree.specs.View.{view_members, view_fn};
ghost use Rattle.limbo_declarations.specs.Rows as kinds;
ghost use Rattle.limbo_declarations.specs.View.{view_declared, rows_of};
ghost use Rattle.limbo_top.specs.Tops as told;
ghost use Rattle.limbo_top.specs.Tops.{DeclaresModule, HasFunction, Alone};
ghost use Rattle.limbo_top.specs.View.{view_definition, definitions_of};

use crate::tops::Definition;
use inf_text::Text;
use limbo_declarations::{Declared, Names, Row};
use limbo_tree::{FnType, Member};
use std::alloc::{AllocError, Global};

// The members of a module.

fn members_in<'a>(declared: Declared<'a>) -> Option<&'a [Member]>
    ensures some { IfSome result (λ ms. view_declared declared.entry ≡ kinds.Module (view_members ms.now)) }
    ensures none { IfNone result ((ms : Members) → view_declared declared.entry ≡ kinds.Module ms → ⊥) }
{
    match declared {
        Declared::Module(members) => Some(members),
        _ => None,
    }
}

// The type of a function.

fn function_in<'a>(declared: Declared<'a>) -> Option<&'a FnType>
    ensures some { IfSome result (λ f. view_declared declared.entry ≡ kinds.Function (view_fn f.now)) }
    ensures none { IfNone result ((f : decls.FnType) → view_declared declared.entry ≡ kinds.Function f → ⊥) }
{
    match declared {
        Declared::Function(of) => Some(of),
        _ => None,
    }
}

/// The module of a name: the path of the text in which it is declared, and its members.
pub fn implemented<'a>(names: &Names<'a>, name: &Text) -> Option<(&'a Text, &'a [Member])>
    ensures some { IfSome result (λ m. DeclaresModule (rows_of names.now.rows.items) name.now m.0.now (view_members m.1.now)) }
    ensures none { IfNone result ((path : List ℕ) (ms : Members) → DeclaresModule (rows_of names.now.rows.items) name.now path ms → ⊥) }
{
    match names.row(name) {
        None => None,
        Some(row) => match members_in(row.declared) {
            None => None,
            Some(members) => Some((row.path, members)),
        },
    }
}

// Whether a function of a name is declared.
fn has_function(names: &Names, name: &Text) -> bool
    ensures yes { result ≡ true → HasFunction (rows_of names.now.rows.items) name.now }
    ensures no { result ≡ false → HasFunction (rows_of names.now.rows.items) name.now → ⊥ }
{
    match names.row(name) {
        None => false,
        Some(row) => match function_in(row.declared) {
            None => false,
            Some(_of) => true,
        },
    }
}

// Adds the function that a definition declares, if it declares one.
fn push_alone<'a>(
    rows: &mut Vec<Row<'a>>,
    members: &Names<'a>,
    d: Definition<'a>,
) -> Result<(), AllocError>
    ensures { IfOk result (λ _. (ds : List told.Definition) (rest : List kinds.Row) → Alone (rows_of members.now.rows.items) ds rest
        → (more : List kinds.Row) × (rows_of rows.new.items ≡ rows_of rows.old.items ++ more)
        × Alone (rows_of members.now.rows.items) (view_definition d.entry ∷ ds) (more ++ rest)) }
{
    match &d.function.part {
        Some(_function) => Ok(()),
        None => {
            if has_function(members, &d.function.name.text) {
                return Ok(());
            }
            rows.push(Row {
                path: d.path,
                name: &d.function.name,
                declared: Declared::Function(&d.function.of),
            })?;
            Ok(())
        }
    }
}

/// The functions that their definitions declare: those of the module that it doesn't declare itself.
///
/// # Errors
/// Want of memory.
pub fn alone<'a>(
    alloc: Global,
    members: &Names<'a>,
    definitions: &[Definition<'a>],
) -> Result<Vec<Row<'a>>, AllocError>
    ensures { IfOk result (λ rows. Alone (rows_of members.now.rows.items) (definitions_of definitions.now) (rows_of rows.items)) }
{
    let mut rows = Vec::new(alloc);
    for d in definitions {
        push_alone(&mut rows, members, *d)?;
    }
    Ok(rows)
}
