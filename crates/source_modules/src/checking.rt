//! The typed module of a source.

ghost use Rattle.std.specs.Prelude.{◌≡◌, ℕ, List, IfOk, IfErr};
ghost use Rattle.inf_ports.specs.Outside.{Told};
ghost use Rattle.limbo_tree.specs.View.{view_source};
ghost use Rattle.limbo_top.specs.View.{placed};
ghost use Rattle.limbo_entries.specs.View.{entries_of};
ghost use Rattle.limbo_constant_values.specs.Valuing.{AreValues};
ghost use Rattle.limbo_declare.specs.Declares.{Declares};
ghost use Rattle.limbo_typed.specs.Typed as typed;
ghost use Rattle.limbo_typed.specs.View as typed_view;
ghost use Rattle.limbo_modules.specs.Modules.{IsModule};
ghost use Rattle.limbo_modules.specs.Failing.{FailsModule};
ghost use Rattle.source_names.specs.View.{AreRead};
ghost use Rattle.source_names.specs.Declares.{HasRow};
ghost use Rattle.source_modules.specs.Failing.{FailsBy};
ghost use Rattle.source_modules.specs.Given.{Begins, Gives, GivesModule, FailsNamed};

use crate::fault::{ModuleFault, of_module, of_names};
use inf_text::Text;
use limbo_includes::Included;
use limbo_modules::{check_module, declares_init};
use limbo_tree::Source;
use limbo_typed::TypedModule;
use source_names::{Named, names_of};
use std::alloc::{AllocError, Global};

/// What is told of the typed module of a source.
#[derive(Drop)]
pub struct Checked {
    /// Whether it declares `init` as a program's first module has to.
    pub begins: bool,
    /// The typed module itself.
    pub module: Box<TypedModule>,
}

// What is told of a typed module.
fn given(alloc: Global, named: &Named<'_>, checked: TypedModule) -> Result<Checked, AllocError>
    ensures begins { IfOk result (λ c. Begins (entries_of named.now.declarations.table.entries.items)
        named.now.declarations.implemented (typed_view.view_module checked) c.begins) }
    ensures same { IfOk result (λ c. c.module.value ≡ checked) }
{
    let declarations = &named.declarations;
    let module = Box::new(alloc, checked)?;
    let begins = declares_init(
        alloc,
        &declarations.table,
        declarations.implemented,
        &module,
    )?;
    Ok(Checked { begins, module })
}

// What is told of the typed module of a source with these names.
fn check_named(alloc: Global, named: &Named<'_>) -> Result<Checked, ModuleFault>
    requires declares { Declares named.now.name.now (placed named.now.row.items)
        (entries_of named.now.declarations.table.entries.items) named.now.declarations.implemented }
    requires values { AreValues (entries_of named.now.declarations.table.entries.items) named.now.declarations.implemented
        named.now.declarations.values.items }
    ensures checked { IfOk result (GivesModule named.now.name.now (placed named.now.row.items)
        (entries_of named.now.declarations.table.entries.items) named.now.declarations.implemented) }
    ensures fails { IfErr result (FailsNamed named.now.name.now (placed named.now.row.items)
        (entries_of named.now.declarations.table.entries.items) named.now.declarations.implemented) }
{
    match check_module(alloc, named.name, &named.row, &named.declarations) {
        Err(fault) => Err(of_module(fault)),
        Ok(checked) => match given(alloc, named, checked) {
            Ok(told) => Ok(told),
            Err(_) => Err(ModuleFault::NoMemory),
        },
    }
}

/// What is told of the typed module that a source is, with the texts that it includes; these are what was read for it (Limbo Language
/// Reference, modules and include).
///
/// # Errors
/// Want of memory. `Refused` with the number of a refusal of names (40 to 44), or of types, functions and statements (41 to 43, 50 to 55,
/// 60 to 64), the path of the text and the place in it.
pub fn check_source(
    alloc: Global,
    path: &Text,
    source: &Source,
    texts: &[Included],
) -> Result<Checked, ModuleFault>
    ensures checked { IfOk result (λ c. (told : Told) → AreRead told path.now source.now texts.now
        → Gives told path.now (view_source source.now) c) }
    ensures fails { IfErr result (λ e. (told : Told) → AreRead told path.now source.now texts.now
        → FailsBy told path.now (view_source source.now) e) }
{
    match names_of(alloc, path, source, texts) {
        Err(fault) => Err(of_names(fault)),
        Ok(named) => check_named(alloc, &named),
    }
}
