//! The typed module.

ghost use Rattle.std.specs.Prelude.{◌≡◌, List, length, map, IfOk, IfErr};
ghost use Rattle.limbo_typed.specs.View.{view_declared, view_function, view_module};
ghost use Rattle.limbo_declarations.specs.Rows as rows;
ghost use Rattle.limbo_top.specs.View.{placed};
ghost use Rattle.limbo_entries.specs.Entries.{IsTable, AreOnce};
ghost use Rattle.limbo_entries.specs.View.{entries_of};
ghost use Rattle.limbo_constant_values.specs.Valuing.{AreValues};
ghost use Rattle.limbo_meanings.specs.Meanings.{AreMeanings};
ghost use Rattle.limbo_context.specs.Context as context;
ghost use Rattle.limbo_context.specs.View.{view_context, view_callee};
ghost use Rattle.limbo_stmt_values.specs.limbo_stating.Functions.{AreFunctions, FailsSomeFunction};
ghost use Rattle.limbo_functions.specs.limbo_stated_sound.Named.{IsMadeOf};
ghost use Rattle.limbo_functions.specs.limbo_stmts.View.{view_point};
ghost use Rattle.limbo_functions.specs.View.{definitions_of};
ghost use Rattle.limbo_functions.specs.Outside.{outside_of};
ghost use Rattle.limbo_modules.specs.Declaring.{AreDeclared};
ghost use Rattle.limbo_modules.specs.Found.{view_found};
ghost use Rattle.limbo_modules.specs.Known.{IsKnown};
ghost use Rattle.limbo_modules.specs.Modules.{IsModule};
ghost use Rattle.limbo_modules.specs.Faults.{FailsWith, Tells};
ghost use Rattle.limbo_modules.specs.Failing.{FailsModule};

use crate::copying::{copy_callees, functions_of};
use crate::declared::declared_functions;
use crate::fault::{ModuleFault, refused};
use crate::finding::{FindFault, Found, find_definitions};
use crate::known::find_known;
use crate::refusing::undefined;
use inf_text::Text;
use limbo_context::{Body, Callee, Context};
use limbo_declare::Declarations;
use limbo_functions::limbo_stmts::Point;
use limbo_functions::{FunctionFault, check_functions};
use limbo_includes::Standing;
use limbo_scope::Scopes;
use limbo_source_context::SourceContext;
use limbo_tree::Function;
use limbo_typed::{Declared, Initial, TFn, TypedModule};
use std::alloc::{AllocError, Global};

// What is wanted beside what is known: the module's name, what its functions take and answer, where they are defined, and what the module
// declares for others.
#[derive(Drop)]
struct Prepared<'a> {
    name: Text,
    callees: Vec<Callee>,
    definitions: Vec<&'a Function>,
    declared: Vec<Declared>,
}

fn prepare<'a>(
    alloc: Global,
    name: &Text,
    declarations: &Declarations<'_>,
    known: &SourceContext,
    found: &[Found<'a>],
) -> Result<Prepared<'a>, AllocError>
    requires meanings { AreMeanings (entries_of declarations.now.table.entries.items) declarations.now.implemented
        known.now.meanings.items }
    ensures name { IfOk result (λ p. p.name ≡ name.now) }
    ensures callees { IfOk result (λ p. map view_callee p.callees.items ≡ map view_callee known.now.context.functions.items) }
    ensures definitions { IfOk result (λ p. definitions_of p.definitions.items ≡ view_found found.now) }
    ensures declared { IfOk result (λ p. AreDeclared (entries_of declarations.now.table.entries.items) declarations.now.implemented
        (map view_callee known.now.context.functions.items) (map view_declared p.declared.items)) }
{
    let functions = &known.context.functions;
    Ok(Prepared {
        name: name.clone()?,
        callees: copy_callees(alloc, functions)?,
        definitions: functions_of(alloc, found)?,
        declared: declared_functions(
            alloc,
            &declarations.table,
            declarations.implemented,
            &known.meanings,
            functions,
        )?,
    })
}

// Where the checking stands outside of all functions.
fn outside(alloc: Global, context: Context, scopes: Scopes) -> Point
    ensures { view_point result ≡ outside_of (view_context context) scopes }
{
    Point {
        context,
        body: Body {
            scopes,
            variables: Vec::new(alloc),
        },
        catches: 0,
    }
}

// The module of what is known behind the functions.
fn assemble(
    name: Text,
    context: Context,
    functions: Vec<TFn>,
    declared: Vec<Declared>,
    initials: Vec<Initial>,
) -> TypedModule
    ensures name { result.name ≡ name }
    ensures initials { result.initials ≡ initials }
    ensures declared { result.declared ≡ declared }
    ensures functions { result.functions ≡ functions }
    ensures made { IsMadeOf (view_module result) (view_context context) (map view_function functions.items) }
{
    let Context {
        adts,
        interfaces,
        globals,
        exceptions,
        system,
        ..
    } = context;
    TypedModule {
        name,
        adts,
        globals,
        initials,
        functions,
        declared,
        interfaces,
        system,
        exceptions,
    }
}

// The refusal of a function, in the text in which it is defined.
fn of_function(found: &[Found<'_>], fault: FunctionFault) -> ModuleFault
    ensures { Tells fault.fault.why result }
{
    let FunctionFault { number, fault } = fault;
    match found.get(number) {
        Some(definition) => refused(definition.path, fault.why, fault.at),
        None => ModuleFault::NoMemory,
    }
}

// The module of these definitions.
fn check_defined(
    alloc: Global,
    prepared: Prepared<'_>,
    known: SourceContext,
    found: &[Found<'_>],
) -> Result<TypedModule, ModuleFault>
    requires one_each { length prepared.callees.items ≡ length prepared.definitions.items }
    ensures name { IfOk result (λ m. m.name ≡ prepared.entry.name) }
    ensures initials { IfOk result (λ m. m.initials ≡ known.initials) }
    ensures declared { IfOk result (λ m. m.declared ≡ prepared.entry.declared) }
    ensures functions { IfOk result (λ m. (c : context.Context) × AreFunctions prepared.entry.name known.scopes
        (map view_callee prepared.entry.callees.items) (definitions_of prepared.entry.definitions.items)
        (view_context known.context) (map view_function m.functions.items) c
        × IsMadeOf (view_module m) c (map view_function m.functions.items)) }
    ensures refused { IfErr result (λ f. FailsWith f (FailsSomeFunction prepared.entry.name known.scopes
        (map view_callee prepared.entry.callees.items) (definitions_of prepared.entry.definitions.items)
        (view_context known.context))) }
{
    let Prepared {
        name,
        callees,
        definitions,
        declared,
    } = prepared;
    let SourceContext {
        context,
        scopes,
        initials,
        ..
    } = known;
    let mut point = outside(alloc, context, scopes);
    match check_functions(alloc, &name, &mut point, &callees, &definitions) {
        Err(fault) => Err(of_function(found, fault)),
        Ok(functions) => {
            let Point { context, .. } = point;
            Ok(assemble(name, context, functions, declared, initials))
        }
    }
}

// The module, by what is known around its functions.
fn check_known(
    alloc: Global,
    name: &Text,
    tops: &[Standing<'_>],
    declarations: &Declarations<'_>,
    known: SourceContext,
) -> Result<TypedModule, ModuleFault>
    requires once { AreOnce (entries_of declarations.now.table.entries.items) }
    requires known { IsKnown (entries_of declarations.now.table.entries.items) declarations.now.implemented name.now known }
    ensures module { IfOk result (λ m. IsModule name.now (placed tops.now) (entries_of declarations.now.table.entries.items)
        declarations.now.implemented (view_module m)) }
    ensures fails { IfErr result (λ f. FailsWith f (FailsModule name.now (placed tops.now)
        (entries_of declarations.now.table.entries.items) declarations.now.implemented)) }
{
    let Declarations {
        table,
        implemented,
        ..
    } = declarations;
    match find_definitions(
        alloc,
        table,
        *implemented,
        &known.meanings,
        tops,
        known.context.functions.len(),
    ) {
        Err(FindFault::NoMemory) => Err(ModuleFault::NoMemory),
        Err(FindFault::Undefined { number }) => Err(undefined(table, &known.meanings, number)),
        Ok(found) => match prepare(alloc, name, declarations, &known, &found) {
            Err(_) => Err(ModuleFault::NoMemory),
            Ok(prepared) => check_defined(alloc, prepared, known, &found),
        },
    }
}

/// The typed module of a source that implements the module of this name, has this at its top level, with all that it includes, and declares
/// this (Limbo Language Reference, modules, functions and statements).
///
/// # Errors
/// Want of memory. `Refused` with the first refusal that is met, in the order: types that are declared and what is known around the
/// functions (42, 50, 55), types that values may not have (51, 53, 55), functions that nothing defines (42), and the functions, in the
/// order of their numbers (41 to 43, 50 to 55, 60 to 64).
pub fn check_module(
    alloc: Global,
    name: &Text,
    tops: &[Standing<'_>],
    declarations: &Declarations<'_>,
) -> Result<TypedModule, ModuleFault>
    requires once { AreOnce (entries_of declarations.now.table.entries.items) }
    requires table { (top : List rows.Row) × IsTable top (entries_of declarations.now.table.entries.items) }
    requires values { AreValues (entries_of declarations.now.table.entries.items) declarations.now.implemented
        declarations.now.values.items }
    ensures module { IfOk result (λ m. IsModule name.now (placed tops.now) (entries_of declarations.now.table.entries.items)
        declarations.now.implemented (view_module m)) }
    ensures fails { IfErr result (λ f. FailsWith f (FailsModule name.now (placed tops.now)
        (entries_of declarations.now.table.entries.items) declarations.now.implemented)) }
{
    match find_known(alloc, name, declarations) {
        Err(fault) => Err(fault),
        Ok(known) => check_known(alloc, name, tops, declarations, known),
    }
}
