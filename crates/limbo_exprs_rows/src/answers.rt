//! What is said of a row. Trees aren't let go, as the program ends soon.

ghost use Rattle.std.specs.Prelude.{List, map};
ghost use Rattle.limbo_declarations.specs.Rows as rows;
ghost use Rattle.limbo_entries.specs.Entries.{IsTable, AreOnce};
ghost use Rattle.limbo_entries.specs.View.{entries_of};
ghost use Rattle.limbo_naming.specs.Told.{IsNaming};
ghost use Rattle.limbo_naming.specs.declared.naming.Naming as naming;
ghost use Rattle.limbo_type_names.specs.Told.{AreTypesOf};
ghost use Rattle.limbo_constant_values.specs.Valuing.{AreValues};
ghost use Rattle.limbo_context.specs.View.{view_callee};
ghost use Rattle.limbo_meanings.specs.Meanings.{AreMeanings};
ghost use Rattle.limbo_outline.specs.Outline.{FunctionsAre};

use crate::shown::type_of;
use crate::source::{files, source, text};
use inf_text::Text;
use limbo_bodies::{begin_body, head_definition};
use limbo_context::{Body, Context};
use limbo_declare::{Declarations, declare};
use limbo_exprs::check;
use limbo_includes::{Included, flatten};
use limbo_lexer::lex;
use limbo_naming::Naming;
use limbo_parser::parse;
use limbo_source_context::{SourceContext, source_context};
use limbo_tree::{Function, Source, Stmt, Top};
use limbo_type_names::TypeNames;
use source_files::read_included;
use std::alloc::{AllocError, Global};
use std::mem::forget;

// The type of the last of some expressions, or the first refusal.
fn checked(
    alloc: Global,
    context: &Context,
    body: &mut Body,
    statements: &[Stmt],
) -> Result<String, AllocError> {
    let mut said = format!(in alloc; "no expression")?;
    for statement in statements {
        let Stmt::Eval { value, .. } = statement else {
            return format!(in alloc; "no expression");
        };
        match check(alloc, context, body, value) {
            Ok(x) => said = type_of(alloc, context, &x.ty)?,
            Err(fault) => {
                return match fault.cause.number() {
                    Some(number) => format!(in alloc; "{number}"),
                    None => Err(AllocError),
                };
            }
        }
    }
    Ok(said)
}

// The last function of a source.
fn last_function(source: &Source) -> Option<&Function> {
    match source.tops.last() {
        Some(Top::Define { function }) => Some(function),
        _ => None,
    }
}

// What is said of the last function of a source.
fn of_function(
    alloc: Global,
    declared: &Declarations<'_>,
    names: &TypeNames<'_, '_, '_>,
    known: SourceContext,
    function: &Function,
) -> Result<String, AllocError>
    requires types { (n : naming.Naming) × IsNaming declared.now.table declared.now.implemented n × AreTypesOf n names.now }
    requires once { AreOnce (entries_of declared.now.table.entries.items) }
    requires meanings { AreMeanings (entries_of declared.now.table.entries.items) declared.now.implemented known.meanings.items }
    requires functions { FunctionsAre (entries_of declared.now.table.entries.items) declared.now.implemented
        (map view_callee known.context.functions.items) }
{
    let SourceContext {
        context,
        scopes,
        meanings,
        ..
    } = known;
    let Declarations {
        table,
        implemented,
        ..
    } = declared;
    let Ok(defined) = head_definition(
        alloc,
        table,
        names,
        *implemented,
        &meanings,
        &context.functions,
        function,
    ) else {
        return format!(in alloc; "no such function");
    };
    let Ok(mut body) = begin_body(alloc, scopes, &function.of, &defined.of) else {
        return format!(in alloc; "no body");
    };
    let said = checked(alloc, &context, &mut body, &function.body.statements);
    forget(context);
    forget(body);
    said
}

// The same of what a source declares.
fn of_declared(
    alloc: Global,
    source: &Source,
    module_name: &Text,
    declared: &Declarations<'_>,
) -> Result<String, AllocError>
    requires once { AreOnce (entries_of declared.now.table.entries.items) }
    requires table { (top : List rows.Row) × IsTable top (entries_of declared.now.table.entries.items) }
    requires values { AreValues (entries_of declared.now.table.entries.items) declared.now.implemented declared.now.values.items }
{
    let Declarations {
        table,
        implemented,
        values,
    } = declared;
    let naming = Naming::new(alloc, table, *implemented)?;
    let Ok(names) = TypeNames::new(alloc, &naming) else {
        return format!(in alloc; "a type that is none");
    };
    let Some(function) = last_function(source) else {
        return format!(in alloc; "no function");
    };
    match source_context(
        alloc,
        table,
        &naming,
        &names,
        *implemented,
        module_name,
        values,
    ) {
        Ok(known) => of_function(alloc, declared, &names, known, function),
        Err(fault) => format!(in alloc; "no context: {}", fault.number()),
    }
}

// The same of a source with the texts that it includes.
fn flattened(
    alloc: Global,
    path: &Text,
    source: &Source,
    included: &[Included],
) -> Result<String, AllocError> {
    let Ok(tops) = flatten(alloc, path, source, included) else {
        return format!(in alloc; "a text that isn't included");
    };
    let Some(name) = &source.implements else {
        return format!(in alloc; "no module");
    };
    let Ok(declared) = declare(alloc, &name.text, &tops) else {
        return format!(in alloc; "a name that isn't declared");
    };
    of_declared(alloc, source, &name.text, &declared)
}

// What is said of a source.
fn said(alloc: Global, source: &Source) -> Result<String, AllocError> {
    let path = text(alloc, "t.b")?;
    let mut files = files(alloc);
    let Ok(included) = read_included(alloc, &path, source, &mut files) else {
        return format!(in alloc; "a text that isn't read");
    };
    let said = flattened(alloc, &path, source, &included);
    forget(included);
    said
}

/// The answer to a line.
///
/// # Errors
/// Want of memory.
pub fn answer(alloc: Global, line: &str) -> Result<String, AllocError> {
    let source = source(alloc, line)?;
    let Ok(tokens) = lex(alloc, source.as_bytes()) else {
        return format!(in alloc; "no tokens");
    };
    let Ok(tree) = parse(alloc, &tokens, false) else {
        return format!(in alloc; "no tree");
    };
    let said = said(alloc, &tree);
    forget(tree);
    said
}
