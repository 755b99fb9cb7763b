//! Whether functions are defined as they are declared.

ghost use Rattle.std.specs.Prelude.{◌≡◌, ℕ, List, None, Some, true, false, IfOk, IfErr, OnOk, IfSome, IfNone};
ghost use Rattle.std.specs.List.{Contains};
ghost use Rattle.limbo_tree.specs.View.{name_of};
ghost use Rattle.limbo_declarations.specs.declared.row.Row as code_row;
ghost use Rattle.limbo_declarations.specs.View.{rows_of};
ghost use Rattle.limbo_top.specs.declared.tops.Definition as code_definition;
ghost use Rattle.limbo_top.specs.View.{view_definition, definitions_of};
ghost use Rattle.limbo_defined.specs.Defined.{AreDefinedOnce, AllDefined, AllKnown};
ghost use Rattle.limbo_defined.specs.Labels as told;
ghost use Rattle.limbo_defined.specs.Refusals.{IsRefused};
ghost use Rattle.limbo_defined.specs.Sets.{IsSetOf, get_label};
ghost use Rattle.limbo_defined.specs.View.{view_wanted, wanted_of};
ghost use Rattle.limbo_defined.specs.Wanted as wants;

use crate::fault::DefinedFault;
use crate::inner::nested;
use crate::label::{label, labels_of, wanted_labels};
use crate::sets::set_of;
use crate::wants::{Wanted, all_wanted};
use inf_text::Text;
use limbo_declarations::{Names, NamesFault, index, look_up};
use limbo_top::Definition;
use std::alloc::{AllocError, Global};
use std::collections::BTreeMap;

// The set of what is defined, if nothing is twice.
fn defined_set<'a>(
    alloc: Global,
    definitions: &[Definition<'a>],
) -> Result<BTreeMap<Text, usize>, DefinedFault<'a>>
    ensures set { IfOk result (λ set. IsSetOf set (told.labels (definitions_of definitions.now))) }
    ensures once { OnOk result (AreDefinedOnce (definitions_of definitions.now)) }
    ensures refused { IfErr result (λ e. (members rows : List code_row.Row) → IsRefused members rows definitions.now e) }
{
    let labels = labels_of(alloc, definitions)?;
    match index(alloc, &labels) {
        Ok(index) => Ok(index),
        Err(NamesFault::NoMemory) => Err(DefinedFault::NoMemory),
        Err(NamesFault::Twice { row }) => {
            let second = definitions[row];
            Err(DefinedFault::Twice {
                path: second.path,
                at: second.function.name.span,
            })
        }
    }
}

// The first of the functions that must be defined and that are not in this set.
fn undefined<'a>(
    alloc: Global,
    set: &BTreeMap<Text, usize>,
    wanted: &[Wanted<'a>],
) -> Result<Option<Wanted<'a>>, AllocError>
    ensures some { IfOk result (λ o. IfSome o (λ w. Contains wanted.now w
        × (get_label set.now (told.label (view_wanted w).name (view_wanted w).part) ≡ None))) }
    ensures none { IfOk result (λ o. IfNone o ((w : wants.Wanted) → Contains (wanted_of wanted.now) w
        → get_label set.now (told.label w.name w.part) ≡ None → ⊥)) }
{
    for w in wanted {
        let text = label(alloc, w.name, w.part)?;
        if look_up(set, &text).is_none() {
            return Ok(Some(*w));
        }
    }
    Ok(None)
}

// Whether a function is in this set, if it is one of an adt.
fn is_known(alloc: Global, set: &BTreeMap<Text, usize>, d: Definition) -> Result<bool, AllocError>
    ensures yes { IfOk result (λ b. (f : List ℕ) → b ≡ true → name_of d.entry.function.now.part ≡ Some f
        → get_label set.now (told.label d.entry.function.now.name.text (Some f)) ≡ None → ⊥) }
    ensures no { IfOk result (λ b. b ≡ false → (f : List ℕ) × (name_of d.entry.function.now.part ≡ Some f)
        × (get_label set.now (told.label d.entry.function.now.name.text (Some f)) ≡ None)) }
{
    match &d.function.part {
        None => Ok(true),
        Some(part) => {
            let text = label(alloc, &d.function.name.text, Some(&part.text))?;
            Ok(look_up(set, &text).is_some())
        }
    }
}

// The first of the definitions of adts' functions that are not in this set.
fn unknown<'a>(
    alloc: Global,
    set: &BTreeMap<Text, usize>,
    definitions: &[Definition<'a>],
) -> Result<Option<Definition<'a>>, AllocError>
    ensures some { IfOk result (λ o. IfSome o (λ d. (f : List ℕ) × Contains definitions.now d × ((view_definition d).part ≡ Some f)
        × (get_label set.now (told.label (view_definition d).name (Some f)) ≡ None))) }
    ensures none { IfOk result (λ o. IfNone o ((d : code_definition.Definition) (f : List ℕ) → Contains definitions.now d
        → (view_definition d).part ≡ Some f → get_label set.now (told.label (view_definition d).name (Some f)) ≡ None → ⊥)) }
{
    for d in definitions {
        if !is_known(alloc, set, *d)? {
            return Ok(Some(*d));
        }
    }
    Ok(None)
}

/// That each function is defined that the implemented module declares, or an adt that stands in no other module; that none is defined
/// twice; and that the adts declare each of their functions that is defined. `members` are the names of the implemented module, `rows`
/// those of the top level.
///
/// # Errors
/// Want of memory. The other refusals exactly where one of these doesn't hold.
pub fn all_defined<'a>(
    alloc: Global,
    members: &Names<'a>,
    rows: &Names<'a>,
    definitions: &[Definition<'a>],
) -> Result<(), DefinedFault<'a>>
    ensures once { OnOk result (AreDefinedOnce (definitions_of definitions.now)) }
    ensures defined { OnOk result (AllDefined (rows_of members.now.rows.items) (rows_of rows.now.rows.items)
        (definitions_of definitions.now)) }
    ensures known { OnOk result (AllKnown (rows_of members.now.rows.items) (rows_of rows.now.rows.items)
        (definitions_of definitions.now)) }
    ensures refused { IfErr result (λ e. IsRefused members.now.rows.items rows.now.rows.items definitions.now e) }
{
    let defined = defined_set(alloc, definitions)?;
    if let Some((path, name)) = nested(&rows.rows) {
        return Err(DefinedFault::Undefined {
            path,
            at: name.span,
        });
    }
    let wanted = all_wanted(alloc, &members.rows, &rows.rows)?;
    if let Some(lacking) = undefined(alloc, &defined, &wanted)? {
        return Err(DefinedFault::Undefined {
            path: lacking.path,
            at: lacking.at,
        });
    }
    let labels = wanted_labels(alloc, &wanted)?;
    let declared = set_of(alloc, &labels)?;
    if let Some(d) = unknown(alloc, &declared, definitions)? {
        return Err(DefinedFault::Undeclared {
            path: d.path,
            at: d.function.name.span,
        });
    }
    Ok(())
}
