//! Labels of functions.

ghost use Rattle.std.specs.Prelude.{◌≡◌, ◌++◌, IfOk, option_copied};
ghost use Rattle.limbo_tree.specs.View.{name_of};
ghost use Rattle.limbo_top.specs.View.{definitions_of};
ghost use Rattle.limbo_defined.specs.Labels as labels;
ghost use Rattle.limbo_defined.specs.View.{wanted_of};

use crate::wants::Wanted;
use inf_text::Text;
use limbo_top::Definition;
use limbo_tree::Name;
use std::alloc::{AllocError, Global};

// Adds a name with a mark before each character.
fn push_marked(chars: &mut Vec<char>, name: &[char]) -> Result<(), AllocError>
    ensures { IfOk result (λ _. chars.new.items ≡ chars.old.items ++ labels.marked name.now) }
{
    for c in name {
        chars.push('\u{1}')?;
        chars.push(*c)?;
    }
    Ok(())
}

/// The label of a function, by its name or by its adt's and its own.
///
/// # Errors
/// Want of memory.
pub fn label(alloc: Global, name: &Text, part: Option<&Text>) -> Result<Text, AllocError>
    ensures { IfOk result (λ t. t ≡ labels.label name.now (option_copied part.entry)) }
{
    let mut chars = Vec::new(alloc);
    push_marked(&mut chars, name.as_slice())?;
    match part {
        None => chars.push('\0')?,
        Some(part) => {
            chars.push('\u{2}')?;
            chars.extend_from_slice(part.as_slice())?;
        }
    }
    Ok(Text::from_vec(chars))
}

// The text of a name that may be absent.
fn text_in<'a>(name: &'a Option<Name>) -> Option<&'a Text>
    ensures { option_copied result ≡ name_of name.now }
{
    match name {
        None => None,
        Some(name) => Some(&name.text),
    }
}

/// The labels of definitions.
///
/// # Errors
/// Want of memory.
pub fn labels_of(alloc: Global, definitions: &[Definition]) -> Result<Vec<Text>, AllocError>
    ensures { IfOk result (λ ts. ts.items ≡ labels.labels (definitions_of definitions.now)) }
{
    let mut all = Vec::with_capacity(alloc, definitions.len())?;
    for d in definitions {
        let text = label(alloc, &d.function.name.text, text_in(&d.function.part))?;
        all.push(text)?;
    }
    Ok(all)
}

/// The labels of functions that must be defined.
///
/// # Errors
/// Want of memory.
pub fn wanted_labels(alloc: Global, wanted: &[Wanted]) -> Result<Vec<Text>, AllocError>
    ensures { IfOk result (λ ts. ts.items ≡ labels.wanted_labels (wanted_of wanted.now)) }
{
    let mut all = Vec::with_capacity(alloc, wanted.len())?;
    for w in wanted {
        all.push(label(alloc, w.name, w.part)?)?;
    }
    Ok(all)
}
