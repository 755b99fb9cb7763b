//! The texts of the functions that a module declares.

ghost use Rattle.std.specs.Prelude.{◌≡◌, ◌++◌, [], ◌∷◌, map, IfOk, OnOk};
ghost use Rattle.std.specs.List.{flat_map};
ghost use Rattle.limbo_types.specs.View.{view_fn};
ghost use Rattle.limbo_adts.specs.Table.{defs_of};
ghost use Rattle.limbo_typed.specs.View.{view_declared, view_interface, view_module};
ghost use Rattle.link_sign.specs.Clashes.{texts_of};
ghost use Rattle.link_sign.specs.declared.builtin.TheConstants.{PRINT, FPRINT, SPRINT};
ghost use Rattle.declared_signs.specs.Declared.{AreDeclaredTexts, members};
ghost use Rattle.declared_signs.specs.Texts.{Adds};

use limbo_adts::Adts;
use limbo_typed::{Declared, Interface, TypedModule};
use limbo_types::FnTy;
use link_sign::{FPRINT, PRINT, SPRINT, sign_text};
use std::alloc::{AllocError, Global};

/// Puts the text of a function's type behind the others.
fn put(alloc: Global, adts: &Adts, f: &FnTy, texts: &mut Vec<Vec<u8>>) -> Result<(), AllocError>
    ensures { OnOk result (Adds (defs_of adts.now) adts.now.modules (view_fn f.now ∷ [])
        (texts_of texts.old.items) (texts_of texts.new.items)) }
{
    let text = sign_text(alloc, adts, f)?;
    texts.push(text)?;
    Ok(())
}

/// Puts the texts of functions that a module declares for others behind the others.
fn put_declared(
    alloc: Global,
    adts: &Adts,
    functions: &[Declared],
    texts: &mut Vec<Vec<u8>>,
) -> Result<(), AllocError>
    ensures { OnOk result (Adds (defs_of adts.now) adts.now.modules (map (λ f. f.of) (map view_declared functions.now))
        (texts_of texts.old.items) (texts_of texts.new.items)) }
{
    for function in functions {
        put(alloc, adts, &function.of, texts)?;
    }
    Ok(())
}

/// Puts the texts of a module type's functions behind the others.
fn put_members(
    alloc: Global,
    adts: &Adts,
    interface: &Interface,
    texts: &mut Vec<Vec<u8>>,
) -> Result<(), AllocError>
    ensures { OnOk result (Adds (defs_of adts.now) adts.now.modules (members (view_interface interface.now))
        (texts_of texts.old.items) (texts_of texts.new.items)) }
{
    for function in &interface.functions {
        put(alloc, adts, &function.of, texts)?;
    }
    Ok(())
}

/// Puts the texts of the functions of module types behind the others.
fn put_imported(
    alloc: Global,
    adts: &Adts,
    interfaces: &[Interface],
    texts: &mut Vec<Vec<u8>>,
) -> Result<(), AllocError>
    ensures { OnOk result (Adds (defs_of adts.now) adts.now.modules (flat_map members (map view_interface interfaces.now))
        (texts_of texts.old.items) (texts_of texts.new.items)) }
{
    for interface in interfaces {
        put_members(alloc, adts, interface, texts)?;
    }
    Ok(())
}

/// Puts the texts of the built-in prints behind the others.
fn put_prints(alloc: Global, texts: &mut Vec<Vec<u8>>) -> Result<(), AllocError>
    ensures { OnOk result (texts_of texts.new.items ≡ texts_of texts.old.items ++ PRINT ∷ FPRINT ∷ SPRINT ∷ []) }
{
    texts.push(Vec::from_slice(alloc, &PRINT)?)?;
    texts.push(Vec::from_slice(alloc, &FPRINT)?)?;
    texts.push(Vec::from_slice(alloc, &SPRINT)?)?;
    Ok(())
}

/// The texts of all functions that a module declares, and of the built-in prints.
///
/// # Errors
/// Want of memory.
pub fn declared_texts(alloc: Global, module: &TypedModule) -> Result<Vec<Vec<u8>>, AllocError>
    ensures { IfOk result (λ texts. AreDeclaredTexts (view_module «module».now) (texts_of texts.items)) }
{
    let mut texts = Vec::new(alloc);
    put_declared(alloc, &module.adts, &module.declared, &mut texts)?;
    put_imported(alloc, &module.adts, &module.interfaces, &mut texts)?;
    put_prints(alloc, &mut texts)?;
    Ok(texts)
}
