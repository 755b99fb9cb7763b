//! Rows of adts and their layouts that are written out by hand: a test of `limbo_adts` whose answers are data.
//!
//! Each line of the input is the name of a row and a number, and each line of the output what the calls of this row answered.
#![tactic(auto)]

ghost use Rattle.std.specs.Prelude.{◌≡◌, ◌<◌, [], ◌∷◌, List, IfOk, length};
ghost use Rattle.limbo_types.specs.View.{view_ty, view_tys};
ghost use Rattle.limbo_layout.specs.Adts.{Def, Names, AllName};
ghost use Rattle.limbo_layout.specs.View.{view_defs};
ghost use Rattle.limbo_adts_rows.specs.Rows.{one};

use inf_text::Text;
use limbo_adts::Adts;
use limbo_layout::{AdtDef, AdtsFault, Field, LayoutFault};
use limbo_types::Ty;
use std::alloc::{AllocError, Global};
use std::io;

/// The one adt of one field.
fn single(alloc: Global, ty: Ty) -> Result<AdtDef, AllocError>
    ensures { IfOk result (λ d. view_defs (d ∷ []) ≡ one (view_ty ty)) }
{
    let field = Field {
        name: Text::new(alloc),
        ty,
    };
    Ok(AdtDef {
        name: Text::new(alloc),
        fields: vec![in alloc; field]?,
        picks: Vec::new(alloc),
    })
}

/// What is told of adt 0: its size, its words that refer, and what it reaches.
fn told(alloc: Global, adts: &Adts) -> Result<String, AdtsFault>
    requires { 0 < length adts.now.adts }
{
    let reached = (
        adts.reaches(&Ty::Adt(0), &Ty::RefAdt(0)),
        adts.reaches(&Ty::RefAdt(0), &Ty::Int),
    );
    match adts.layout(alloc, &Ty::Adt(0)) {
        Ok(layout) => {
            let referring = layout
                .map
                .iter()
                .filter(|is_reference| **is_reference)
                .count();
            Ok(format!(in alloc; "{} {referring} {reached:?}", layout.size)?)
        }
        Err(LayoutFault::TooLarge) => Err(AdtsFault::TooLarge { adt: 0 }),
        Err(LayoutFault::NoMemory) => Err(AdtsFault::NoMemory),
    }
}

/// The one adt of a field of this type, in a table that is made of it.
fn made(alloc: Global, ty: Ty) -> Result<String, AdtsFault>
    requires { Names (one (view_ty ty)) 0 (view_ty ty) }
{
    let defs = vec![in alloc; single(alloc, ty)?]?;
    let adts = Adts::new(alloc, defs, Vec::new(alloc))?;
    told(alloc, &adts)
}

/// The same in a table that was empty before.
fn grown(alloc: Global, ty: Ty) -> Result<String, AdtsFault>
    requires { Names (one (view_ty ty)) 0 (view_ty ty) }
{
    let empty = Adts::new(alloc, Vec::new(alloc), Vec::new(alloc))?;
    let adts = empty.with(alloc, single(alloc, ty)?)?;
    told(alloc, &adts)
}

/// A tuple of so many ints.
fn ints(alloc: Global, count: u32) -> Result<Ty, AllocError>
    ensures { IfOk result (λ t. (defs : List Def) → Names defs 0 (view_ty t)) }
{
    let mut parts = Vec::new(alloc);
    for _ in 0..count {
        parts.push(Ty::Int)?;
    }
    Ok(Ty::Tuple(parts))
}

/// A byte, a big and an int.
fn numbers(alloc: Global) -> Result<Ty, AllocError>
    ensures { IfOk result (λ t. (defs : List Def) → Names defs 0 (view_ty t)) }
{
    Ok(Ty::Tuple(vec![in alloc; Ty::Byte, Ty::Big, Ty::Int]?))
}

fn row(alloc: Global, name: &str, count: u32) -> Result<String, AdtsFault> {
    match name {
        "itself" => made(alloc, Ty::Adt(0)),
        "ref" => made(alloc, Ty::RefAdt(0)),
        "numbers" => made(alloc, numbers(alloc)?),
        "ints" => made(alloc, ints(alloc, count)?),
        "more" => grown(alloc, Ty::RefAdt(0)),
        _ => Err(AdtsFault::NoMemory),
    }
}

/// What a row answered, as text.
fn answer(alloc: Global, row: Result<String, AdtsFault>) -> Result<String, AllocError> {
    match row {
        Ok(text) => Ok(text),
        Err(AdtsFault::TooLarge { adt }) => Ok(format!(in alloc; "too large: {adt}")?),
        Err(AdtsFault::NoMemory) => Ok(format!(in alloc; "no memory")?),
    }
}

fn main(rt: HostRuntime) -> io::Result<()> {
    let alloc = rt.alloc();
    for line in rt.lines(alloc) {
        let line = line?;
        let (name, count) = line.as_str().split_once(' ').unwrap_or(("", ""));
        let count = count.parse::<u32>().unwrap_or(0);
        let told = answer(alloc, row(alloc, name, count))?;
        println!(rt; "{name} {count}: {told}")?;
    }
    Ok(())
}
