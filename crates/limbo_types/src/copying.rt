ghost use Rattle.std.specs.Prelude.{◌≡◌, IfOk, map};
ghost use Rattle.limbo_types.specs.View.{view_ty, view_fn};

use crate::ty::{FnTy, Ty};
use std::alloc::{AllocError, Global};

/// The same type once more.
///
/// # Errors
/// Want of memory.
#[tactic(auto, using(crate::proofs::View::the_types))]
#[cycle(copying)]
pub fn copy(alloc: Global, t: &Ty) -> Result<Ty, AllocError>
    ensures { IfOk result (λ copied. view_ty copied ≡ view_ty t.now) }
{
    match t {
        Ty::Byte => Ok(Ty::Byte),
        Ty::Int => Ok(Ty::Int),
        Ty::Big => Ok(Ty::Big),
        Ty::Chars => Ok(Ty::Chars),
        Ty::Nothing => Ok(Ty::Nothing),
        Ty::Nil => Ok(Ty::Nil),
        Ty::Array(item) => Ok(Ty::Array(Box::new(alloc, copy(alloc, item)?)?)),
        Ty::List(item) => Ok(Ty::List(Box::new(alloc, copy(alloc, item)?)?)),
        Ty::Chan(item) => Ok(Ty::Chan(Box::new(alloc, copy(alloc, item)?)?)),
        Ty::Tuple(parts) => Ok(Ty::Tuple(copy_all(alloc, parts)?)),
        Ty::Adt(number) => Ok(Ty::Adt(*number)),
        Ty::RefAdt(number) => Ok(Ty::RefAdt(*number)),
        Ty::RefPick { adt, variant } => Ok(Ty::RefPick {
            adt: *adt,
            variant: *variant,
        }),
        Ty::Module(number) => Ok(Ty::Module(*number)),
    }
}

/// The same types once more, in their order.
///
/// # Errors
/// Want of memory.
#[tactic(auto, using(crate::proofs::View::the_types))]
#[cycle(copying)]
pub fn copy_all(alloc: Global, ts: &[Ty]) -> Result<Vec<Ty>, AllocError>
    ensures { IfOk result (λ copied. map view_ty copied.items ≡ map view_ty ts.now) }
{
    let mut copies = Vec::new(alloc);
    for t in ts {
        copies.push(copy(alloc, t)?)?;
    }
    Ok(copies)
}

/// The same function type once more.
///
/// # Errors
/// Want of memory.
pub fn copy_fn(alloc: Global, f: &FnTy) -> Result<FnTy, AllocError>
    ensures { IfOk result (λ copied. view_fn copied ≡ view_fn f.now) }
{
    Ok(FnTy {
        args: copy_all(alloc, &f.args)?,
        answer: copy(alloc, &f.answer)?,
    })
}
