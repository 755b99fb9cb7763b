//! Types that are entered in the tables.

ghost use Rattle.std.specs.Prelude.{◌≡◌, ℕ, pos, List, [], ◌∷◌, ◌++◌, Some, slice_get, IfOk, IfSome, OnOk, take};
ghost use Rattle.dis_isa.specs.declared.inst.Inst.{Inst as AnyInst};
ghost use Rattle.dis_memory.specs.Step.{type_of_size};
ghost use Rattle.dis_loading.specs.Growing.{first_types, plain_asked, Extends, HasAsked, HasPlainType};

use dis_file::TypeDesc;
use dis_isa::{Inst, Op, Operand};
use inf_text::Seq;
use std::alloc::{AllocError, Global};

// A type of plain words that takes so many bytes.
fn plain(alloc: Global, size: u32) -> TypeDesc
    ensures { result ≡ type_of_size size [] }
{
    TypeDesc {
        size,
        map: Seq::new(alloc),
    }
}

// A reference.
fn reference(alloc: Global) -> Result<TypeDesc, AllocError>
    ensures { IfOk result (λ desc. desc ≡ type_of_size 4 (128 ∷ [])) }
{
    let mut map = Vec::new(alloc);
    map.push(128)?;
    Ok(TypeDesc {
        size: 4,
        map: Seq::from_vec(map),
    })
}

/// The types that come first in each table: of a byte, a word, a big and a reference.
pub(crate) fn first(alloc: Global) -> Result<Vec<TypeDesc>, AllocError>
    ensures { IfOk result (λ types. types.items ≡ first_types) }
{
    let mut types = Vec::with_capacity(alloc, 4)?;
    types.push(plain(alloc, 1))?;
    types.push(plain(alloc, 4))?;
    types.push(plain(alloc, 8))?;
    types.push(reference(alloc)?)?;
    Ok(types)
}

// A type once more.
fn copied(alloc: Global, desc: &TypeDesc) -> Result<TypeDesc, AllocError>
    ensures { IfOk result (λ copy. copy ≡ desc.now) }
{
    let map = desc.map.as_slice().to_vec(alloc)?;
    Ok(TypeDesc {
        size: desc.size,
        map: Seq::from_vec(map),
    })
}

/// Enters these types, in their order.
pub(crate) fn enter(
    alloc: Global,
    types: &mut Vec<TypeDesc>,
    more: &[TypeDesc],
) -> Result<(), AllocError>
    ensures { OnOk result (types.new.items ≡ types.old.items ++ more.now) }
{
    for desc in more {
        types.push(copied(alloc, desc)?)?;
    }
    Ok(())
}

// The number of the type of plain words that takes so many bytes.
fn find_plain(types: &[TypeDesc], size: u32) -> Option<usize>
    ensures { IfSome result (λ k. slice_get types.now k ≡ Some (type_of_size size [])) }
{
    for (k, desc) in types.iter().enumerate() {
        if desc.size == size && desc.map.len() == 0 {
            return Some(k);
        }
    }
    None
}

// Enters the type of plain words that takes so many bytes, unless it is there.
fn enter_plain(alloc: Global, types: &mut Vec<TypeDesc>, size: u32) -> Result<(), AllocError>
    ensures extends { OnOk result (Extends types.old.items types.new.items) }
    ensures there { OnOk result (HasPlainType types.new.items size) }
{
    match find_plain(types, size) {
        Some(_) => Ok(()),
        None => {
            types.push(plain(alloc, size))?;
            Ok(())
        }
    }
}

// The size of a channel's elements, where an instruction makes one of so many bytes.
fn channel_size(inst: Inst) -> Option<u32>
    ensures { result ≡ plain_asked inst }
{
    match inst.op {
        Op::Newcm => match inst.src {
            Operand::Imm(n) => u32::try_from(n).ok(),
            _ => None,
        },
        _ => None,
    }
}

// Enters the type of plain words that an instruction makes a channel of, if it makes one.
fn enter_asked(alloc: Global, types: &mut Vec<TypeDesc>, inst: Inst) -> Result<(), AllocError>
    ensures extends { OnOk result (Extends types.old.items types.new.items) }
    ensures there { OnOk result ((size : ℕ) → plain_asked inst ≡ Some size → HasPlainType types.new.items size) }
{
    match channel_size(inst) {
        Some(size) => enter_plain(alloc, types, size),
        None => Ok(()),
    }
}

/// Enters the types of plain words that instructions make channels of.
pub(crate) fn enter_plains(
    alloc: Global,
    types: &mut Vec<TypeDesc>,
    insts: &[Inst],
) -> Result<(), AllocError>
    ensures extends { OnOk result (Extends types.old.items types.new.items) }
    ensures there { OnOk result (HasAsked types.new.items insts.now) }
{
    for inst in insts {
        enter_asked(alloc, types, *inst)?;
    }
    Ok(())
}
