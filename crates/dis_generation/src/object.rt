//! The object of a module.

ghost use Rattle.std.specs.Prelude.{◌≡◌, ◌+◌, ◌<◌, ◌≤◌, [], ◌∷◌, ◌++◌, ◌*◌, length, map, IfOk};
ghost use Rattle.std.specs.Option.{ForSome};
ghost use Rattle.slot_code.specs.View.{view_function, view_module};
ghost use Rattle.dis_objects.specs.Objects as objects;
ghost use Rattle.dis_objects.specs.Objects.{object_of, all_code, code_instructions, most_instructions};
ghost use Rattle.dis_objects.specs.Proper.{IsProper};
ghost use Rattle.dis_objects.specs.Words.{AllSmall};
ghost use Rattle.dis_objects.specs.Spelled.{AreSpelled};
ghost use Rattle.dis_generation.specs.Site.{IsReady};

use crate::fault::GenFault;
use crate::functions::{emit_entry, emit_functions};
use crate::sizes::entries_of;
use dis_file::{Import, Object};
use dis_isa::Inst;
use dis_objects::{
    Data, data_of, data_place, entry_length, find_init, imports_of_sys, links_of, types_of,
    zeros_bytes,
};
use inf_text::Seq;
use slot_code::{SlotFn, SlotModule};
use std::alloc::{AllocError, Global};

// The object has tables of functions that it calls.
const HAS_IMPORTS: u32 = 0x100;

// The code of a module.
fn code_of(
    alloc: Global,
    whole: &SlotModule,
    init: Option<usize>,
    zeros: u32,
    entries: &[u32],
) -> Result<Seq<Inst>, AllocError>
    requires ready { IsReady (view_module whole.now) zeros entries.now }
    requires within { ForSome init (λ n. n < length (view_module whole.now).functions) }
    ensures { let m = view_module whole.now in
        IfOk result (λ insts. insts ≡ objects.entry m.functions init ++ objects.functions_code m 0 (objects.data_place m) m.functions) }
{
    let mut insts = Vec::new(alloc);
    emit_entry(&mut insts, whole, init, zeros, entries)?;
    let at = data_place(whole.globals.as_slice());
    emit_functions(alloc, &mut insts, whole, at, zeros, entries)?;
    Ok(Seq::from_vec(insts))
}

// The number of the type of the frame that a module starts with.
fn entry_type_of(functions: &[SlotFn], init: Option<usize>) -> u32
    requires few { length functions.now ≤ 1048576 }
    requires within { ForSome init (λ n. n < length functions.now) }
    ensures { result ≡ objects.entry_type_of (map view_function functions.now) init }
{
    match init {
        None => (functions.len() + 1) as u32,
        Some(number) => (number + 1) as u32,
    }
}

// The tables of the functions that a module calls: that of Sys.
fn imports_of(alloc: Global) -> Result<Seq<Seq<Import>>, AllocError>
    ensures { IfOk result (λ imports. imports ≡ objects.sys_imports ∷ []) }
{
    let mut imports = Vec::new(alloc);
    imports.push(imports_of_sys(alloc)?)?;
    Ok(Seq::from_vec(imports))
}

// The object of a module, whose functions' code begins at these places.
fn make_object(
    alloc: Global,
    whole: &SlotModule,
    init: Option<usize>,
    entries: &[u32],
) -> Result<Object, AllocError>
    requires ready { IsReady (view_module whole.now) (objects.zeros_place (view_module whole.now)) entries.now }
    requires init { init ≡ objects.init_of (view_module whole.now) }
    requires within { ForSome init (λ n. n < length (view_module whole.now).functions) }
    ensures object { IfOk result (λ o. o ≡ object_of (view_module whole.now)) }
    ensures spelled { IfOk result (λ o. AreSpelled o.items) }
{
    let functions = whole.functions.as_slice();
    let store = data_of(alloc, whole.globals.as_slice(), functions)?;
    let size = store.place + zeros_bytes(functions);
    let insts = code_of(alloc, whole, init, store.place, entries)?;
    let types = types_of(alloc, functions, size, store.words.as_slice())?;
    let Data { items, .. } = store;
    Ok(Object {
        flags: HAS_IMPORTS,
        stack: 0,
        data_size: size,
        entry_pc: 0,
        entry_type: entry_type_of(functions, init),
        insts,
        types,
        items: Seq::from_vec(items),
        module: whole.name.clone()?,
        links: links_of(alloc, init)?,
        imports: imports_of(alloc)?,
        catches: Seq::new(alloc),
    })
}

/// The object of a module of three-address code, all of whose frames have at most 65,536 bytes.
///
/// # Errors
/// `CodeTooLarge` only where the code passes 1,048,576 instructions, and such a module has no object; `NoMemory`, also for a format whose
/// text has 4 GiB or more.
pub fn generate(alloc: Global, module: &SlotModule) -> Result<Object, GenFault>
    requires proper { IsProper (view_module «module».now) }
    requires small { AllSmall (view_module «module».now) }
    ensures object { IfOk result (λ o. o ≡ object_of (view_module «module».now)) }

    // Its strings are such as a machine reads.
    ensures spelled { IfOk result (λ o. AreSpelled o.items) }

    // It has at most four instructions for each of the code's.
    ensures few { IfOk result (λ o. length o.insts ≤ 4 * code_instructions (view_module «module».now).functions) }

    // Exactly the modules with no more code have an object, as far as memory goes.
    ensures fits { IfOk result (λ o. length o.insts ≤ most_instructions) }
    ensures too_large { result ≡ Err GenFault.CodeTooLarge → most_instructions < length (all_code (view_module «module».now)) }
{
    let functions = module.functions.as_slice();
    let init = find_init(functions);
    match entries_of(alloc, functions, entry_length(init)) {
        Ok(entries) => Ok(make_object(alloc, module, init, &entries)?),
        Err(fault) => Err(fault),
    }
}
