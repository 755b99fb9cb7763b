//! The data of a module.

ghost use Rattle.std.specs.Prelude.{◌≡◌, ◌+◌, ◌≤◌, [], ◌∷◌, ◌++◌, true, max, map, codes, length, IfOk, OnOk};
ghost use Rattle.slot_code.specs.View.{view_spot, view_operand, view_inst, view_function, view_global};
ghost use Rattle.dis_objects.specs.Frames as frames;
ghost use Rattle.dis_objects.specs.Code as dis;
ghost use Rattle.dis_objects.specs.Objects as objects;
ghost use Rattle.dis_objects.specs.Words.{frame_limit, data_limit, AllSmallFrames};
ghost use Rattle.dis_objects.specs.Sites.{made_of, view_callee, IsCounted};
ghost use Rattle.dis_objects.specs.Spelled.{AreSpelled};
ghost use Rattle.dis_objects.specs.Growing.{Grows, GrowsBy};

use crate::formats::format_text;
use crate::links::to_text;
use crate::module_data::{
    Data, make_string, put_both, put_bytes, put_number, put_operands, put_source, put_text,
};
use crate::ready::{Callee, Making, argument_bytes};
use limbo_typed::Operation;
use limbo_values::Kind;
use slot_code::{GlobalVariable, Inst, SlotFn, Spot};
use std::alloc::{AllocError, Global};

/// Of which kind a place is.
pub fn spot_kind(spot: Spot) -> Kind
    ensures { result ≡ dis.spot_kind (view_spot spot) }
{
    match spot {
        Spot::Variable { kind, .. } => kind,
        Spot::Global { kind, .. } => kind,
        Spot::Temporary { kind, .. } => kind,
        Spot::Argument { kind, .. } => kind,
    }
}

/// Of which kind the operand of an operation on one number is.
#[tactic(auto, using(crate::proofs::Others::no_kind))]
pub fn operand_kind(operation: Operation) -> Kind
    ensures { result ≡ dis.operand_kind operation }
{
    match operation {
        Operation::Arithmetic { kind, .. } => kind,
        Operation::Shift { kind, .. } => kind,
        Operation::Alter { kind, .. } => kind,
        Operation::Compare { kind, .. } => kind,
        Operation::Convert { from, .. } => from,
        _ => Kind::Int,
    }
}

// Adds the text of a format that is printed; a call has none.
#[tactic(auto, using(crate::proofs::Growing::grows_none))]
fn put_callee(alloc: Global, store: &mut Data, callee: Callee<'_>) -> Result<(), AllocError>
    requires place { store.old.place ≤ data_limit }
    ensures { OnOk result (GrowsBy store.old store.new (dis.callee_text (view_callee callee.entry))) }
{
    match callee {
        Callee::Calls(_) => Ok(()),
        Callee::Prints(pieces) => {
            let text = format_text(alloc, pieces)?;
            put_text(alloc, store, &text)
        }
    }
}

// Adds the data of what is made, the innermost of these.
#[tactic(auto, using(crate::proofs::Growing::grows_none, crate::proofs::Growing::grows_more))]
fn put_passing(
    alloc: Global,
    store: &mut Data,
    functions: &[SlotFn],
    making: &Making<'_>,
) -> Result<(), AllocError>
    requires counted { IsCounted (map view_function functions.now) making.now }
    requires small { making.now.bytes ≤ frame_limit }
    requires place { store.old.place + 8 ≤ data_limit }
    ensures { OnOk result (GrowsBy store.old store.new (dis.passing_data (map view_function functions.now) (made_of making.now))) }
{
    match making.innermost() {
        None => Ok(()),
        Some(callee) => {
            put_callee(alloc, store, callee)?;
            put_bytes(alloc, store, argument_bytes(functions, callee))
        }
    }
}

// Adds the data of an instruction where these are being made ready, in a function whose answer is of a kind.
#[tactic(auto, using(crate::proofs::Growing::grows_none))]
fn put_inst(
    alloc: Global,
    store: &mut Data,
    functions: &[SlotFn],
    answer: Kind,
    making: &Making<'_>,
    inst: &Inst,
) -> Result<(), AllocError>
    requires counted { IsCounted (map view_function functions.now) making.now }
    requires old_small { making.now.bytes ≤ frame_limit }
    requires small { frames.all_bytes (map view_function functions.now) (frames.made_by (made_of making.now) (view_inst inst.now))
        ≤ frame_limit }
    requires place { store.old.place + 8 ≤ data_limit }
    ensures { OnOk result (GrowsBy store.old store.new
        (dis.data_of (map view_function functions.now) answer (made_of making.now) (view_inst inst.now))) }
{
    match inst {
        Inst::Move { into, from } => put_source(alloc, store, spot_kind(*into), *from),
        Inst::Hand { into, from } => put_source(alloc, store, spot_kind(*into), *from),
        Inst::Alter { operation, of, .. } => {
            put_source(alloc, store, operand_kind(*operation), *of)
        }
        Inst::Operate {
            operation,
            left,
            right,
            ..
        } => put_operands(alloc, store, *operation, *left, *right),
        Inst::Branch {
            kind,
            left,
            right,
            ..
        } => put_both(alloc, store, *kind, *left, *kind, *right),
        Inst::Begin { function } => {
            let callee = Callee::Calls(*function);
            put_bytes(alloc, store, argument_bytes(functions, callee))
        }
        Inst::Format { pieces } => {
            let callee = Callee::Prints(pieces.as_slice());
            put_bytes(alloc, store, argument_bytes(functions, callee))
        }
        Inst::Call { .. } => put_passing(alloc, store, functions, making),
        Inst::Print { .. } => put_passing(alloc, store, functions, making),
        Inst::Return { value } => put_source(alloc, store, answer, *value),
        Inst::Jump { .. } => Ok(()),
        Inst::Skip { .. } => Ok(()),
        Inst::Back { .. } => Ok(()),
        Inst::Leave => Ok(()),
    }
}

// Adds the data of a function whose answer is of a kind.
fn put_code(
    alloc: Global,
    store: &mut Data,
    functions: &[SlotFn],
    answer: Kind,
    code: &[Inst],
) -> Result<(), AllocError>
    requires small { frames.most_bytes (map view_function functions.now) [] (map view_inst code.now) ≤ frame_limit }
    requires place { store.old.place
        + dis.data_bytes (dis.insts_data (map view_function functions.now) answer [] (map view_inst code.now)) + 8 ≤ data_limit }
    ensures { OnOk result (GrowsBy store.old store.new
        (dis.insts_data (map view_function functions.now) answer [] (map view_inst code.now))) }
{
    let mut making = Making::new(alloc);
    for inst in code {
        put_inst(alloc, store, functions, answer, &making, inst)?;
        making.step(functions, inst)?;
    }
    Ok(())
}

// Adds a variable of the module. One that refers begins with nothing.
fn put_global(alloc: Global, store: &mut Data, global: &GlobalVariable) -> Result<(), AllocError>
    requires place { store.old.place ≤ data_limit }
    ensures { OnOk result (Grows store.old store.new
        (objects.global_items store.old.place (view_global global.now))
        (objects.global_words global.now.kind)
        (dis.global_bytes global.now.kind)) }
{
    match global.kind {
        None => {
            store.words.push(true)?;
            store.place += 4;
            Ok(())
        }
        Some(kind) => put_number(alloc, store, kind, global.initial),
    }
}

// Adds the variables of a module.
fn put_globals(
    alloc: Global,
    store: &mut Data,
    globals: &[GlobalVariable],
) -> Result<(), AllocError>
    requires place { store.old.place + dis.globals_bytes (map view_global globals.now) ≤ data_limit }
    ensures { OnOk result (Grows store.old store.new
        (objects.globals_items store.old.place (map view_global globals.now))
        (objects.globals_words (map view_global globals.now))
        (dis.globals_bytes (map view_global globals.now))) }
{
    for global in globals {
        put_global(alloc, store, global)?;
    }
    Ok(())
}

// Adds the data of functions.
fn put_functions(alloc: Global, store: &mut Data, functions: &[SlotFn]) -> Result<(), AllocError>
    requires small { AllSmallFrames (map view_function functions.now) }
    requires place { store.old.place
        + dis.data_bytes (objects.functions_data (map view_function functions.now) (map view_function functions.now)) + 8 ≤ data_limit }
    ensures { OnOk result (GrowsBy store.old store.new
        (objects.functions_data (map view_function functions.now) (map view_function functions.now))) }
{
    for function in functions {
        put_code(alloc, store, functions, function.answer, &function.code)?;
    }
    Ok(())
}

// What the data of each module begin with: the path of Sys, and the module.
fn first_data(alloc: Global) -> Result<Data, AllocError>
    ensures items { IfOk result (λ d. d.items.items ≡ objects.string_item 0 (codes "$Sys") ∷ []) }
    ensures words { IfOk result (λ d. d.words.items ≡ true ∷ true ∷ []) }
    ensures place { IfOk result (λ d. d.place ≡ 8) }
    ensures spelled { IfOk result (λ d. AreSpelled d.items.items) }
{
    let path = to_text(alloc, b"$Sys")?;
    let item = make_string(alloc, 0, &path)?;
    let mut items = Vec::new(alloc);
    items.push(item)?;
    let words = Vec::from_slice(alloc, &[true, true])?;
    Ok(Data {
        items,
        words,
        place: 8,
    })
}

/// The module's data: the path of Sys and the module, the module's variables, and the data of all functions.
///
/// # Errors
/// Want of memory, also for a text whose length doesn't fit 32 bits, or a variable that begins with a number that its kind doesn't have.
pub fn data_of(
    alloc: Global,
    globals: &[GlobalVariable],
    functions: &[SlotFn],
) -> Result<Data, AllocError>
    requires small { AllSmallFrames (map view_function functions.now) }
    requires place { 8 + dis.globals_bytes (map view_global globals.now)
        + dis.data_bytes (objects.functions_data (map view_function functions.now) (map view_function functions.now)) + 8 ≤ data_limit }
    ensures items { let gs = map view_global globals.now in let fs = map view_function functions.now in
        IfOk result (λ d. d.items.items ≡ objects.string_item 0 (codes "$Sys")
        ∷ (objects.globals_items 8 gs ++ objects.items_from (8 + dis.globals_bytes gs) (objects.functions_data fs fs))) }
    ensures words { let gs = map view_global globals.now in let fs = map view_function functions.now in
        IfOk result (λ d. d.words.items ≡ true ∷ true ∷ (objects.globals_words gs ++ objects.data_words (objects.functions_data fs fs))) }
    ensures place { let gs = map view_global globals.now in let fs = map view_function functions.now in
        IfOk result (λ d. d.place ≡ 8 + dis.globals_bytes gs + dis.data_bytes (objects.functions_data fs fs)) }
    ensures spelled { IfOk result (λ d. AreSpelled d.items.items) }
{
    let mut store = first_data(alloc)?;
    put_globals(alloc, &mut store, globals)?;
    put_functions(alloc, &mut store, functions)?;
    Ok(store)
}

// How many bytes the arguments take of what an instruction makes ready.
fn callee_bytes(functions: &[SlotFn], inst: &Inst) -> u32
    requires { objects.callee_bytes (map view_function functions.now) (view_inst inst.now) ≤ frame_limit }
    ensures { result ≡ objects.callee_bytes (map view_function functions.now) (view_inst inst.now) }
{
    match inst {
        Inst::Begin { function } => argument_bytes(functions, Callee::Calls(*function)),
        Inst::Format { pieces } => argument_bytes(functions, Callee::Prints(pieces.as_slice())),
        Inst::Move { .. } => 0,
        Inst::Hand { .. } => 0,
        Inst::Alter { .. } => 0,
        Inst::Operate { .. } => 0,
        Inst::Branch { .. } => 0,
        Inst::Jump { .. } => 0,
        Inst::Skip { .. } => 0,
        Inst::Back { .. } => 0,
        Inst::Call { .. } => 0,
        Inst::Print { .. } => 0,
        Inst::Return { .. } => 0,
        Inst::Leave => 0,
    }
}

// The most of them in a code.
fn most_callee(functions: &[SlotFn], code: &[Inst]) -> u32
    requires { objects.most_callee (map view_function functions.now) (map view_inst code.now) ≤ frame_limit }
    ensures { result ≡ objects.most_callee (map view_function functions.now) (map view_inst code.now) }
{
    let mut most = 0;
    for inst in code {
        most = most.max(callee_bytes(functions, inst));
    }
    most
}

/// The most of them in a module: so many zeros do its data end with.
pub fn zeros_bytes(functions: &[SlotFn]) -> u32
    requires { objects.zeros_bytes (map view_function functions.now) (map view_function functions.now) ≤ frame_limit }
    ensures { result ≡ objects.zeros_bytes (map view_function functions.now) (map view_function functions.now) }
{
    let mut most = 0;
    for function in functions {
        most = most.max(most_callee(functions, &function.code));
    }
    most
}
