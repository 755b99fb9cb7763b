//! The instance, the items, the first process, and one cut.

ghost use Rattle.std.specs.Prelude.{◌≡◌, ℕ, map, IfErr, IfOk};
ghost use Rattle.ref_heap.specs.Store.{outside};
ghost use Rattle.ref_heap.specs.Words.{cell_of, naming};
ghost use Rattle.dis_meaning.specs.Opening.{entered};
ghost use Rattle.dis_meaning.specs.Words as words;
ghost use Rattle.dis_memory.specs.Naming.{names};
ghost use Rattle.dis_memory.specs.Operands as operands;
ghost use Rattle.dis_serials.specs.Given.{HasGiven};
ghost use Rattle.dis_counts.specs.Opening as meaning;
ghost use Rattle.dis_places.specs.View.{view_process, view_world};
ghost use Rattle.dis_places.specs.Words.{view_words};
ghost use Rattle.dis_code.specs.Loaded.{IsLoaded};
ghost use Rattle.dis_opening.specs.Loading.{view_loading, IsExact};
ghost use Rattle.dis_opening.specs.Opening.{begun, view_opened, IsSettled};
ghost use Rattle.dis_opening.specs.Starting.{Gives};
ghost use Rattle.dis_opening.specs.declared.fault.StartFault.TheVariants.{NoMemory};

use crate::fault::StartFault;
use crate::items::put_items;
use crate::loading::{Base, Loading};
use dis_code::{Code, type_at};
use dis_file::Object;
use dis_places::{Frame, Memory, Process, Ref, Tables, Word, blank};
use ref_heap::{Heap, Kind, Words};
use std::alloc::Global;
use sys_print::opening_world;

/// What a machine begins with: memory, and its first process.
#[derive(Drop)]
pub struct Opened {
    pub memory: Memory,
    pub process: Process,
}

// The words of a type of the object, by its number, as they are made.
fn blank_of(alloc: Global, object: &Object, number: u32) -> Result<Vec<Word>, StartFault>
    ensures gives { Gives (λ words. view_words words.items) result
        (words.◌>>=◌ (operands.type_of object.now number) (λ desc. words.Found (words.blank desc))) }
{
    let desc = type_at(object, number)?;
    Ok(blank(alloc, desc)?)
}

// Memory with the instance of the program's first module, before any item is in.
fn begin(alloc: Global, tables: Tables, words: Vec<Word>) -> Result<Loading, StartFault>
    requires bare { (n : ℕ) → naming (map cell_of words.items) n ≡ 0 }
    ensures begun { IfOk result (λ l. view_loading l ≡ begun (view_words words.items)) }
    ensures exact { IfOk result IsExact }
    ensures instance { IfOk result (λ l. l.here.block.serial ≡ 0) }
    ensures tables { IfOk result (λ l. l.memory.tables ≡ tables) }
    ensures fault { IfErr result (λ fault. fault ≡ NoMemory) }
{
    let mut heap = Heap::new(alloc)?;
    let block = match heap.add(Kind::Instance { object: 0 }, Words::wide(words)) {
        Ok(block) => block,
        Err(_) => return Err(StartFault::NoMemory),
    };
    let memory = Memory {
        heap,
        tables,
        frames: 1,
        outside: opening_world(alloc),
    };
    Ok(Loading {
        memory,
        here: Base { block, from: 0 },
        back: Vec::new(alloc),
        over: Vec::new(alloc),
    })
}

// The first process, number 1, at the object's entry, with these words as its frame.
fn first_process(alloc: Global, object: &Object, instance: Ref, words: Vec<Word>) -> Process
    requires { instance.serial ≡ 0 }
    ensures { view_process result ≡ entered object.now (view_words words.items) }
{
    Process {
        number: 1,
        frame: Frame {
            serial: 0,
            instance,
            pc: object.entry_pc as usize,
            words,
        },
        below: Vec::new(alloc),
        made: Vec::new(alloc),
        printing: None,
    }
}

// What references were put over is let go, all at once.
fn settle(loading: Loading) -> Memory
    requires { IsExact loading }
    ensures { IsSettled loading.memory result }
{
    let Loading { memory, over, .. } = loading;
    let mut memory = memory;
    memory.heap.stands();
    memory.heap.drop_words(&over);
    memory
}

/// What a machine of this object begins with, which is the first of its objects. The tables have what the object asks for.
///
/// # Errors
/// `Malformed` where the definition finds nothing: the object lacks the type of its data or of its entry's frame, or has an item that can't
/// be put where it says; `NoMemory`.
pub fn open(alloc: Global, tables: Tables, code: &Code) -> Result<Opened, StartFault>
    requires loaded { IsLoaded tables code.now }
    ensures opened { Gives view_opened result (meaning.opened code.now.object) }
    ensures tables { IfOk result (λ o. o.memory.tables ≡ tables) }
    ensures exact { IfOk result (λ o. (n : ℕ) → outside o.memory.heap n ≡ names (view_process o.process) n) }
    ensures given { IfOk result (λ o. HasGiven (view_world o.memory) (view_process o.process)) }
{
    let words = blank_of(alloc, &code.object, 0)?;
    let frame = blank_of(alloc, &code.object, code.object.entry_type)?;
    let mut loading = begin(alloc, tables, words)?;
    let instance = loading.here.block;
    put_items(alloc, &mut loading, code, code.object.items.as_slice())?;
    let process = first_process(alloc, &code.object, instance, frame);
    Ok(Opened {
        memory: settle(loading),
        process,
    })
}
