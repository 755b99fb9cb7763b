use crate::types::TypeDesc;
use dis_isa::Inst;
use inf_text::{Seq, Text};

/// An object file's content (dis(6)).
#[derive(Drop, Debug)]
pub struct Object {
    /// Bits: 0x100 where there are imports, 0x200 where there are handlers.
    pub flags: u32,
    /// How many bytes a stack grows by.
    pub stack: u32,
    /// Size of the module's data in bytes.
    pub data_size: u32,
    /// The instruction that the module starts at.
    pub entry_pc: u32,
    /// The type of the frame that the module starts with.
    pub entry_type: u32,
    /// The code.
    pub insts: Seq<Inst>,
    /// The types, by number. Type 0 describes the module's data, where there is data.
    pub types: Seq<TypeDesc>,
    /// The initial data.
    pub items: Seq<Item>,
    /// The module's name.
    pub module: Text,
    /// The functions that other modules may call.
    pub links: Seq<LinkEntry>,
    /// The tables of functions that this module calls, one for each module that it loads.
    pub imports: Seq<Seq<Import>>,
    /// The handlers of exceptions.
    pub catches: Seq<Catch>,
}

/// A piece of the module's initial data (dis(6), "Data section").
#[derive(Drop, Debug)]
pub struct Item {
    /// 1 bytes, 2 words, 3 a string in UTF-8, 4 reals, 5 an array, 6 into an array, 7 back, 8 bigs.
    pub kind: u8,
    /// How many of these; of a string, its bytes.
    pub count: u32,
    /// Where the first one stands, in bytes from the start of the data or of the array.
    pub offset: u32,
    /// The bytes that follow in the file, numbers with the high byte first.
    pub content: Seq<u8>,
}

/// A function that other modules may call (dis(6), "Link section").
#[derive(Drop, Debug)]
pub struct LinkEntry {
    /// Its first instruction.
    pub pc: u32,
    /// The number of its frame's type.
    pub frame: u32,
    /// The signature of its type.
    pub sign: u32,
    /// Its name.
    pub name: Text,
}

/// A function that this module calls in another one.
#[derive(Drop, Debug)]
pub struct Import {
    /// The signature of its type.
    pub sign: u32,
    /// Its name.
    pub name: Text,
}

/// A handler of exceptions, and the code that it guards.
#[derive(Drop, Debug)]
pub struct Catch {
    /// The first instruction guarded.
    pub first: u32,
    /// The first instruction behind those guarded.
    pub end: u32,
    /// Where the exception goes, in bytes from the start of the frame.
    pub offset: u32,
    /// What it catches, in the order in which it is tried.
    pub arms: Seq<CatchArm>,
}

/// An arm of a handler.
#[derive(Drop, Debug)]
pub struct CatchArm {
    /// 0 a text, 1 a prefix, 2 a declared exception, 3 all.
    pub kind: u8,
    /// The text, prefix or exception's name.
    pub text: Text,
    /// The instruction to go on at.
    pub pc: u32,
}
