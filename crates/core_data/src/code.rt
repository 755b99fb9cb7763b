use inf_text::Text;
use limbo_typed::{Connective, Operation, Piece};
use limbo_types::Ty;

/// Where a place begins.
#[derive(Clone, Copy)]
pub enum Root {
    /// A variable of the function, by its number.
    Local(u32),
    /// A variable of the module, by its number.
    Global(u32),
    /// An element of an array.
    Element,
    /// What a reference names.
    Target,
}

/// A place but for the values of its operands: the parts that lead to it, from the root on, and whether it is a character of the string
/// that they lead to.
#[derive(Drop)]
pub struct Way {
    pub root: Root,
    pub parts: Vec<u32>,
    pub character: bool,
}

/// What a node does with the values of its operands, whose value goes into a slot of its own.
#[derive(Drop)]
pub enum Work {
    /// A byte, an int or a big, of no operand.
    Number(i64),
    /// A string, of none.
    Chars(Text),
    /// `nil`, of none.
    Nil,
    Operate(Operation),
    /// What stands in a place, of the place's operands.
    Read(Way),
    /// A new channel, of none.
    Channel,
    /// The text of a format, of its arguments.
    Sprint(Vec<Piece>),
}

/// A value that no step of the program gives.
#[derive(Clone, Copy)]
pub enum Known {
    /// The length of an array that isn't written.
    Length(u64),
    /// A list without items.
    NoCell,
    /// What a variable begins with that is declared without a value: zero or `nil` of its type.
    Nothing,
}

/// An instruction. Slots are named by their numbers, and a jump says how many instructions it passes.
#[derive(Drop)]
pub enum Inst {
    /// A node gives its value into a slot of its own.
    Give {
        ty: Ty,
        work: Work,
        into: u32,
        from: Vec<u32>,
    },
    /// An operand, by its number, moves to what a value of a type, of this variant of an adt, is put together of in a slot, where it is
    /// the part of another number. The slot that it comes from is empty then.
    Place {
        ty: Ty,
        variant: Option<u32>,
        operand: u32,
        part: u32,
        into: u32,
        from: u32,
    },
    /// A node gives its value, a tuple or an adt's, of so many operands that are put together in its slot.
    Gather {
        ty: Ty,
        operation: Operation,
        into: u32,
        operands: u32,
    },
    /// A part of a value moves.
    Pick {
        ty: Ty,
        part: u32,
        into: u32,
        from: u32,
    },
    /// A known value goes into a slot.
    Known {
        value: Known,
        into: u32,
    },
    /// One write: of this part of a slot's value to the place with these operands.
    Write {
        ty: Ty,
        way: Way,
        operands: Vec<u32>,
        part: Vec<u32>,
        from: u32,
    },
    /// The elements of an array are copied into another, from an index on.
    CopyInto {
        array: u32,
        start: u32,
        from: u32,
    },
    /// A cell of a list, in front of the one in a slot, or of nothing.
    Cell {
        ty: Ty,
        into: u32,
        item: u32,
        behind: Option<u32>,
    },
    /// A call of a function of the module, whose operands are put together in a slot where there are any. The answer goes into a slot.
    Call {
        ty: Ty,
        function: u32,
        into: u32,
        operands: Option<u32>,
    },
    /// A print, whose operands are put together so. How many bytes were written goes into a slot.
    Print {
        pieces: Vec<Piece>,
        into: u32,
        operands: Option<u32>,
    },
    /// Where the left operand of a connective decides, the value is there and so many instructions are passed. Whether it does goes into
    /// a slot of its own, where that is read again.
    Skip {
        connective: Connective,
        into: u32,
        decision: Option<u32>,
        from: u32,
        passes: usize,
    },
    /// The 1 or 0 of the right operand.
    Truth {
        into: u32,
        from: u32,
    },
    /// A new array's element is stored.
    Element {
        ty: Ty,
        array: u32,
        index: i64,
        from: u32,
    },
    /// The loop of an initialiser's others begins, which has a slot: nothing is counted, and nothing in its chain.
    Start {
        turns: u32,
    },
    /// Its next index that isn't among these, or so many instructions are passed.
    Next {
        array: u32,
        turns: u32,
        named: Vec<i64>,
        passes: usize,
    },
    /// The element of this turn is stored.
    Other {
        ty: Ty,
        array: u32,
        turns: u32,
        from: u32,
    },
    /// So many slots go to the end of the loop's chain, and are empty.
    Keep {
        turns: u32,
        from: u32,
        words: u32,
    },
    /// The first that went to the chain come back, or so many instructions are passed.
    Take {
        turns: u32,
        from: u32,
        words: u32,
        passes: usize,
    },
    /// A reference of a slot's value goes.
    Drop {
        slot: u32,
        reference: u32,
    },
    /// Where the left operand of a connective decided, so many drops are passed.
    Mirror {
        decision: u32,
        passes: usize,
    },
    /// Where a condition doesn't hold, so many instructions are passed.
    Unless {
        condition: u32,
        passes: usize,
    },
    /// So many instructions are passed.
    Jump {
        passes: usize,
    },
    /// On with an instruction before this one, so many back.
    Back {
        steps: usize,
    },
    /// The function ends, with the value of a slot where it has one.
    Return {
        from: Option<u32>,
    },
}

/// A function: the types of its variables, how many slots it has, and its code.
#[derive(Drop)]
pub struct CoreFn {
    pub variables: Vec<Ty>,
    pub slots: u32,
    pub code: Vec<Inst>,
}

/// A program, whose functions are called by their numbers. Its adts are those of the module that it was made of.
#[derive(Drop)]
pub struct CoreProgram {
    pub functions: Vec<CoreFn>,
}
