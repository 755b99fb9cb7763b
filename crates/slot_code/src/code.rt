use inf_text::Text;
use limbo_typed::{Operation, Piece};
use limbo_values::{Comparison, Kind};

/// Where a value goes. Each of these holds a number of its kind.
#[derive(Clone, Copy)]
pub enum Spot {
    /// A variable of the function, by its number.
    Variable { kind: Kind, number: u32 },
    /// A variable of the module, by its number.
    Global { kind: Kind, number: u32 },
    /// A temporary, of which each kind of number has its own.
    Temporary { kind: Kind, number: u32 },
    /// An argument of the call that is being made ready.
    Argument { kind: Kind, number: u32 },
}

/// What an instruction takes.
#[derive(Clone, Copy)]
pub enum Operand {
    /// What such a place holds.
    In(Spot),
    /// A number.
    Number(i64),
}

/// An instruction.
#[derive(Drop)]
pub enum Inst {
    /// A place gets a value, which is a step of the program.
    Move {
        into: Spot,
        from: Operand,
    },
    /// A place gets a value that was got already, which is no step of the program.
    Hand {
        into: Spot,
        from: Operand,
    },
    /// A place gets what an operation gives of one value.
    Alter {
        operation: Operation,
        into: Spot,
        of: Operand,
    },
    /// A place gets what an operation gives of two values.
    Operate {
        operation: Operation,
        into: Spot,
        left: Operand,
        right: Operand,
    },
    /// So many instructions are passed where a comparison of two numbers of a kind holds.
    Branch {
        kind: Kind,
        comparison: Comparison,
        left: Operand,
        right: Operand,
        passes: usize,
    },
    /// So many instructions are passed, which is a step of the program.
    Jump {
        passes: usize,
    },
    /// So many instructions are passed, which is no step of the program.
    Skip {
        passes: usize,
    },
    /// On with an instruction before this one, so many back.
    Back {
        by: usize,
    },
    /// A call of a function of the module is made ready.
    Begin {
        function: u32,
    },
    /// The call is made, with so many arguments that it was given. The answer, of this kind, goes to a place.
    Call {
        kind: Kind,
        function: u32,
        arguments: usize,
        into: Spot,
    },
    /// A print by this format is made ready.
    Format {
        pieces: Vec<Piece>,
    },
    /// The print is made, with so many arguments. How many bytes were written goes to a place.
    Print {
        arguments: usize,
        into: Spot,
    },
    /// The function ends, and answers a value.
    Return {
        value: Operand,
    },
    /// The function ends, and answers 0.
    Leave,
}

/// A function: of which kind each of its variables is, and none for one that refers, which no instruction names; how many of them, the
/// first, are parameters; of which kind its answer is; and its instructions.
#[derive(Drop)]
pub struct SlotFn {
    pub name: Text,
    pub variables: Vec<Option<Kind>>,
    pub parameters: usize,
    pub answer: Kind,
    pub code: Vec<Inst>,
}

/// A variable of the module: of which kind it is, none for one that refers, and what it begins with.
#[derive(Clone, Copy)]
pub struct GlobalVariable {
    pub kind: Option<Kind>,
    pub initial: i64,
}

/// A module, whose functions are called by their numbers.
#[derive(Drop)]
pub struct SlotModule {
    pub name: Text,
    pub globals: Vec<GlobalVariable>,
    pub functions: Vec<SlotFn>,
}
