use crate::operation::{Connective, Given, Operation};
use crate::print::{Piece, Printed};
use inf_text::Text;
use limbo_types::Ty;

/// An expression with its type (Limbo Language Reference, expressions).
#[derive(Drop)]
#[cycle(expressions)]
pub struct TExpr {
    pub ty: Ty,
    pub node: TNode,
}

/// What an expression is made of. Parts are evaluated in the order in which they stand here, unless it says otherwise.
#[derive(Drop)]
#[cycle(expressions)]
pub enum TNode {
    /// A byte, an int or a big, as the type says.
    Number(i64),
    /// A string.
    Chars(Text),
    /// `nil` of a known type.
    Nil,
    /// `nil` of which nothing says yet what it stands for. It stands in no checked module.
    OpenNil,
    /// The value in a place.
    Read(Box<Place>),
    /// A part of an adt's or tuple's value that stands in no place, by its number (see `PlaceNode::Field`).
    Part {
        whole: Box<TExpr>,
        part: u32,
    },
    /// An operation on the values of its operands.
    Apply {
        operation: Operation,
        args: Vec<TExpr>,
    },
    /// `&&` and `||`
    Lazy {
        connective: Connective,
        left: Box<TExpr>,
        right: Box<TExpr>,
    },
    /// `pattern = value`, and `:=` where a declaration isn't a statement. It gives the value.
    Assign {
        pattern: Box<Pattern>,
        value: Box<TExpr>,
    },
    /// `place op= value`. The place's old value is read first; the operation takes it and the value, and the place gets the result.
    Update {
        operation: Operation,
        place: Box<Place>,
        value: Box<TExpr>,
    },
    /// `++` and `--` on a place.
    Step {
        operation: Operation,
        given: Given,
        place: Box<Place>,
    },
    /// `array[from:] = value`: the elements of the value are copied into the array. It gives the value.
    Copy {
        array: Box<TExpr>,
        from: Box<TExpr>,
        value: Box<TExpr>,
    },
    /// `array[length] of { items, * => rest }`. Without a length it has one element more than its greatest index.
    Filled {
        length: Option<Box<TExpr>>,
        items: Vec<Item>,
        rest: Option<Box<TExpr>>,
    },
    /// `chan of` a type. No form of the language gives a size so far.
    Channel {
        size: Option<Box<TExpr>>,
    },
    /// A call of a function of the module. A method has the object among its arguments where it takes it.
    Call {
        function: u32,
        args: Vec<TExpr>,
    },
    /// A call through a module's value, of a function by its place in the module's type.
    CallThrough {
        module: Box<TExpr>,
        interface: u32,
        function: u32,
        args: Vec<TExpr>,
    },
    /// A call of `print`, `fprint` or `sprint` through a value of `Sys`. A file stands in `fprint` alone.
    Print {
        printed: Printed,
        module: Box<TExpr>,
        file: Option<Box<TExpr>>,
        format: Vec<Piece>,
        args: Vec<TExpr>,
    },
    /// `load`: an instance of the module at a path, of the module type of this number.
    Load {
        interface: u32,
        path: Box<TExpr>,
    },
    /// `channel <-= value`
    Send {
        channel: Box<TExpr>,
        value: Box<TExpr>,
    },
    /// `<-channel`, from a channel or from any channel of an array, as the operand's type says.
    Receive {
        channel: Box<TExpr>,
    },
}

/// What can be assigned to, with its type.
#[derive(Drop)]
#[cycle(expressions)]
pub struct Place {
    pub ty: Ty,
    pub at: PlaceNode,
}

/// Where a place is.
#[derive(Drop)]
#[cycle(expressions)]
pub enum PlaceNode {
    /// A variable of the function, by its number.
    Local(u32),
    /// A variable of the module, by its number.
    Global(u32),
    /// A part of a place, by its number among the parts as they lie in memory: of a pick adt the tag is part 0, then follow the
    /// common fields, then the fields of each variant.
    Field {
        whole: Box<Place>,
        part: u32,
    },
    /// An element of an array.
    Element {
        array: Box<TExpr>,
        index: Box<TExpr>,
    },
    /// A character of a string in a place: of the place alone where it is written.
    Character {
        text: Box<Place>,
        index: Box<TExpr>,
    },
    /// What a `ref` names.
    Target {
        reference: Box<TExpr>,
    },
}

/// Where an assigned value goes.
#[derive(Drop)]
#[cycle(expressions)]
pub enum Pattern {
    /// Into a place.
    Place(Box<Place>),
    /// `nil`: nowhere.
    Nothing,
    /// The parts of a tuple, each its own way.
    Tuple(Vec<Pattern>),
}

/// An element that an initialiser names, by its index, which a constant gave or the element before it.
#[derive(Drop)]
#[cycle(expressions)]
pub struct Item {
    pub index: i64,
    pub value: TExpr,
}
