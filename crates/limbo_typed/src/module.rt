use crate::stmt::{Constant, TStmt};
use inf_text::Text;
use limbo_adts::Adts;
use limbo_types::{FnTy, Ty};

/// A variable of a function or of a module. A parameter without a name has the empty one.
#[derive(Drop)]
pub struct TVar {
    pub name: Text,
    pub ty: Ty,
}

/// A function: its parameters are the first of its variables.
#[derive(Drop)]
pub struct TFn {
    pub name: Text,
    /// The adt that it belongs to, where it is a method.
    pub owner: Option<u32>,
    pub of: FnTy,
    pub variables: Vec<TVar>,
    /// How many places it has in which caught exceptions stay.
    pub catches: u32,
    pub body: Vec<TStmt>,
}

/// A function as a module type declares it.
#[derive(Drop)]
pub struct Signature {
    pub name: Text,
    pub of: FnTy,
}

/// A module type: its functions in the order of their declaration. Its number is the one in `Ty::Module`.
#[derive(Drop)]
pub struct Interface {
    pub name: Text,
    pub functions: Vec<Signature>,
}

/// A function that the module itself declares for others, and the number of its definition.
#[derive(Drop)]
pub struct Declared {
    pub name: Text,
    pub of: FnTy,
    pub function: u32,
}

/// A declared exception, which is the one of its module's name, its own name and the types of its values.
#[derive(Drop)]
pub struct TException {
    pub module: Text,
    pub name: Text,
    pub values: Vec<Ty>,
}

/// What a variable of the module begins with.
#[derive(Drop)]
pub struct Initial {
    pub global: u32,
    pub value: Constant,
}

/// A checked module.
#[derive(Drop)]
pub struct TypedModule {
    pub name: Text,
    /// Every adt that its types name, its own and those of the module types, and the names of the module types.
    pub adts: Adts,
    pub globals: Vec<TVar>,
    /// What globals begin with; one that isn't named begins with zero or `nil`.
    pub initials: Vec<Initial>,
    pub functions: Vec<TFn>,
    /// What the module declares, in the order of its declaration.
    pub declared: Vec<Declared>,
    pub interfaces: Vec<Interface>,
    /// Which of the module types is the built-in `Sys`, where it is one: `print`, `fprint` and `sprint` stand behind its functions.
    pub system: Option<u32>,
    pub exceptions: Vec<TException>,
}
