//! The lists that names lead to.

use limbo_adts::Adts;
use limbo_scope::{Meaning, Scopes};
use limbo_typed::{Constant, Interface, TException, TVar};
use limbo_types::{FnTy, Ty};

/// A constant: its type, and its value.
#[derive(Drop)]
pub struct Valued {
    pub ty: Ty,
    pub value: Constant,
}

/// A function of the module.
#[derive(Drop)]
pub struct Callee {
    /// What it takes and answers; `self` among the arguments.
    pub of: FnTy,
    /// The adt that it belongs to, where it is a method.
    pub owner: Option<u32>,
    /// Whether its first parameter is `self`.
    pub takes_self: bool,
}

/// What a name is imported from: a variable that holds a module, of the function or of the module, or a module's type.
#[derive(Clone, Copy)]
pub enum Origin {
    Local(u32),
    Global(u32),
    Type,
}

/// A name that is imported: from where, and what it means among the members of the module type of this number.
#[derive(Clone, Copy)]
pub struct Imported {
    pub origin: Origin,
    pub interface: u32,
    pub member: Meaning,
}

/// The lists that names lead to, each in the order of its numbers.
#[derive(Drop)]
pub struct Context {
    pub adts: Adts,
    /// Of each adt what the names of its members mean, but for fields and variants. A method is a function of the module.
    pub members: Vec<Scopes>,
    pub interfaces: Vec<Interface>,
    /// Of each module type what the names of its members mean. A function has its place among the module type's functions.
    pub exports: Vec<Scopes>,
    pub globals: Vec<TVar>,
    pub constants: Vec<Valued>,
    /// What the names stand for that are declared by `type`.
    pub types: Vec<Ty>,
    pub functions: Vec<Callee>,
    pub imports: Vec<Imported>,
    pub exceptions: Vec<TException>,
    /// Which module type is the built-in `Sys`, and which adt is its `FD`, where they are there.
    pub system: Option<u32>,
    pub fd: Option<u32>,
}
