/// What a name means: a kind, and the number in the list of its kind, where the checker keeps what else is known of it.
#[derive(Clone, Copy)]
pub enum Meaning {
    /// A variable of a function, a parameter among them.
    Variable(u32),
    /// A variable of the module.
    Global(u32),
    /// A constant.
    Constant(u32),
    /// A type that is declared by `type`.
    Type(u32),
    /// An adt.
    Adt(u32),
    /// A module type.
    Module(u32),
    /// A function.
    Function(u32),
    /// A name that is imported from a module.
    Import(u32),
    /// A declared exception.
    Exception(u32),
}
