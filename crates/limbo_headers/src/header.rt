use limbo_types::{FnTy, Ty};

/// What a function takes and answers, and whether its first parameter is `self`.
#[derive(Drop)]
pub struct Header {
    pub of: FnTy,
    pub takes_self: bool,
}

/// The type of what is declared.
#[derive(Drop)]
pub enum Heading {
    /// Of a variable, or a field of an adt or of a variant.
    Variable(Box<Ty>),
    /// Of a function.
    Function(Box<Header>),
    /// Of an exception: the types of its values.
    Exception(Vec<Ty>),
    /// Any other declaration.
    Other,
}
