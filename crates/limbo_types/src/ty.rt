/// A type (Limbo Language Reference, types).
#[derive(Drop)]
pub enum Ty {
    /// `byte`: 8 bits, unsigned.
    Byte,
    /// `int`: 32 bits, signed.
    Int,
    /// `big`: 64 bits, signed.
    Big,
    /// `string`: a text of Unicode characters.
    Chars,
    /// What a function without an answer gives.
    Nothing,
    /// `nil`, where nothing says yet which type it stands for.
    Nil,
    /// `array of` a type.
    Array(Box<Ty>),
    /// `list of` a type.
    List(Box<Ty>),
    /// `chan of` a type.
    Chan(Box<Ty>),
    /// A tuple of values of these types.
    Tuple(Vec<Ty>),
    /// An adt as a value, by its number.
    Adt(u32),
    /// `ref` of the adt of this number.
    RefAdt(u32),
    /// `ref` of one variant of a pick adt.
    RefPick {
        /// The adt's number.
        adt: u32,
        /// The variant's number in the adt, from 0.
        variant: u32,
    },
    /// A module type, by its number.
    Module(u32),
}

/// The type of a function: of its arguments in order, and of its answer, `Nothing` where it has none.
#[derive(Drop)]
pub struct FnTy {
    pub args: Vec<Ty>,
    pub answer: Ty,
}
