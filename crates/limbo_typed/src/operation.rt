use limbo_values::{Comparison, Kind, Operator, Shift, Unary};

/// What has a length.
#[derive(Clone, Copy)]
pub enum Sequence {
    Chars,
    Array,
    List,
}

/// An operator whose right operand is evaluated only where the left one doesn't decide.
#[derive(Clone, Copy)]
pub enum Connective {
    /// `&&`
    And,
    /// `||`
    Or,
}

/// What `++` and `--` give.
#[derive(Clone, Copy)]
pub enum Given {
    /// Behind a place: the value that it had.
    Old,
    /// Before a place: the value that it has then.
    New,
}

/// What gives a value, given those of all its operands (Limbo Language Reference, expressions).
#[derive(Clone, Copy)]
pub enum Operation {
    /// `+ - * / % & ^ |` of two numbers of a kind.
    Arithmetic {
        operator: Operator,
        kind: Kind,
    },
    /// `<<` and `>>` of a number of a kind and an int.
    Shift {
        shift: Shift,
        kind: Kind,
    },
    /// `+`, `-`, `~`, `++` and `--` of a number of a kind.
    Alter {
        unary: Unary,
        kind: Kind,
    },
    /// `== != < <= > >=` of two numbers of a kind: 1 or 0.
    Compare {
        comparison: Comparison,
        kind: Kind,
    },
    /// The same of two strings.
    CompareChars(Comparison),
    /// `==` of two references: whether they are the same one, or `nil` both.
    Identical,
    /// `!=` of two references.
    Distinct,
    /// `!` of an int.
    Not,
    /// `byte`, `int` and `big` of a number.
    Convert {
        from: Kind,
        to: Kind,
    },
    /// `int` and `big` of a string.
    ReadNumber(Kind),
    /// `string` of a number.
    NumberText(Kind),
    /// `string` of an array of bytes.
    BytesText,
    /// `array of byte` of a string.
    TextBytes,
    /// `+` of two strings.
    Join,
    /// `::`
    Cons,
    /// `hd`
    Head,
    /// `tl`
    Tail,
    /// `len`
    Length(Sequence),
    /// `tagof`
    Tag,
    /// `ref` of an adt's value. Its type says of which adt, and of which variant where that is known.
    Ref,
    /// `(a, b, ..)`
    Tuple,
    /// A value of an adt, of its fields in order, the common ones of a pick adt first, then those of the variant.
    Adt {
        adt: u32,
        variant: Option<u32>,
    },
    /// `list of { .. }`
    List,
    /// `array[n] of` a type, of its length: each element is zero or `nil`.
    NewArray,
    /// `e[i:j]` of a string or an array. The operands are the whole, then the bounds that are written.
    Slice {
        of: Sequence,
        has_from: bool,
        has_to: bool,
    },
    /// `s[i]` of a string's value.
    Character,
}
