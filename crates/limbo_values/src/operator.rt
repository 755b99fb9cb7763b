ghost use Rattle.std.specs.Prelude.{◌≡◌};
ghost use Rattle.limbo_values.specs.Operators.{meets};

use std::cmp::Ordering;

/// An operator on two numbers of one kind.
#[derive(Clone, Copy)]
pub enum Operator {
    /// `+`
    Add,
    /// `-`
    Subtract,
    /// `*`
    Multiply,
    /// `/`, rounded toward zero.
    Divide,
    /// `%`, with the sign of the dividend.
    Remainder,
    /// `&`
    And,
    /// `^`
    Xor,
    /// `|`
    Or,
}

/// An operator on a number and a count, which is an int.
#[derive(Clone, Copy)]
pub enum Shift {
    /// `<<`
    Left,
    /// `>>`, which keeps the sign.
    Right,
}

/// An operator on one number.
#[derive(Clone, Copy)]
pub enum Unary {
    /// `+`
    Plus,
    /// `-`
    Minus,
    /// `~`
    Complement,
    /// `++`
    Increment,
    /// `--`
    Decrement,
}

/// A comparison of two numbers of one kind or of two strings.
#[derive(Clone, Copy)]
pub enum Comparison {
    /// `==`
    Equal,
    /// `!=`
    Unequal,
    /// `<`
    Less,
    /// `<=`
    AtMost,
    /// `>`
    Greater,
    /// `>=`
    AtLeast,
}

impl Comparison {
    /// Whether the comparison holds of two operands that stand in this order.
    pub fn is_met(self, order: Ordering) -> bool
        ensures { result ≡ meets self order }
    {
        match self {
            Comparison::Equal => order.is_eq(),
            Comparison::Unequal => order.is_ne(),
            Comparison::Less => order.is_lt(),
            Comparison::AtMost => order.is_le(),
            Comparison::Greater => order.is_gt(),
            Comparison::AtLeast => order.is_ge(),
        }
    }
}
