ghost use Rattle.std.specs.Prelude.{◌≡◌};
ghost use Rattle.limbo_constants.specs.Sorts as sorts;
ghost use Rattle.limbo_constants.specs.Constants as constants;

use inf_text::Text;
use limbo_values::{Kind, Number};

/// A constant.
#[derive(Drop)]
pub enum Constant {
    /// A byte, an int or a big.
    Number(Number),
    /// A string.
    Chars(Text),
}

/// The sorts of constants.
#[derive(Clone, Copy)]
pub enum Sort {
    /// Numbers of a kind.
    Number(Kind),
    /// Strings.
    Chars,
}

/// What a constant expression comes to.
#[derive(Drop)]
pub enum Outcome {
    /// It gives a constant.
    Gives(Constant),
    /// Its evaluation would raise an exception in place of a value of this sort.
    Raises(Sort),
}

impl Constant {
    /// The sort of the constant.
    pub fn sort(&self) -> Sort
        ensures sort { result ≡ constants.sort_of_constant self.now }
    {
        match self {
            Constant::Number(a) => Sort::Number(a.kind()),
            Constant::Chars(_) => Sort::Chars,
        }
    }
}

impl Sort {
    /// Whether it is a sort of numbers.
    pub fn is_number(self) -> bool
        ensures tells { result ≡ sorts.is_number self }
    {
        match self {
            Sort::Number(_) => true,
            Sort::Chars => false,
        }
    }

    /// Whether it is that of ints.
    pub fn is_int(self) -> bool
        ensures tells { result ≡ sorts.is_int self }
    {
        match self {
            Sort::Number(Kind::Byte | Kind::Big) => false,
            Sort::Number(Kind::Int) => true,
            Sort::Chars => false,
        }
    }

    /// Whether two sorts are one.
    pub fn is_same(self, other: Sort) -> bool
        ensures tells { result ≡ sorts.same self other }
    {
        match (self, other) {
            (Sort::Number(kind), Sort::Number(with)) => kind == with,
            (Sort::Chars, Sort::Chars) => true,
            (Sort::Number(_), Sort::Chars) => false,
            (Sort::Chars, Sort::Number(_)) => false,
        }
    }
}
