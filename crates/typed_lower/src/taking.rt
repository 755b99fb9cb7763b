/// How an instruction takes an operand that is a leaf: any as it is; the function's own alone; or the function's own and numbers of 16 bits.
/// What isn't taken so stands in a temporary first.
#[derive(Clone, Copy)]
pub enum Taking {
    Any,
    Own,
    Short,
}
