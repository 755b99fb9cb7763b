/// A place in a source: its line and column, counted from 1, columns in characters, and how many characters it
/// takes.
#[derive(Clone, Copy, PartialEq, Eq, Debug)]
pub struct Span {
    pub line: u32,
    pub col: u32,
    pub len: u32,
}
