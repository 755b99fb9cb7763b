use inf_text::Text;
use limbo_tree::{Source, Top};

/// An included text: its path, and its tree.
#[derive(Drop)]
pub struct Included {
    pub path: Text,
    pub tree: Source,
}

/// What stands at the top level of a source or of an included text, with the path of the text in which it stands. It is never
/// an include.
#[derive(Clone, Copy)]
pub struct Standing<'a> {
    pub path: &'a Text,
    pub top: &'a Top,
}
