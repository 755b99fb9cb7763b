use crate::decl::{Decl, FnType};
use crate::name::Name;
use crate::stmt::Block;
use limbo_lexer::inf_text::{Span, Text};

/// A source, or an included text.
#[derive(Drop)]
pub struct Source {
    /// `implement name;`. An included text has none.
    pub implements: Option<Name>,
    pub tops: Vec<Top>,
}

/// What stands at the top level.
#[derive(Drop)]
pub enum Top {
    /// `include path;`
    Include { path: Text, span: Span },
    /// A declaration.
    Declare { decl: Box<Decl> },
    /// A function's definition.
    Define { function: Box<Function> },
}

/// The definition of a function, or of a function of an adt: `name.part(params): answer body`
#[derive(Drop)]
pub struct Function {
    pub name: Name,
    pub part: Option<Name>,
    pub of: FnType,
    pub body: Block,
    pub span: Span,
}
