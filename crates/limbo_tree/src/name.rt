use limbo_lexer::inf_text::{Span, Text};

/// A name, where it stands.
#[derive(Drop)]
pub struct Name {
    pub text: Text,
    pub span: Span,
}

/// A qualified name, as types are named: `ID ["->" ID] ["." ID]`.
#[derive(Drop)]
pub struct Qual {
    pub first: Name,
    /// Behind `->`: a member of the module that `first` names.
    pub member: Option<Name>,
    /// Behind `.`: a variant, or another part of the adt.
    pub part: Option<Name>,
}
