use crate::name::Qual;
use limbo_lexer::inf_text::Span;

/// A type (Limbo Language Reference, types).
#[derive(Drop)]
pub enum TypeTree {
    /// `byte`
    Byte { span: Span },
    /// `int`
    Int { span: Span },
    /// `big`
    Big { span: Span },
    /// `string`
    String { span: Span },
    /// `array of` type
    Array { element: Box<TypeTree>, span: Span },
    /// `list of` type
    List { element: Box<TypeTree>, span: Span },
    /// `chan of` type
    Chan { element: Box<TypeTree>, span: Span },
    /// `ref` and the name of an adt
    Ref { of: Qual, span: Span },
    /// The name of a type.
    Named { name: Qual, span: Span },
    /// `(` type `,` type ... `)`: at least two parts.
    Tuple { parts: Vec<TypeTree>, span: Span },
}
