//! Where trees stand.

ghost use Rattle.std.specs.Prelude.{◌≡◌};
ghost use Rattle.limbo_tree.specs.Spans as spans;

use crate::decl::Decl;
use crate::expr::Expr;
use crate::stmt::Stmt;
use crate::types::TypeTree;
use limbo_lexer::inf_text::Span;

/// Where a type stands.
#[tactic(auto, using(crate::proofs::Standing::the_type_spans))]
pub fn span_of_type(t: &TypeTree) -> Span
    ensures { result ≡ spans.span_of_type t.now }
{
    match t {
        TypeTree::Byte { span, .. } => *span,
        TypeTree::Int { span, .. } => *span,
        TypeTree::Big { span, .. } => *span,
        TypeTree::String { span, .. } => *span,
        TypeTree::Array { span, .. } => *span,
        TypeTree::List { span, .. } => *span,
        TypeTree::Chan { span, .. } => *span,
        TypeTree::Ref { span, .. } => *span,
        TypeTree::Named { span, .. } => *span,
        TypeTree::Tuple { span, .. } => *span,
    }
}

/// Where an expression stands.
pub fn span_of(e: &Expr) -> Span
    ensures { result ≡ spans.span_of e.now }
{
    match e {
        Expr::Assign { span, .. } => *span,
        Expr::Load { span, .. } => *span,
        Expr::Binary { span, .. } => *span,
        Expr::Unary { span, .. } => *span,
        Expr::Bytes { span, .. } => *span,
        Expr::Filled { span, .. } => *span,
        Expr::Sized { span, .. } => *span,
        Expr::Channel { span, .. } => *span,
        Expr::Listed { span, .. } => *span,
        Expr::Call { span, .. } => *span,
        Expr::Index { span, .. } => *span,
        Expr::Slice { span, .. } => *span,
        Expr::Dot { span, .. } => *span,
        Expr::Arrow { span, .. } => *span,
        Expr::Postfix { span, .. } => *span,
        Expr::Number { span, .. } => *span,
        Expr::Chars { span, .. } => *span,
        Expr::Name { span, .. } => *span,
        Expr::Nil { span, .. } => *span,
        Expr::Group { span, .. } => *span,
    }
}

/// Where a declaration stands.
pub fn span_of_decl(d: &Decl) -> Span
    ensures { result ≡ spans.span_of_decl d.now }
{
    match d {
        Decl::Con { span, .. } => *span,
        Decl::Type { span, .. } => *span,
        Decl::Var { span, .. } => *span,
        Decl::Define { span, .. } => *span,
        Decl::Import { span, .. } => *span,
        Decl::Exception { span, .. } => *span,
        Decl::Module { span, .. } => *span,
        Decl::Adt { span, .. } => *span,
    }
}

/// Where a statement stands.
pub fn span_of_stmt(s: &Stmt) -> Span
    ensures { result ≡ spans.span_of_stmt s.now }
{
    match s {
        Stmt::Empty { span, .. } => *span,
        Stmt::Block { span, .. } => *span,
        Stmt::Declare { span, .. } => *span,
        Stmt::Eval { span, .. } => *span,
        Stmt::If { span, .. } => *span,
        Stmt::While { span, .. } => *span,
        Stmt::Do { span, .. } => *span,
        Stmt::For { span, .. } => *span,
        Stmt::Case { span, .. } => *span,
        Stmt::Alt { span, .. } => *span,
        Stmt::Pick { span, .. } => *span,
        Stmt::Break { span, .. } => *span,
        Stmt::Continue { span, .. } => *span,
        Stmt::Return { span, .. } => *span,
        Stmt::Exit { span, .. } => *span,
        Stmt::Spawn { span, .. } => *span,
        Stmt::Raise { span, .. } => *span,
    }
}
