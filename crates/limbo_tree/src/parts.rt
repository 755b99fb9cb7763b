//! Parts of trees, for those that read them: each is absent where a tree is of another form.

ghost use Rattle.std.specs.Prelude.{◌≡◌, map, option_map, option_copied};
ghost use Rattle.limbo_tree.specs.View.{view_expr, exprs_of, view_decl, view_member, names_of};
ghost use Rattle.limbo_tree.specs.Parts as parts;

use crate::decl::{Decl, Member};
use crate::expr::Expr;
use crate::name::Name;
use crate::operators::{AssignOp, BinaryOp, UnaryOp};
use limbo_lexer::inf_text::Text;
use std::slice;

/// The name that an expression is.
#[tactic(auto, using(crate::proofs::Exprs::the_views, crate::proofs::Forms::no_name))]
pub fn name_in(e: &Expr) -> Option<&Text>
    ensures { option_copied result ≡ parts.name_in (view_expr e.now) }
{
    match e {
        Expr::Name { name, .. } => Some(name),
        _ => None,
    }
}

/// The string constant that an expression is.
#[tactic(auto, using(crate::proofs::Exprs::the_views, crate::proofs::Forms::no_chars))]
pub fn chars_in(e: &Expr) -> Option<&Text>
    ensures { option_copied result ≡ parts.chars_in (view_expr e.now) }
{
    match e {
        Expr::Chars { text, .. } => Some(text),
        _ => None,
    }
}

/// The number that an expression is, and whether it is written as a big.
#[tactic(auto, using(crate::proofs::Exprs::the_views, crate::proofs::Forms::no_number))]
pub fn number_in(e: &Expr) -> Option<(i64, bool)>
    ensures { result ≡ parts.number_in (view_expr e.now) }
{
    match e {
        Expr::Number { value, wide, .. } => Some((*value, *wide)),
        _ => None,
    }
}

/// What is called, and the arguments.
#[tactic(auto, using(crate::proofs::Exprs::the_views, crate::proofs::Forms::no_call))]
pub fn call_in(e: &Expr) -> Option<(&Expr, &[Expr])>
    ensures { option_map (λ c. (view_expr c.0.now, exprs_of (map view_expr c.1.now))) result ≡ parts.call_in (view_expr e.now) }
{
    match e {
        Expr::Call { function, args, .. } => Some((function, args)),
        _ => None,
    }
}

/// `base.name`
#[tactic(auto, using(crate::proofs::Exprs::the_views, crate::proofs::Forms::no_dot))]
pub fn dot_in(e: &Expr) -> Option<(&Expr, &Name)>
    ensures { option_map (λ d. (view_expr d.0.now, d.1.now.text)) result ≡ parts.dot_in (view_expr e.now) }
{
    match e {
        Expr::Dot { base, name, .. } => Some((base, name)),
        _ => None,
    }
}

/// `base->name`
#[tactic(auto, using(crate::proofs::Exprs::the_views, crate::proofs::Forms::no_arrow))]
pub fn arrow_in(e: &Expr) -> Option<(&Expr, &Name)>
    ensures { option_map (λ a. (view_expr a.0.now, a.1.now.text)) result ≡ parts.arrow_in (view_expr e.now) }
{
    match e {
        Expr::Arrow { base, name, .. } => Some((base, name)),
        _ => None,
    }
}

/// `m->name`, where a name stands before the arrow.
#[tactic(auto, using(crate::proofs::Exprs::the_views, crate::proofs::Forms::no_member, crate::proofs::Forms::no_module))]
pub fn member_in(e: &Expr) -> Option<(&Text, &Name)>
    ensures { option_map (λ m. (m.0.now, m.1.now.text)) result ≡ parts.member_in (view_expr e.now) }
{
    match e {
        Expr::Arrow { base, name, .. } => match &**base {
            Expr::Name { name: module, .. } => Some((module, name)),
            _ => None,
        },
        _ => None,
    }
}

/// `base[index]`
#[tactic(auto, using(crate::proofs::Exprs::the_views, crate::proofs::Forms::no_index))]
pub fn index_in(e: &Expr) -> Option<(&Expr, &Expr)>
    ensures { option_map (λ i. (view_expr i.0.now, view_expr i.1.now)) result ≡ parts.index_in (view_expr e.now) }
{
    match e {
        Expr::Index { base, index, .. } => Some((base, index)),
        _ => None,
    }
}

/// An operator before an operand, and the operand.
#[tactic(auto, using(crate::proofs::Exprs::the_views, crate::proofs::Forms::no_unary))]
pub fn unary_in(e: &Expr) -> Option<(UnaryOp, &Expr)>
    ensures { option_map (λ u. (u.0, view_expr u.1.now)) result ≡ parts.unary_in (view_expr e.now) }
{
    match e {
        Expr::Unary { op, operand, .. } => Some((*op, operand)),
        _ => None,
    }
}

/// An operator between two operands, and the operands.
#[tactic(auto, using(crate::proofs::Exprs::the_views, crate::proofs::Forms::no_binary))]
pub fn binary_in(e: &Expr) -> Option<(BinaryOp, &Expr, &Expr)>
    ensures { option_map (λ b. (b.0, view_expr b.1.now, view_expr b.2.now)) result ≡ parts.binary_in (view_expr e.now) }
{
    match e {
        Expr::Binary {
            op,
            left,
            right,
            ..
        } => Some((*op, left, right)),
        _ => None,
    }
}

/// An assignment, a declaration by `:=` or a send: the sign, and what stands on its two sides.
#[tactic(auto, using(crate::proofs::Exprs::the_views, crate::proofs::Forms::no_assign))]
pub fn assign_in(e: &Expr) -> Option<(AssignOp, &Expr, &Expr)>
    ensures { option_map (λ a. (a.0, view_expr a.1.now, view_expr a.2.now)) result ≡ parts.assign_in (view_expr e.now) }
{
    match e {
        Expr::Assign {
            op,
            left,
            right,
            ..
        } => Some((*op, left, right)),
        _ => None,
    }
}

/// What stands in parentheses.
#[tactic(auto, using(crate::proofs::Exprs::the_views, crate::proofs::Forms::no_group))]
pub fn group_in(e: &Expr) -> Option<&[Expr]>
    ensures { option_map (λ es. exprs_of (map view_expr es.now)) result ≡ parts.group_in (view_expr e.now) }
{
    match e {
        Expr::Group { items, .. } => Some(items),
        _ => None,
    }
}

// The expression of a list of one.
#[tactic(auto, using(crate::proofs::Forms::no_only, crate::proofs::Forms::first_only))]
fn only(es: &[Expr]) -> Option<&Expr>
    ensures { option_map (λ e. view_expr e.now) result ≡ parts.only (exprs_of (map view_expr es.now)) }
{
    if es.len() != 1 {
        return None;
    }
    Some(&es[0])
}

/// The one expression in parentheses.
#[tactic(auto, using(crate::proofs::Exprs::the_views, crate::proofs::Forms::no_single))]
pub fn single_in(e: &Expr) -> Option<&Expr>
    ensures { option_map (λ x. view_expr x.now) result ≡ parts.single_in (view_expr e.now) }
{
    match e {
        Expr::Group { items, .. } => only(items),
        _ => None,
    }
}

/// The channel of `<-channel`.
#[tactic(auto, using(crate::proofs::Exprs::the_views, crate::proofs::Forms::no_receive, crate::proofs::Forms::other_unary))]
pub fn received_in(e: &Expr) -> Option<&Expr>
    ensures { option_map (λ x. view_expr x.now) result ≡ parts.received_in (view_expr e.now) }
{
    match e {
        Expr::Unary { op, operand, .. } => match op {
            UnaryOp::Receive => Some(operand),
            _ => None,
        },
        _ => None,
    }
}

/// The channel and the value of `channel <-= value`.
#[tactic(auto, using(crate::proofs::Exprs::the_views, crate::proofs::Forms::no_send, crate::proofs::Forms::other_assign))]
pub fn sent_in(e: &Expr) -> Option<(&Expr, &Expr)>
    ensures { option_map (λ s. (view_expr s.0.now, view_expr s.1.now)) result ≡ parts.sent_in (view_expr e.now) }
{
    match e {
        Expr::Assign {
            op,
            left,
            right,
            ..
        } => match op {
            AssignOp::Send => Some((left, right)),
            _ => None,
        },
        _ => None,
    }
}

/// The names that a declaration declares.
pub fn names_of_decl(d: &Decl) -> &[Name]
    ensures { names_of result.now ≡ parts.names_of_decl (view_decl d.now) }
{
    match d {
        Decl::Con { names, .. } => names,
        Decl::Type { names, .. } => names,
        Decl::Var { names, .. } => names,
        Decl::Define { names, .. } => names,
        Decl::Import { names, .. } => names,
        Decl::Exception { names, .. } => names,
        Decl::Module { name, .. } => slice::from_ref(name),
        Decl::Adt { name, .. } => slice::from_ref(name),
    }
}

/// The names that a member declares.
#[tactic(auto, using(crate::proofs::Members::the_members))]
pub fn names_of_member(m: &Member) -> &[Name]
    ensures { names_of result.now ≡ parts.names_of_member (view_member m.now) }
{
    match m {
        Member::Var { names, .. } => names,
        Member::Function { names, .. } => names,
        Member::Con { names, .. } => names,
        Member::Type { names, .. } => names,
        Member::Adt { name, .. } => slice::from_ref(name),
    }
}
