//! The tables of operators, and the operator that is the first token.

ghost use Rattle.std.specs.Prelude.{◌≡◌, ◌≤◌, None, Some, MatchOption};
ghost use Rattle.limbo_tree.specs.Exprs as tree;
ghost use Rattle.limbo_tree.specs.Exprs.{is_unary};
ghost use Rattle.limbo_tree.specs.View.{view_expr};
ghost use Rattle.limbo_reading.specs.Reading.{kinds};
ghost use Rattle.limbo_expr_parts.specs.Front.{front};
ghost use Rattle.limbo_expr_parts.specs.Operators as reading;

use limbo_lexer::{Key, Kind, Mark, Token};
use limbo_reading::after_key;
use limbo_tree::{AssignOp, BinaryOp, Expr, PostfixOp, UnaryOp};

/// The operator before one operand that is the first token, and what stands behind it.
pub fn unary_at_front(tokens: &[Token]) -> Option<(UnaryOp, &[Token])>
    ensures { MatchOption result (front reading.unary_of (kinds tokens.now) ≡ None)
        (λ x. front reading.unary_of (kinds tokens.now) ≡ Some (x.0, kinds x.1.now)) }
{
    let [first, rest @ ..] = tokens else {
        return None;
    };
    let op = unary_of(&first.kind)?;
    Some((op, rest))
}

/// The operator behind one operand that is the first token, and what stands behind it.
pub fn postfix_at_front(tokens: &[Token]) -> Option<(PostfixOp, &[Token])>
    ensures { MatchOption result (front reading.postfix_of (kinds tokens.now) ≡ None)
        (λ x. front reading.postfix_of (kinds tokens.now) ≡ Some (x.0, kinds x.1.now)) }
{
    let [first, rest @ ..] = tokens else {
        return None;
    };
    let op = postfix_of(&first.kind)?;
    Some((op, rest))
}

// The assignment that is the first token, and what stands behind it.
fn assign_at_front(tokens: &[Token]) -> Option<(AssignOp, &[Token])>
    ensures { MatchOption result (front reading.assign_of (kinds tokens.now) ≡ None)
        (λ x. front reading.assign_of (kinds tokens.now) ≡ Some (x.0, kinds x.1.now)) }
{
    let [first, rest @ ..] = tokens else {
        return None;
    };
    let op = assign_of(&first.kind)?;
    Some((op, rest))
}

/// The operator between two operands that is the first token, and what stands behind it.
fn binary_at_front(tokens: &[Token]) -> Option<(BinaryOp, &[Token])>
    ensures { MatchOption result (front reading.binary_of (kinds tokens.now) ≡ None)
        (λ x. front reading.binary_of (kinds tokens.now) ≡ Some (x.0, kinds x.1.now)) }
{
    let [first, rest @ ..] = tokens else {
        return None;
    };
    let op = binary_of(&first.kind)?;
    Some((op, rest))
}

/// That operator, if it has this level or a tighter one.
pub fn op_within(level: u32, tokens: &[Token]) -> Option<(BinaryOp, &[Token])>
    ensures { MatchOption result (reading.op_within level (kinds tokens.now) ≡ None)
        (λ x. reading.op_within level (kinds tokens.now) ≡ Some (x.0, kinds x.1.now)) }
{
    let (op, rest) = binary_at_front(tokens)?;
    if level_of(op) <= level {
        Some((op, rest))
    } else {
        None
    }
}

/// An assignment's sign behind the tree, if it may be assigned to, and what follows the sign.
pub fn assign_after<'a>(tree: &Expr, tokens: &'a [Token]) -> Option<(AssignOp, &'a [Token])>
    ensures { MatchOption result (reading.assign_after (view_expr tree.now) (kinds tokens.now) ≡ None)
        (λ x. reading.assign_after (view_expr tree.now) (kinds tokens.now) ≡ Some (x.0, kinds x.1.now)) }
{
    if is_unary(tree) {
        assign_at_front(tokens)
    } else {
        None
    }
}

// Whether the tree is a unary.
#[tactic(auto, using(limbo_tree::proofs::Exprs::the_views))]
fn is_unary(tree: &Expr) -> bool
    ensures { result ≡ is_unary (view_expr tree.now) }
{
    match tree {
        Expr::Assign { .. } | Expr::Load { .. } | Expr::Binary { .. } => false,
        _ => true,
    }
}

/// What stands behind `load`, where a tree of the level may be a load.
pub fn after_load(level: u32, tokens: &[Token]) -> Option<&[Token]>
    ensures { MatchOption result (reading.after_load level (kinds tokens.now) ≡ None)
        (λ rest. reading.after_load level (kinds tokens.now) ≡ Some (kinds rest.now)) }
{
    if level < 12 {
        None
    } else {
        after_key(Key::Load, tokens)
    }
}

// The operators before one operand.
fn unary_of(kind: &Kind) -> Option<UnaryOp>
    ensures { result ≡ reading.unary_of kind.now }
{
    match kind {
        Kind::Mark(Mark::Plus) => Some(UnaryOp::Plus),
        Kind::Mark(Mark::Minus) => Some(UnaryOp::Minus),
        Kind::Mark(Mark::Bang) => Some(UnaryOp::Not),
        Kind::Mark(Mark::Tilde) => Some(UnaryOp::Complement),
        Kind::Mark(Mark::Increment) => Some(UnaryOp::Increment),
        Kind::Mark(Mark::Decrement) => Some(UnaryOp::Decrement),
        Kind::Mark(Mark::Receive) => Some(UnaryOp::Receive),
        Kind::Key(Key::Ref) => Some(UnaryOp::Ref),
        Kind::Mark(Mark::Star) => Some(UnaryOp::Deref),
        Kind::Key(Key::Hd) => Some(UnaryOp::Hd),
        Kind::Key(Key::Tl) => Some(UnaryOp::Tl),
        Kind::Key(Key::Len) => Some(UnaryOp::Len),
        Kind::Key(Key::Tagof) => Some(UnaryOp::Tagof),
        Kind::Key(Key::Byte) => Some(UnaryOp::Byte),
        Kind::Key(Key::Int) => Some(UnaryOp::Int),
        Kind::Key(Key::Big) => Some(UnaryOp::Big),
        Kind::Key(Key::String) => Some(UnaryOp::String),
        _ => None,
    }
}

// The operators behind one operand.
fn postfix_of(kind: &Kind) -> Option<PostfixOp>
    ensures { result ≡ reading.postfix_of kind.now }
{
    match kind {
        Kind::Mark(Mark::Increment) => Some(PostfixOp::Increment),
        Kind::Mark(Mark::Decrement) => Some(PostfixOp::Decrement),
        _ => None,
    }
}

// The assignments.
fn assign_of(kind: &Kind) -> Option<AssignOp>
    ensures { result ≡ reading.assign_of kind.now }
{
    match kind {
        Kind::Mark(Mark::Assign) => Some(AssignOp::Assign),
        Kind::Mark(Mark::Define) => Some(AssignOp::Define),
        Kind::Mark(Mark::Send) => Some(AssignOp::Send),
        Kind::Mark(Mark::AddAssign) => Some(AssignOp::Add),
        Kind::Mark(Mark::SubAssign) => Some(AssignOp::Sub),
        Kind::Mark(Mark::MulAssign) => Some(AssignOp::Mul),
        Kind::Mark(Mark::DivAssign) => Some(AssignOp::Div),
        Kind::Mark(Mark::RemAssign) => Some(AssignOp::Rem),
        Kind::Mark(Mark::AndAssign) => Some(AssignOp::And),
        Kind::Mark(Mark::OrAssign) => Some(AssignOp::Or),
        Kind::Mark(Mark::XorAssign) => Some(AssignOp::Xor),
        Kind::Mark(Mark::ShlAssign) => Some(AssignOp::Shl),
        Kind::Mark(Mark::ShrAssign) => Some(AssignOp::Shr),
        _ => None,
    }
}

// The operators between two operands.
fn binary_of(kind: &Kind) -> Option<BinaryOp>
    ensures { result ≡ reading.binary_of kind.now }
{
    match kind {
        Kind::Mark(Mark::OrOr) => Some(BinaryOp::OrOr),
        Kind::Mark(Mark::AndAnd) => Some(BinaryOp::AndAnd),
        Kind::Mark(Mark::Cons) => Some(BinaryOp::Cons),
        Kind::Mark(Mark::Bar) => Some(BinaryOp::Or),
        Kind::Mark(Mark::Caret) => Some(BinaryOp::Xor),
        Kind::Mark(Mark::Ampersand) => Some(BinaryOp::And),
        Kind::Mark(Mark::Equal) => Some(BinaryOp::Equal),
        Kind::Mark(Mark::NotEqual) => Some(BinaryOp::NotEqual),
        Kind::Mark(Mark::Less) => Some(BinaryOp::Less),
        Kind::Mark(Mark::LessEqual) => Some(BinaryOp::LessEqual),
        Kind::Mark(Mark::Greater) => Some(BinaryOp::Greater),
        Kind::Mark(Mark::GreaterEqual) => Some(BinaryOp::GreaterEqual),
        Kind::Mark(Mark::Shl) => Some(BinaryOp::Shl),
        Kind::Mark(Mark::Shr) => Some(BinaryOp::Shr),
        Kind::Mark(Mark::Plus) => Some(BinaryOp::Add),
        Kind::Mark(Mark::Minus) => Some(BinaryOp::Sub),
        Kind::Mark(Mark::Star) => Some(BinaryOp::Mul),
        Kind::Mark(Mark::Slash) => Some(BinaryOp::Div),
        Kind::Mark(Mark::Percent) => Some(BinaryOp::Rem),
        _ => None,
    }
}

// The level of an operator, the tightest first.
fn level_of(op: BinaryOp) -> u32
    ensures { result ≡ tree.level op }
{
    match op {
        BinaryOp::Mul | BinaryOp::Div | BinaryOp::Rem => 1,
        BinaryOp::Add | BinaryOp::Sub => 2,
        BinaryOp::Shl | BinaryOp::Shr => 3,
        BinaryOp::Less | BinaryOp::LessEqual | BinaryOp::Greater | BinaryOp::GreaterEqual => 4,
        BinaryOp::Equal | BinaryOp::NotEqual => 5,
        BinaryOp::And => 6,
        BinaryOp::Xor => 7,
        BinaryOp::Or => 8,
        BinaryOp::Cons => 9,
        BinaryOp::AndAnd => 10,
        BinaryOp::OrOr => 11,
    }
}

/// The level of what stands on the right of an operator.
pub fn right_level(op: BinaryOp) -> u32
    ensures { result ≡ tree.right_level op }
{
    match op {
        BinaryOp::Mul | BinaryOp::Div | BinaryOp::Rem => 0,
        BinaryOp::Add | BinaryOp::Sub => 1,
        BinaryOp::Shl | BinaryOp::Shr => 2,
        BinaryOp::Less | BinaryOp::LessEqual | BinaryOp::Greater | BinaryOp::GreaterEqual => 3,
        BinaryOp::Equal | BinaryOp::NotEqual => 4,
        BinaryOp::And => 5,
        BinaryOp::Xor => 6,
        BinaryOp::Or => 7,
        BinaryOp::Cons | BinaryOp::AndAnd => 9,
        BinaryOp::OrOr => 10,
    }
}
