//! Trees on the heap. Readers hold their trees so, since a tree by value would make each frame large.

ghost use Rattle.std.specs.Prelude.{◌≡◌, ◌++◌, [], ◌∷◌, Ok, IfOk, IfErr, List};
ghost use Rattle.limbo_lexer.specs.declared.token.Kind.{Kind};
ghost use Rattle.limbo_tree.specs.Types.{Ty, ty_nesting};
ghost use Rattle.limbo_tree.specs.Exprs as trees;
ghost use Rattle.limbo_tree.specs.Exprs.{nesting};
ghost use Rattle.limbo_tree.specs.View.{view_expr, view_type};
ghost use Rattle.limbo_reading.specs.declared.fault.ReadError.TheVariants.{NoMemory};
ghost use Rattle.limbo_reading.specs.Reading.{kinds, Gives};

use limbo_lexer::Token;
use limbo_reading::ReadError;
use limbo_tree::{Expr, TypeTree};
use std::alloc::Global;

/// The tree in a box of its own.
///
/// # Errors
/// `NoMemory`.
pub fn boxed(alloc: Global, tree: Expr) -> Result<Box<Expr>, ReadError>
    ensures same { IfOk result (λ b. b.value ≡ tree) }
    ensures memory { IfErr result (λ e. e ≡ NoMemory) }
{
    Ok(Box::new(alloc, tree)?)
}

/// A tree that was read, in a box of its own, with its nesting and what stands behind it.
///
/// # Errors
/// `NoMemory`.
pub fn built(
    alloc: Global,
    tree: Expr,
    size: u32,
    rest: &[Token],
) -> Result<(Box<Expr>, u32, &[Token]), ReadError>
    requires { size ≡ nesting (view_expr tree) }
    ensures same { Gives {Y = trees.Expr × List Kind} (λ x. (view_expr x.0.value, kinds x.2.now)) result (Ok (view_expr tree, kinds rest.now)) }
    ensures size { IfOk result (λ x. x.1 ≡ nesting (view_expr x.0.value)) }
    ensures told { IfOk result (λ x. x.1 ≡ size) }
{
    Ok((boxed(alloc, tree)?, size, rest))
}

/// A type that was read, in a box of its own, with its nesting and what stands behind it.
///
/// # Errors
/// `NoMemory`.
pub fn built_type(
    alloc: Global,
    tree: TypeTree,
    size: u32,
    rest: &[Token],
) -> Result<(Box<TypeTree>, u32, &[Token]), ReadError>
    requires { size ≡ ty_nesting (view_type tree) }
    ensures same { Gives {Y = Ty × List Kind} (λ x. (view_type x.0.value, kinds x.2.now)) result (Ok (view_type tree, kinds rest.now)) }
    ensures size { IfOk result (λ x. x.1 ≡ ty_nesting (view_type x.0.value)) }
    ensures told { IfOk result (λ x. x.1 ≡ size) }
{
    Ok((Box::new(alloc, tree)?, size, rest))
}

/// Adds a tree to some.
///
/// # Errors
/// `NoMemory`.
pub fn push_expr(trees: &mut Vec<Expr>, tree: Box<Expr>) -> Result<(), ReadError>
    ensures items { IfOk result (λ _. trees.new.items ≡ trees.old.items ++ tree.value ∷ []) }
    ensures memory { IfErr result (λ e. e ≡ NoMemory) }
{
    Ok(trees.push(Box::into_inner(tree))?)
}

/// Adds a type to some.
///
/// # Errors
/// `NoMemory`.
pub fn push_type(types: &mut Vec<TypeTree>, of: Box<TypeTree>) -> Result<(), ReadError>
    ensures items { IfOk result (λ _. types.new.items ≡ types.old.items ++ of.value ∷ []) }
    ensures memory { IfErr result (λ e. e ≡ NoMemory) }
{
    Ok(types.push(Box::into_inner(of))?)
}
