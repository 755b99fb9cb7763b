//! Limbo modules whose names are resolved and whose types are checked, of the whole language.
//!
//! The trees are plain data. Each expression and each place keeps its type; variables, functions, adts, module types and
//! exceptions stand in it by number; nothing says any more where it stood in a source. All operations that take the values of
//! their operands and give one are one node with the operation as data, and what can be assigned to is a type of its own.
//! `specs/Typed.antt` has the same trees without `Box` and `Vec`, `specs/View.antt` joins the two, and `specs/Sound.antt` says
//! what the checker promises of them. The checkers will make these trees; the meaning, three-address code and signatures will
//! take them.
//!
//! Read `operation`, `expr`, `stmt`, `module`.
#![tactic(auto)]

mod expr;
mod module;
mod operation;
mod print;
mod stmt;

pub use expr::{Item, Pattern, Place, PlaceNode, TExpr, TNode};
pub use module::{Declared, Initial, Interface, Signature, TException, TFn, TVar, TypedModule};
pub use operation::{Connective, Given, Operation, Sequence};
pub use print::{Hole, Piece, Printed};
pub use stmt::{
    AltArm, AltHead, CaseArm, CasePattern, Constant, HandlerArm, HandlerPattern, PickArm, TStmt,
};
