//! The trees of Limbo sources, and the spelling of each (Limbo Language Reference, as this profile restates it).
//!
//! Trees are plain data with a variant for each alternative of the grammar. `specs/Types.antt`, `Exprs.antt`,
//! `Decls.antt`, `Stmts.antt` and `Sources.antt` define the same trees without their places, the tokens that spell
//! each, and which trees are well formed; together they are the grammar. `specs/View.antt` joins the two. `parts` has a
//! call for each part of a tree that several readers ask for (`specs/Parts.antt`), `spans` where a tree stands. The parser
//! and the checkers stand on it.
#![tactic(auto)]

mod decl;
mod expr;
mod name;
mod operators;
mod parts;
mod source;
mod spans;
mod stmt;
mod types;

pub use decl::{Decl, Field, FnType, Member, Param, Raises, Variant};
pub use expr::{Expr, Init};
pub use name::{Name, Qual};
pub use operators::{AssignOp, BinaryOp, PostfixOp, UnaryOp};
pub use parts::{
    arrow_in, assign_in, binary_in, call_in, chars_in, dot_in, group_in, index_in, member_in,
    name_in, names_of_decl, names_of_member, number_in, received_in, sent_in, single_in, unary_in,
};
pub use source::{Function, Source, Top};
pub use spans::{span_of, span_of_decl, span_of_stmt, span_of_type};
pub use stmt::{
    AltArm, Block, CaseArm, Handler, HandlerArm, HandlerPattern, Pattern, PickArm, Stmt,
};
pub use types::TypeTree;
