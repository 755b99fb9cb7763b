//! Reads what of statements holds no statements: how each begins, the heads of arms, and their parts (Limbo Language Reference,
//! statements).
//!
//! `specs/Start.antt`, `Heads.antt` and `Jumps.antt` have the readers as functions on lists of tokens, and each function of
//! the code gives what its reader gives. The parser of statements stands on it.
#![tactic(auto)]

mod heads;
mod parts;
mod start;

pub use heads::{alt_front_at, case_front_at, ends, handler_front_at, pick_front_at};
pub use parts::{ForHead, expr_before, for_head_at, label_at, option_before};
pub use start::{Branch, Choice, Jump, Loop, Region, Start, beginning};
