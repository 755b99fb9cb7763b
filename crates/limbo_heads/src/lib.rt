//! The heads of arms, and what `break` and `continue` speak of (Limbo Language Reference, statements).
//!
//! The patterns of an arm of a `case`, the variants and the variable of an arm of a `pick`, what an arm of a handler takes and what its
//! name has there; which loop or branch a `break` or a `continue` speaks of; and what is asked of all arms of a branch together.
//! `limbo_stating` says by rules what these are, and why there are none. The checker of statements stands on it.
//!
//! Read `around`, `turns`, `entering`, `cases`, `picks`, `exceptions`, `handling`, `catching`, `handlers`, `apart`, `once`.
#![tactic(auto)]

mod apart;
mod around;
mod cases;
mod catching;
mod entering;
mod exceptions;
mod handlers;
mod handling;
mod once;
mod picks;
mod turns;

pub use apart::are_apart;
pub use around::{Around, Turn};
pub use cases::case_patterns;
pub use handlers::{HandlerStart, handler_head};
pub use once::{has_one_star, pick_once};
pub use picks::{PickStart, pick_head};
pub use turns::{innermost_continued, innermost_labelled};
