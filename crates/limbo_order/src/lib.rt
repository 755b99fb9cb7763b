//! The order in which things that need one another can be worked out: the constants of a source, whose values are written with
//! other constants, and the types that it declares by other types (Limbo Language Reference, declarations). A name may be used
//! before the place that declares it, so the order of the text won't do.
//!
//! The things have numbers, and each has a row of the numbers that it needs. `specs/Order.antt` says what an order is and when a
//! number needs itself, `specs/Laws.antt` what follows of it, `specs/Searching.antt` what is known while an order is looked for.
//! `order` finds one, or a number that needs itself: in time that grows as the rows do, and with no recursion.
#![tactic(auto)]

mod fault;
mod laws;
mod ordering;

pub use fault::OrderFault;
pub use laws::{all_before, none_needs_itself};
pub use ordering::order;
