//! Which stores are refused (Limbo Language Reference, assignment; Sys).
//!
//! No store may make a heap value reach itself, and none goes into an `FD` of `Sys`, which is opaque. `specs/Stores.antt` says which object
//! holds a place, and which stores are refused; `specs/Heaps.antt` says what a ring of values is, so that the laws can say that what isn't
//! refused makes none. The checker asks it of each expression, and of each arm that receives or sends.
//!
//! Read `outcome`, `place`, `storing`, `laws`.
#![tactic(auto)]

mod laws;
mod outcome;
mod place;
mod storing;

pub use laws::{
    copies_never_close, parts_lie_in, places_lie_in_holders, sends_never_close,
    stores_make_no_ring, stores_never_close,
};
pub use outcome::Store;
pub use storing::{pattern_store, send_closes, store};
