//! The code of a node of an expression behind that of its operands.
//!
//! What code a tree has is said in `core_code`; here its pieces are written: what is lowered so far, the drops and where they move to,
//! the places of assignments, and the nodes. `core_writing` makes the code of whole trees of them.
//!
//! Read `lowered`, `copying`, `drops`, `aims`, `together`, `nodes`, `several`, `updates`, `initialisers`. Contracts speak of trees by how
//! many references their values have and where those of operands move; which these are is said by the crate above.
#![tactic(auto)]

mod aims;
mod copying;
mod drops;
mod initialisers;
mod lowered;
mod nodes;
mod several;
mod together;
mod updates;

pub use aims::{Aim, add_aims, begin, behind_all, way_of};
pub use copying::{copy_pieces, copy_way};
pub use drops::{Moved, put_drops};
pub use initialisers::{array_of, chain_others, fill, repeat_others, store};
pub use lowered::{Lowered, LoweredAll, join, put, put_all};
pub use nodes::{assign, call, copy_into, gather, give, pick, print, slot_in};
pub use several::{connect, item_of, link};
pub use together::Whole;
pub use updates::{Change, update};
