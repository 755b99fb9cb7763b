//! How the values of types lie in memory (Limbo Language Reference, types; Dis Virtual Machine Specification, types).
//!
//! A byte takes 1 byte, an int, a reference and a string 4, a big 8; a tuple or an adt lays its parts in order, each at a multiple
//! of its own alignment, and takes a multiple of its largest part's. A pick adt has its tag first, then the common fields, then
//! the fields of each variant, none in the place of another.
//!
//! `specs/Adts.antt` has adts as definitions speak of them, `specs/Layout.antt` the room that a type takes, as the least relation
//! by three rules, and `specs/Laws.antt` what follows of it. `layout_of` gives a type's layout, `lay_all` the rooms of all adts,
//! in their order: each is laid after those that its values hold in place, on a way that is kept as a list.
#![tactic(auto)]

mod def;
mod laws;
mod laying;
mod layout;
mod order;
mod room;

pub use def::{AdtDef, AdtsFault, Field, LayoutFault, Variant};
pub use laws::{are_aligned, holds_not_itself, one_layout, parts_lie_apart};
pub use layout::{Layout, layout_of};
pub use order::lay_all;
pub use room::{LIMIT, Room};
