//! The part of the language that runs: functions over bytes, ints and bigs, with all that is done with numbers, and prints.
//!
//! The checker checks the whole language; the meaning of modules, and the compiler's passes that keep it, take this part of it so far.
//! `specs/Part.antt` says which checked modules are in it, by tests that go down the trees and look at the types again where the code
//! depends on them. `is_part` tells that of a module as it lies in memory, and `runs` whether it also has a function with which it begins;
//! their contracts cite the definitions, and they build nothing. The
//! law `part_has_code` joins the definition with the compiler: all that stands in the functions of such a module has code, which is what
//! the law of the first pass asks of a module.
//!
//! Read `kinds`, `inside`, `places`, `operations`, `calls`, `expressions`, `loading`, `statements`, `functions`, `modules`, `laws`;
//! `specs/Seen.antt` tells of what stands around a statement how it lies in memory.
#![tactic(auto)]

mod calls;
mod expressions;
mod functions;
mod inside;
mod kinds;
mod laws;
mod loading;
mod modules;
mod operations;
mod places;
mod statements;

pub use laws::part_has_code;
pub use modules::{is_part, runs};
