//! One instruction of a process of the Dis machine with memory, in place and with exact counts.
//!
//! `step` runs the instruction at a process's place, and says what it came to (`Stepped`): dis_memory's definition of a step, and then the
//! one cut that process_model has behind each. What a process refers to that ends, breaks or faults is let go (`ending`). An instruction
//! belongs to a family (`forms`), and each family's instructions are the crates' below.
#![tactic(auto)]

mod codes;
mod ending;
mod families;
mod forms;
mod hearing;
mod laws;
mod obeying;
mod outcome;
mod steps;

pub use ending::end;
pub use forms::{Arraying, Channelling, Control, Form, Listing, Moving, Texting};
pub use hearing::hear;
pub use laws::forms_obey;
pub use outcome::Stepped;
pub use steps::step;
