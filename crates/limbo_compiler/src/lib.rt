//! The compiler from checked modules of Limbo to objects, both its passes, and what a run of its objects means.
//!
//! `compile` makes the object of a module, or says which limit the module passes (`specs/Limits`); by the law `objects_valid` the object is
//! a valid object file. `specs/Means` says what a run owes
//! to the module's meaning, whatever its quanta and replies were and wherever it ended: there is a run of the module of which the same
//! was told, at the pace. The law `journals_mean` has it for each journal of a machine, the object's replay being dis_machine's; by
//! the law `none_fault` no such journal tells of a wrong instruction, and by `counts_exact` each leaves in memory exactly the blocks whose
//! count isn't 0. memory_sim has this of process_model's journals.
#![tactic(auto)]

mod laws;
mod passes;

pub use laws::{counts_exact, journals_mean, none_fault, objects_valid};
pub use passes::{CompileFault, compile};
