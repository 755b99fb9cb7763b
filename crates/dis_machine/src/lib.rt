//! The machine: a process of Dis code over counted memory, its requests and the replies to these, and a journal of what happened.
//!
//! `Machine::start` begins with an object. `quantum` runs a process that is ready, `take_reply` enters a reply, `next_frame` hands over
//! the oldest request of a link; `ready` and `is_ready` say which process can go on, `ended` how the run has ended, and `broken` which
//! processes broke; `into_parts` gives the journal, the objects and the processes that broke. A machine keeps by its type, in the field
//! `kept`, that its journal is sound and leads to the state that it is in: what a run did is told by its journal alone. Its process and
//! memory keep, in the fields of `Running`, that each block's count is how often the process and the blocks name it.
//!
//! `specs/` in the order of reading: `Journal` (what happens, and the state that a journal leads to), `Frames` (the requests), `Ends` (how
//! a run has ended), `Translated` (a replay here is one of process_model), `Doings` (where the process stands, and what holds of it then),
//! `Loaded` (tables that have what objects ask for), `Running` (the process as the definitions have it, and what an instruction and a reply
//! tell), `Kept` (what a machine keeps), `Sets` (it has one proof), `Standing` (what calls do to a machine), `Taken` (which replies are
//! taken).
//!
//! dis_opening makes what an object begins with, dis_steps runs its instructions and hears replies. `state` is the process that runs,
//! `running` runs rows of instructions, `outcome` keeps what was told, `machine` enters quanta and replies, `reply` reads replies,
//! `standing` answers questions.
#![tactic(auto)]

mod doing;
mod end;
mod event;
mod laws;
mod machine;
mod outcome;
mod reply;
mod running;
mod standing;
mod state;

pub use dis_opening::StartFault;
pub use doing::Doing;
pub use end::End;
pub use event::{Event, Journal};
pub use laws::{journals_translate, replies_happen};
pub use machine::{Machine, Setup};
pub use outcome::{Broken, Faulted, Outcome};
pub use reply::ReplyFault;
pub use standing::Parts;
pub use state::Running;
