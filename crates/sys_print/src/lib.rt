//! What `sys->print` asks of the outside, and what the replies come to, as a program: the requests and answers that
//! system_model defines.
//!
//! A print of a text is a row of Twrites to the console, one behind the reply to the other: `print` makes the first of them and `hear`
//! goes on with a reply. The contract of each is the definition of its name in system_model's `Prints`; `specs/Worlds` and
//! `specs/Printing` join the data here to those of the definitions, and `specs/Sent` says that what
//! is asked is a message. `verbs` has how numbers are told by the verbs of a format. The machine stands on it.
#![tactic(auto)]

mod outside;
mod prints;
mod verbs;
mod writing;

pub use outside::{File, Files, Link, Links, World, opening_world};
pub use prints::{Printing, hear, print};
pub use verbs::{character, hexadecimal};
pub use writing::{Request, Writing};
