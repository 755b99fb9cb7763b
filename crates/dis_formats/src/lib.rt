//! What formats make of the arguments in words of the machine with memory, as a program beside the definition of dis_memory.
//!
//! A print's frame has a format, and behind it the arguments (`printed`). A verb of the format takes the next number or string of them
//! (`formatted`). A format that doesn't fit its frame is told, whatever is wrong. Nothing is changed here. The contracts cite
//! dis_memory's `Formats`; the crate of calls of modules stands on it.
//!
//! In the order of reading: `verbs`, `arguments`, `formats`.
#![tactic(auto)]

mod arguments;
mod formats;
mod verbs;

pub use formats::printed;
