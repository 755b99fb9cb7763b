//! What the members of modules mean to those who come through the modules, and which module is the built-in one of the system's calls
//! (Limbo Language Reference, modules, Sys).
//!
//! A function means its place among the functions of its module (`specs/Exports.antt`); the prints of the built-in module stand behind
//! its other functions. That module is known by the text in which it stands (`specs/System.antt`).
//!
//! Read `system`, `exports`, `laws`.
#![tactic(auto)]

mod exports;
mod laws;
mod system;

pub use exports::{find_exports, is_called};
pub use laws::{fd_has_number, function_exported, print_exported, system_has_number};
pub use system::{fd_number, find_fd, find_system, print_of, system_number};
