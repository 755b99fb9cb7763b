//! Bytes as strings (Limbo Language Reference, conversions; UTF-8 is RFC 3629), as a definition that computes.
//!
//! `specs/Bytes.antt` reads bytes from the front: the spelling of a character gives that character, and a byte that begins none gives
//! U+FFFD. What programs mean and the machine stand on it.
#![tactic(auto)]

mod laws;

pub use laws::bytes_are_read;
