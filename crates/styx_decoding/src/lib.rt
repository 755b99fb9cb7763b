//! Messages of Styx (9P2000) from bytes (Inferno Programmer's Manual, section 5).
//!
//! `decode_t` and `decode_r` give the message that bytes begin with by the grammar of `styx_msg`, or say what is wrong. The laws say that
//! bytes begin with at most one message, and that a message's spelling is read back as the message. `specs/Reading` is how fields are
//! read one behind another, `specs/Decoding` what a call answers.
#![tactic(auto)]

mod decoding;
mod kind;
mod laws;
mod r_body;
mod reading;
mod t_body;

pub use decoding::{decode_r, decode_t};
pub use laws::{one_direction, one_reply, one_request, reply_read_back, request_read_back};
