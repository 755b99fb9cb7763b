//! The frames of modules of numbers are as large by the pass over values as by the pass over numbers.
//!
//! No code stands here, only a law. `specs/Agree` says of which modules the two definitions of a frame's size agree, `typed_lower`'s and
//! `core_frames`'s: so a compiler that goes over to values refuses no such module that it took before, and takes none that it refused.
#![tactic(auto)]

mod laws;

pub use laws::frames_agree;
