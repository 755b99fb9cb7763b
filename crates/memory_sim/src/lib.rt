//! What a compiled program does on the machine with memory: the same as on the machine of numbers, so what its module means. No code
//! stands here, only definitions and a law.
//!
//! `specs/Keeps` says what such a machine owes to the module. In `proofs/`, `Keeping` puts together that the object keeps the module's
//! meaning on today's machine (`code_sim`), and that both machines do the same where today's doesn't fault (`dis_agreement`).
#![tactic(auto)]

mod laws;

pub use laws::memory_keeps_meaning;
