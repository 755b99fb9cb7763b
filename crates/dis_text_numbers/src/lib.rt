//! Conversions between strings, numbers and bytes, and comparisons of strings, as instructions of the Dis machine: cvtwc, cvtlc, cvtcw,
//! cvtcl, cvtca, cvtac, beqc, bnec, bltc, blec, bgtc, bgec.
//!
//! `codes` has what the characters of a string spell and count, apart from memory; `bytes` an array of bytes as it lies in words. The
//! contracts cite dis_memory's `Strings`; dis_strings has the strings that operands refer to, and dis_results `Goes`, what each
//! instruction promises.
#![tactic(auto)]

mod arrays;
mod bytes;
mod codes;
mod comparing;
mod numbers;

pub use arrays::{cvtac, cvtca};
pub use comparing::compares;
pub use numbers::{number_of_text, text_of_number};
