//! The formats of prints (Inferno manual, sys-print(2)).
//!
//! A format is cut into its parts, and these are fitted to the arguments that stand behind it: `specs/Formats.antt` says how a
//! format is written, and which arguments it takes. The checker of expressions stands on it.
//!
//! Read `format`, `laws`.
#![tactic(auto)]

mod format;
mod laws;

pub use format::{FormatPart, Verb, fit, parts_of};
pub use laws::{one_format, pieces_ask};
