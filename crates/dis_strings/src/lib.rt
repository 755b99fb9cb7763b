//! Instructions of the Dis machine that make strings of others, with exact counts: addc, slicec, insc.
//!
//! A string that an instruction makes is a new block, to which the destination refers from then on (`give_text`): the destination is
//! looked at before anything is raised. Where the destination has the only reference to the string that `addc` or `insc` changes, that
//! string changes in place and its block becomes the next one (`renewing`), as the definition has it, so that a string that grows in a
//! loop isn't copied. What strings operands refer to, `operands` has; what an operation makes of them, `texts`, apart from memory. The
//! contracts cite dis_memory's `Strings`; dis_results has the instructions that make no block, and `Goes`, what each promises.
#![tactic(auto)]

mod giving;
mod making;
mod operands;
mod renewing;
mod texts;

pub use giving::{finish_text, give_text, text_to};
pub use making::{addc, insc, slicec};
pub use operands::{middle_text, source_text, text_there};
