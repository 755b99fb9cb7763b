//! Rows of the machine with memory: what instructions written by hand come to, how small objects run and end, what formats make of numbers
//! and strings, and what programs over strings, arrays, lists and records print. The calls' contracts say all this; the rows show each
//! family once with its values written out beside it. No code stands here but these tests; the crates below have none of their own.
#![tactic(auto)]

#[cfg(test)]
mod assembly;
#[cfg(test)]
mod blocks;
#[cfg(test)]
mod formats;
#[cfg(test)]
mod hosting;
#[cfg(test)]
mod machines;
#[cfg(test)]
mod numbers;
#[cfg(test)]
mod objects;
#[cfg(test)]
mod parts;
#[cfg(test)]
mod programs;
#[cfg(test)]
mod runs;
