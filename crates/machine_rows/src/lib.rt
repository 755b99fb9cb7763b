//! Rows of the host and of opcodes: what is printed over outputs that fail, and which number an operation has. The calls' contracts say all
//! this; no code stands here but these tests. What objects come to on the machine is dis_machine_rows'.
#![tactic(auto)]

#[cfg(test)]
mod objects;
#[cfg(test)]
mod opcodes;
#[cfg(test)]
mod outputs;
