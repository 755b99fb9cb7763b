//! The system as a process sees it, in a program and in a machine alike: values, the outside that processes share, what a print
//! asks of it and what the replies come to, how a process ends, and what is told. Only definitions stand here. The meaning of
//! programs, three-address code and the machine are defined over them, so what a source does to the outside is what its machine
//! does.
//!
//! `specs/` in the order of reading: `Values`, `World` (open files, links and their tags), `Prints` (requests and replies), `Verbs` (how
//! numbers are told by the verbs of a format), `Ending` (how a process ends), `Trace` (what is told), `Limits`.
#![tactic(auto)]
