//! The command that the words of `inferno` ask for, as it is carried out: its FILE has a base name that isn't too long.
//!
//! `inferno_words` says which command the words ask for. The base name of a file is what follows its last `/`, without a last `.b` or
//! `.dis`; it takes at most 250 bytes of UTF-8, and a longer one is a wrong usage too. `specs/Asked.antt` has both: `asked` answers the
//! command, and nothing else. `specs/Words.antt` is what the program asks of it: which file is to be run, for how many quanta, which is
//! to be listed, and which is to be compiled to which. The program stands on it.
//!
//! Read `base`, then `asking`.
#![tactic(auto)]

mod asking;
mod base;

pub use asking::asked;
pub use base::base_name;
