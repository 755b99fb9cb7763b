//! Reads the texts that a source includes, from a tree of files (Limbo Language Reference, include).
//!
//! `tree_at` gives the tree of the text that stands at a path: of a built-in text, `sys.m` or `draw.m`, under its name, which is
//! never read from the files, and else of the file. `specs/Files.antt` says what stands at a path, `specs/Texts.antt` when its
//! bytes are an included text, and why they are none.
//!
//! `read_included` reads all texts that a source includes, one in the other: it gives each once, with what stands in it, and leaves
//! out a path at which no text stands. `specs/Reading.antt` says what is read, and which text a refusal is of. The command stands
//! on it.
//!
//! Read `built_in`, `text`, `fault`, `opening`, `tree`, `reader`, `level`, `reading`.
#![tactic(auto)]

mod built_in;
mod fault;
mod level;
mod opening;
mod reader;
mod reading;
mod text;
mod tree;

pub use fault::FilesFault;
pub use reading::read_included;
pub use tree::tree_at;
