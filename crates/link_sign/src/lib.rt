//! Signatures of functions, by which a module that is loaded is linked (Dis Object File, links; Limbo Language Reference, load).
//!
//! The type of a function has a text, in which types stand as they are built and not by their names: `f(i)i` is the one of
//! `fn(x: int): int`. `specs/TypeText.antt` has it in two steps: the pieces of each form of type, and how pieces are spelled,
//! where an adt is written out where it is met for the first time and is a number behind that. The signature of a function is its
//! text's MD5 digest, folded to 32 bits (`specs/Signature.antt`). `clash` looks whether signatures tell the functions of some
//! modules apart (`specs/Clashes.antt`). `specs/Computed.antt` has the text as a function that computes, and `laws` what holds: a
//! function has one text, `equal` types have the same text, no function has the text of a built-in print, and texts clash or are apart. The code keeps what
//! is still to be written in a list, so no chain of adts is too long for it. The linker and the code generator will stand on it.
//!
//! Read `text`, `signing`, `clashing`, `laws`; `draft`, `spread` and `opened` are how a text is written.
#![tactic(auto)]

mod builtin;
mod clashing;
mod draft;
mod found;
mod laws;
mod opened;
mod signing;
mod spread;
mod text;

pub use builtin::{FPRINT, PRINT, SPRINT};
pub use clashing::clash;
pub use found::Clash;
pub use laws::{
    clash_or_apart, each_has_text, equal_types_one_text, none_is_print, one_clash, one_signature,
    one_text,
};
pub use signing::{fold_text, sign};
pub use text::sign_text;
