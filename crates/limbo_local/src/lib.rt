//! Declarations in bodies (Limbo Language Reference, declarations and scope).
//!
//! `specs/Points.antt` says where the checking of a body has come to: the lists that names lead to, which grow by what the body declares,
//! what names mean there, and the variables so far. `specs/Declaring.antt` says which typed statement a declaration is and where it leads,
//! `specs/Local.antt` and `specs/Members.antt` what constants, types, imported names, exceptions, adts and modules add, and
//! `specs/Failing.antt` why a declaration declares nothing. The laws say that a declaration is one statement at most, and that what fails
//! is none. The definitions of statements stand on it.
//!
//! Read `laws`.
#![tactic(auto)]

mod laws;

pub use laws::{fails_or_declares, one_declared};
pub use limbo_typing;
