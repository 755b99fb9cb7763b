//! Scopes: what a name can mean, and what it means where it stands (Limbo Language Reference, scope).
//!
//! A contract sees `Scopes` as a list of finite maps from names to meanings, the innermost first (`specs/Scopes.antt`), and
//! `seen` there says what a name means: what the innermost scope says that declares it. `laws` has what follows for who
//! enters a scope and leaves it. A look-up takes at most one look into the map of each scope. The checkers stand on it.
//!
//! Read `meaning`, `scopes`, `laws`.
#![tactic(auto)]

mod laws;
mod meaning;
mod scopes;

pub use laws::{gives_back, innermost_counts};
pub use meaning::Meaning;
pub use scopes::{ScopeFault, Scopes};
