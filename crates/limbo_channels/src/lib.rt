//! What is sent, received and loaded (Limbo Language Reference, expressions).
//!
//! `specs/Channels.antt` and `specs/Loading.antt` say which expression `channel <-= value`, `<-channel` and `load M path` are, given
//! their parts with their types. Each call here puts such parts together, or says why there is no such expression. The checker of
//! expressions stands on it.
//!
//! Read `channel`, `loading`, `laws`.
#![tactic(auto)]

mod building;
mod channel;
mod laws;
mod loading;

pub use channel::{receive, send};
pub use laws::{one_load, one_receive, one_send, sound_channels, sound_loads};
pub use loading::load;
