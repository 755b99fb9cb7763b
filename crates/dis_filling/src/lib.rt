//! Where items of an object's initial data may stand, while they are put in (dis(6), "Data section").
//!
//! `Filled` is what the items so far did; `takes`, `has_element` and `leaves_one` say what may come next, `take_in` what it does. Its
//! contracts cite `Loading` of `dis_format`, as which `specs/Filling` sees it. dis_reading stands on it.
#![tactic(auto)]

mod filled;

pub use filled::{Filled, content_size, size_of};
