//! Rows that read and write places in blocks: elements of arrays, what references name, variables of the module. No code stands here, only
//! laws.
//!
//! `specs/Rows`: of which instructions of three-address code it is so that their row leads from where two processes stand alike to where
//! they do again.
#![tactic(auto)]

mod laws;

pub use laws::{
    box_elements_go, box_targets_go, character_writes_go, characters_go, element_goes,
    element_whole_goes, element_wholes_go, element_writes_go, elements_go, global_wholes_go,
    global_writes_go, local_wholes_go, other_goes, other_whole_goes, target_wholes_go,
    target_writes_go, targets_go,
};
