//! The process that runs.

ghost use Rattle.dis_places.specs.View.{view_process, view_world};
ghost use Rattle.dis_turns.specs.Turns.{IsExact};
ghost use Rattle.dis_turns.specs.Given.{IsGiven};
ghost use Rattle.dis_machine.specs.Doings.{view_doing, is_given_once};

use crate::doing::Doing;
use dis_places::{Memory, Process};

/// The process that runs, and what processes share.
#[derive(Drop)]
pub struct Running {
    pub process: Process,
    pub doing: Doing,
    pub memory: Memory,
    // Each block's count is how often the process and the blocks name it.
    ghost exact: { IsExact memory (view_doing doing (view_process process)) },
    // Each frame has a serial that the machine gave.
    ghost given: { IsGiven (view_world memory) (view_doing doing (view_process process)) } by { is_given_once (view_world memory) (view_doing doing (view_process process)) },
}
