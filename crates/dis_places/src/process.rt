ghost use Rattle.std.specs.Prelude.{ℕ, ◌≤◌};
ghost use Rattle.dis_places.specs.Frames.{view_frame, view_frames, occurs};

use crate::frame::Frame;
use ref_heap::Place;
use sys_print::Writing;

/// A print that waits for a reply: what it has written, and where its answer goes.
#[derive(Drop)]
pub struct Asking {
    pub writing: Writing,
    pub place: Place,
    pub at: i64,
}

/// A process: its number; the frame that runs; those that wait for it, the latest last; those that are made and not yet called; and
/// the print that waits for a reply, if one does.
#[derive(Drop)]
pub struct Process {
    pub number: u32,
    pub frame: Frame,
    pub below: Vec<Frame>,
    pub made: Vec<Frame>,
    pub printing: Option<Asking>,
    // Each serial is at most one frame's.
    ghost once: { (n : ℕ) → occurs n (view_frame frame) (view_frames below.items) (view_frames made.items) ≤ 1 },
}
