//! Frames of a process by their serials.

ghost use Rattle.std.specs.Prelude.{◌≡◌, IfSome, IfNone};
ghost use Rattle.dis_places.specs.Frames.{view_frames, count, IsAt};
ghost use Rattle.dis_places.specs.Regions.{Stands};

use crate::frame::Frame;
use crate::process::Process;

/// Where a frame of a process stands.
#[derive(Clone, Copy)]
pub enum Slot {
    Running,
    Below(usize),
    Made(usize),
    Gone,
}

/// The place of the frame of this serial, looked for from the end.
pub fn position(frames: &[Frame], serial: u64) -> Option<usize>
    ensures found { IfSome result (IsAt serial (view_frames frames.now)) }
    ensures absent { IfNone result (count serial (view_frames frames.now) ≡ 0) }
{
    let mut left = frames.len();
    while left > 0 {
        left -= 1;
        if frames[left].serial == serial {
            return Some(left);
        }
    }
    None
}

/// Where the frame of this serial stands.
pub fn find(process: &Process, serial: u64) -> Slot
    ensures { Stands result serial process.now }
{
    if process.frame.serial == serial {
        return Slot::Running;
    }
    if let Some(k) = position(&process.made, serial) {
        return Slot::Made(k);
    }
    match position(&process.below, serial) {
        Some(k) => Slot::Below(k),
        None => Slot::Gone,
    }
}
