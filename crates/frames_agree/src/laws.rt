//! What holds of the frames of modules of numbers.

ghost use Rattle.frames_agree.specs.Agree.{FramesAgree};

/// A checked module of numbers alone has frames of the same sizes by both passes, and one finds a frame too large exactly where the other
/// does.
pub fn frames_agree()
    ensures { FramesAgree }
{}
