//! What holds of frames.

ghost use Rattle.value_frames.specs.Beginning.{FramesBegin};
ghost use Rattle.value_frames.specs.Later.{FramesLater};
ghost use Rattle.value_frames.specs.Replacing.{KindsStay};
ghost use Rattle.value_frames.specs.Rest.{SlotsRest};
ghost use Rattle.value_frames.specs.Slots.{SlotsChange};

/// A frame as the machine makes it stands for empty slots and zero variables.
pub fn frames_begin()
    ensures { FramesBegin }
{}

/// A frame stands for the same but for what changed in it.
pub fn slots_change()
    ensures { SlotsChange }
{}

/// A frame stands for what it stood for while the blocks of its own are as they were, as when only others step.
pub fn frames_later()
    ensures { FramesLater }
{}

/// What a slot has is told by what is known of it; where its value names nothing, it refers idly.
pub fn slots_rest()
    ensures { SlotsRest }
{}

/// Words stay of their type where a word that refers takes the place of one that refers, and a number that of a number.
pub fn kinds_stay()
    ensures { KindsStay }
{}
