//! What holds of the frames of functions over values.

ghost use Rattle.core_frames.specs.Even.{EvenSlotsFit};
ghost use Rattle.core_frames.specs.Fits.{SlotsAreListed, SlotsFit, SlotsFitAligned};
ghost use Rattle.core_frames.specs.Nodes.{NodesFit, SlotsAreFew};
ghost use Rattle.core_frames.specs.Places.{SlotsLieApart};

/// The variables and the slots of a function fit into the frame that its nodes count.
pub fn slots_fit()
    ensures { SlotsFit }
{}

/// They do so too where slots begin at the next multiple of 8 behind the variables: each statement leaves 8 bytes of what it counts.
pub fn slots_fit_aligned()
    ensures { SlotsFitAligned }
{}

/// They fit too where each slot takes 8 bytes, and those of one number lie in one place in the whole function.
pub fn even_slots_fit()
    ensures { EvenSlotsFit }
{}

/// A statement has few nodes because the frame is small that it counts: each node takes 8 of its bytes. So it is of each expression, of
/// expressions in a list, and of the places that are read and written.
pub fn nodes_fit()
    ensures { NodesFit }
{}

/// They use no more slots than the bytes that they count, and so do the parts of an initialiser; a function has no more slots than its
/// frame has bytes.
pub fn slots_are_few()
    ensures { SlotsAreFew }
{}

/// The slots that are laid into a frame are those of the code: a tree uses as many as are listed of it, a function as many as its greatest
/// statement but one at least, and each slot into which an instruction puts something is listed with room for that.
pub fn slots_are_listed()
    ensures { SlotsAreListed }
{}

/// Slots that are laid from a byte on have their rooms in as many bytes as are counted for them, at multiples of 8, and none that are used
/// at one time lie in one another. A number of a slot that elements of an initialiser share may lie elsewhere for each of them.
pub fn slots_lie_apart()
    ensures { SlotsLieApart }
{}
