//! What holds of blocks that stand for values.

ghost use Rattle.value_heaps.specs.Laws.{AllBlocksStand, ContentsAre};
ghost use Rattle.value_heaps.specs.Made.{MadeBlank};

/// A block stands for its value for good, and names a block for each value of the heap that the value names, and no others but texts.
pub fn blocks_stand()
    ensures { AllBlocksStand }
{}

/// All that the law of two heaps asks of contents holds of them.
pub fn contents_are()
    ensures { ContentsAre }
{}

/// A new record and each element of a new array are blank for values of their type, and so stand for zero.
pub fn made_blank()
    ensures { MadeBlank }
{}
