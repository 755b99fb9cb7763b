//! What holds of words that are accounted for.

ghost use Rattle.dis_memory.specs.Blocks.{Block};
ghost use Rattle.heap_model.specs.Contents.{Contents};
ghost use Rattle.value_roots.specs.Laws.{AccountsHold, LeftAccounted, StillThere};
ghost use Rattle.value_words.specs.Forms.{Form};

/// Words that are accounted for and lead to all that is named hold it; so do the words of a process. They stay accounted for while the
/// inner blocks that they reach stay, and two lists of them are so together exactly where each is.
pub fn accounts_hold()
    ensures { AccountsHold }
{}

/// A source's heap beside the heap of blocks: what its values are, and what is said of them and of blocks.
pub trait BesideBlocks {
    ghost value: { Type 0 };

    ghost contents: { Contents value Block Form };
}

/// What other processes do, and what a cut takes, leaves words accounted for while all that they refer to is there.
pub fn left_accounted<S: BesideBlocks>()
    ensures { LeftAccounted S.contents }
{}

/// Where all that a process names is there, so is all that it names when it went a step.
pub fn still_there()
    ensures { StillThere }
{}
