//! What holds of instructions on strings, arrays and lists.

ghost use Rattle.std.specs.Prelude.{List};
ghost use Rattle.limbo_layout.specs.Adts.{Def};
ghost use Rattle.limbo_meaning.specs.Memory.{HeapValue};
ghost use Rattle.heap_model.specs.Contents.{Contents};
ghost use Rattle.dis_memory.specs.Blocks.{Block};
ghost use Rattle.value_words.specs.Forms.{Form};
ghost use Rattle.block_effects.specs.Stored.{OperandsReadAll, StoresBehind};
ghost use Rattle.block_effects.specs.Contents.{AreBlocks, BlocksAreSuch, ListsAreCounted, ReferencesLeadBy};
ghost use Rattle.block_effects.specs.Copying.{WordsAreCopied, BytesAreCopied};
ghost use Rattle.block_effects.specs.Strings.{StringsComeAll};
ghost use Rattle.block_effects.specs.Arrays.{ArraysComeAll};
ghost use Rattle.block_effects.specs.Lists.{ListsComeAll};

/// What is said of blocks and of the values that they stand for.
pub trait Blocks {
    ghost defs: { List Def };

    ghost contents: { Contents HeapValue Block Form };

    ghost are: { AreBlocks defs contents };
}

/// A reference whose block is there leads to the text, to the elements or to the cell that it stands for.
pub fn references_lead<J: Blocks>()
    ensures { ReferencesLeadBy J.defs J.contents }
{}

/// What is said of the blocks of values is such that references lead there.
pub fn blocks_are_such()
    ensures { BlocksAreSuch }
{}

/// A list has as many cells as are counted.
pub fn lists_are_counted()
    ensures { ListsAreCounted }
{}

/// An operand that leads somewhere reads what stands there.
pub fn operands_read()
    ensures { OperandsReadAll }
{}

/// Words are stored where they were, with a new block behind all others.
pub fn stores_behind()
    ensures { StoresBehind }
{}

/// Words and bytes that are copied are those that stood there, and all others are as they were.
pub fn words_are_copied()
    ensures { WordsAreCopied }
{}

/// Bytes are read where they stand, and make an array.
pub fn bytes_are_copied()
    ensures { BytesAreCopied }
{}

/// Instructions on strings, case by case.
pub fn strings_come()
    ensures { StringsComeAll }
{}

/// Instructions on records and arrays, case by case.
pub fn arrays_come()
    ensures { ArraysComeAll }
{}

/// Instructions on lists, case by case.
pub fn lists_come()
    ensures { ListsComeAll }
{}
