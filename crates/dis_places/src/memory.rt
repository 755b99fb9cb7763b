ghost use Rattle.dis_places.specs.Blocks.{AreProper};

use dis_file::TypeDesc;
use inf_text::Text;
use ref_heap::Heap;
use sys_print::World;

/// What kinds of blocks say by a number: the types of elements, and the names to which the built-in module is linked.
#[derive(Drop)]
pub struct Tables {
    pub types: Vec<TypeDesc>,
    pub names: Vec<Vec<Text>>,
}

/// What all processes share: the blocks, and what their kinds say by a number; how many frames were made so far, which is the next
/// one's serial; and the outside.
#[derive(Drop)]
pub struct Memory {
    pub heap: Heap,
    pub tables: Tables,
    pub frames: u64,
    pub outside: World,
    // Each block holds what its kind says.
    ghost proper: { AreProper heap },
}
