/// What items of the initial data stand in: the module's data, or an array that an item made.
#[derive(Clone, Copy)]
pub struct Block {
    /// 0 is the module's data; then the strings and arrays count, in the order of their items.
    pub number: usize,
    /// The number of the elements' type; of the module's data, 0.
    pub kind: u32,
    /// The size of an element in bytes; of the module's data, all of its bytes.
    pub size: u32,
    /// How many elements there are; of the module's data, 1.
    pub length: u32,
}

/// Where the offsets of items count from: an element of a block.
#[derive(Clone, Copy)]
pub struct Place {
    pub block: Block,
    pub index: u32,
}

/// What an item put on a reference word.
#[derive(Clone, Copy)]
pub struct Standing {
    /// The number of the block that the word is in.
    pub block: usize,
    /// Where the word stands, in bytes from the start of the block.
    pub at: u64,
    /// The array, or `None` for a string.
    pub array: Option<Block>,
}
