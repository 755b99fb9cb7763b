use dis_file::Object;

/// An object as a machine runs it: where memory's tables have its types and the names of its import tables.
#[derive(Drop)]
pub struct Code {
    pub object: Object,
    /// The number of its type 0 among the types of the tables. The others follow.
    pub types: u32,
    /// The number of its first import table's names. Those of the others follow.
    pub names: u32,
}
