use limbo_declarations::Row;

/// A declaration, and the number of the one inside which it stands: none at the top level.
#[derive(Clone, Copy)]
pub struct Entry<'a> {
    pub within: Option<u32>,
    pub row: Row<'a>,
}
