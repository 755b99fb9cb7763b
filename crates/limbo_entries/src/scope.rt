use limbo_declarations::Names;

/// The declarations of a scope: the number of the first, and their names in order.
#[derive(Drop)]
pub struct Scope<'a> {
    pub first: usize,
    pub names: Names<'a>,
}
