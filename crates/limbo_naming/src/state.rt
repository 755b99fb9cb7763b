/// How far it is known what a declaration leads to.
#[derive(Clone, Copy)]
pub enum State {
    NotYet,
    /// It stands on the path that is gone.
    Entered,
    /// It leads there, or nowhere.
    Done(Option<u32>),
}

/// What was found of a name.
#[derive(Clone, Copy)]
pub enum Found {
    /// The number of what it names.
    Named(u32),
    /// It isn't there: no such name is found, or the module or adt before it has no such member or part.
    Unknown,
    /// What stands before it has no members or parts, or it leads in a circle.
    Nothing,
    /// It leads through this declaration, of which it isn't known yet where it leads.
    Needs(u32),
}
