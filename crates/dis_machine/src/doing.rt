/// Where a process stands.
#[derive(Clone, Copy, PartialEq, Eq, Debug)]
pub enum Doing {
    /// It can go on.
    Ready,
    /// It waits for a reply.
    Asking,
    /// It is over.
    Gone,
}
