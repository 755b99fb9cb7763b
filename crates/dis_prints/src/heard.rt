use dis_places::Fault;
use sys_print::Request;

/// What a reply came to.
#[derive(Drop)]
pub enum Heard {
    /// The process goes on.
    Went,
    /// It asks again.
    Asked(Request),
    /// There is no place for the answer.
    Fault(Fault),
    /// It is none to a request of the process.
    Refused,
    NoMemory,
}
