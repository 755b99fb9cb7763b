use dis_places::Fault;
use inf_text::Text;
use sys_print::Request;

/// What an instruction came to.
#[derive(Drop)]
pub enum Stepped {
    /// The process goes on.
    Went,
    /// It asks the outside, and waits for the reply.
    Asked(Request),
    /// It returned from its first function.
    Ended,
    /// It broke, with this text.
    Broken(Text),
    /// The object is wrong here.
    Fault(Fault),
    NoMemory,
}
