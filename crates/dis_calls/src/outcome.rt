use inf_text::Text;
use sys_print::Request;

/// What an instruction came to that neither faults nor raises.
#[derive(Drop)]
pub enum Does {
    /// The process goes on.
    Went,
    /// It asks the outside, and waits for the reply.
    Asked(Request),
    /// It returned from its first function.
    Ended,
    /// It broke, with this text.
    Broken(Text),
}
