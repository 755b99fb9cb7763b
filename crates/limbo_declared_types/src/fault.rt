use limbo_refusals::ExprFault;

/// The declaration that writes a type which values may not have, and why they may not.
#[derive(Drop)]
pub struct Forbidden {
    /// The declaration's number.
    pub number: u32,
    pub fault: ExprFault,
}
