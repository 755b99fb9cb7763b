//! What rows together come to.

ghost use Rattle.rows_leading.specs.Leading.{SuitingFollow, SuitingLead};

/// Wherever two processes stand alike in front of an instruction of a module that suits, its row leads to where they do again, or both end
/// alike.
pub fn suiting_lead()
    ensures { SuitingLead }
{}

/// So the machine with the module's object follows its three-address code, whatever values it has.
pub fn suiting_follow()
    ensures { SuitingFollow }
{}
