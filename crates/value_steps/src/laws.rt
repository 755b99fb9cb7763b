//! What rows come to.

ghost use Rattle.value_steps.specs.Steps.{RowsFollow};

/// Where the row of each instruction leads from where two processes stand alike to where they do again, the machine follows the code: also
/// behind replies to prints, and while other processes step.
pub fn rows_follow()
    ensures { RowsFollow }
{}
