//! What holds of every operation.

ghost use Rattle.dis_steps.specs.Forms.{FormsObey};

/// Each operation does what its family says.
pub fn forms_obey()
    ensures { FormsObey }
{}
