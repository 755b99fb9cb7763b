//! What holds of rows that move values within a frame.

ghost use Rattle.rows_moving.specs.Rows.{NilsGo, ReadsGo, GlobalsGo, WritesGo};

/// `nil` comes into a slot.
pub fn nils_go()
    ensures { NilsGo }
{}

/// Part of a variable is read into a slot, where it is a number or a reference.
pub fn reads_go()
    ensures { ReadsGo }
{}

/// So is part of a variable of the module.
pub fn globals_go()
    ensures { GlobalsGo }
{}

/// Part of a variable is written, where it is a number or a reference.
pub fn writes_go()
    ensures { WritesGo }
{}
