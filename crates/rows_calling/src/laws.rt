//! What holds of calls: the machine's code of one leads from where two processes stand alike to where they do again.

ghost use Rattle.rows_calling.specs.Rows.{PlainCallsGo, BoxedCallsGo, SoundFunctionsBegin, RepliesGo};

/// A call without operands goes on in the frame that is made for it, or both processes end, where too many frames wait.
pub fn plain_calls_go()
    ensures { PlainCallsGo }
{}

/// Each function of a sound module, whose adts have few variants and whose trees are run, begins well: its variables have a layout, and its
/// code finds what it needs.
pub fn sound_functions_begin()
    ensures { SoundFunctionsBegin }
{}

/// At a reply to a print both processes ask again, or have its answer, behind which the machine's lets go what the slot refers to.
pub fn replies_go()
    ensures { RepliesGo }
{}

/// A call whose answer has a record of its own does the same, behind an instruction that makes the record.
pub fn boxed_calls_go()
    ensures { BoxedCallsGo }
{}
