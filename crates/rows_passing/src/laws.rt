//! What holds of calls with operands: the machine's code of one leads from where two processes stand alike to where they do again.

ghost use Rattle.rows_passing.specs.Rows.{ArgumentsGo, BoxedArgumentsGo, SoundParametersFirst};

/// A call with operands goes on in the frame that is made for it, with these as its parameters, or both processes end, where too many
/// frames wait.
pub fn arguments_go()
    ensures { ArgumentsGo }
{}

/// A call with operands whose answer has a record of its own does the same, behind an instruction that makes the record.
pub fn boxed_arguments_go()
    ensures { BoxedArgumentsGo }
{}

/// In a sound module parameters are the first variables.
pub fn sound_parameters_first()
    ensures { SoundParametersFirst }
{}
