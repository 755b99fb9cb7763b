//! That both machines do the same.

ghost use Rattle.dis_agreement.specs.Faultless.{RightNeverFaults};
ghost use Rattle.dis_agreement.specs.Laws.{StepsAgree, AnswersAgree};
ghost use Rattle.dis_agreement.specs.Runs.{OpeningsAgree, TurnsAgree, RunsAgree, RunsReturn, ProgramsRunAlike};

/// From states that agree, an instruction that doesn't fault on the machine of numbers does the same on the machine with memory, and
/// the states behind it agree.
pub fn steps_agree()
    ensures { StepsAgree }
{}

/// So does a reply to a print.
pub fn answers_agree()
    ensures { AnswersAgree }
{}

/// Both machines of an object begin in states that agree, where that of numbers begins at all.
pub fn openings_agree()
    ensures { OpeningsAgree }
{}

/// From states that agree, as many instructions of a process as don't fault lead to states that agree, with what goes behind each.
pub fn turns_agree()
    ensures { TurnsAgree }
{}

/// From states that agree, a journal whose replay has no fault on the machine of numbers is one of the machine with memory: the same
/// is asked and printed, with the same replies and ends, and the states behind it agree.
pub fn runs_agree()
    ensures { RunsAgree }
{}

/// And back: where today's machine never faults, a journal that has a replay on the machine with memory has one on today's, and the states
/// behind it agree. So what is proved of all runs of such a program today holds of all its runs with memory.
pub fn runs_return()
    ensures { RunsReturn }
{}

/// So it is of a program whose journals never fault today, from the beginning on: each of its journals with memory is one of today's, and
/// the same is told.
pub fn programs_run_alike()
    ensures { ProgramsRunAlike }
{}

/// Today's machine never faults where, after no journal, the next instruction of a process is wrong, nor what a reply to it does.
pub fn right_never_faults()
    ensures { RightNeverFaults }
{}
