//! What stays apart.

ghost use Rattle.limbo_filling.specs.Laws.{FillsStayApart};
ghost use Rattle.limbo_filling.specs.Processes.{ProcessesStayApart};

/// An array that an initialiser fills is named by nothing but the tree that fills it: so it is as it is made, each step of the tree keeps
/// that, each call, each print and each answer.
pub fn fills_stay_apart()
    ensures { FillsStayApart }
{}

/// Nothing that a process can come to names an array that one of its statements fills, in whichever frame that stands.
pub fn processes_stay_apart()
    ensures { ProcessesStayApart }
{}
