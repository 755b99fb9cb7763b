//! What holds of paths.

ghost use Rattle.limbo_paths.specs.Laws.{RunsAreWays, AnswersNeverEnd};

/// Control leaves statements only on the ways that the rules give.
pub fn runs_are_ways()
    ensures { RunsAreWays }
{}

/// No execution of a body that answers runs to its end, however often its loops go round.
pub fn answers_never_end()
    ensures { AnswersNeverEnd }
{}
