//! What holds of every run of a middle code over one heap, and of every two passes that have such a code between them.

ghost use Rattle.process_model.specs.Follows.{Sides};
ghost use Rattle.process_model.specs.Shared.{SharedSides};
ghost use Rattle.process_runs.specs.Composed.{JournalsComposed};
ghost use Rattle.process_runs.specs.Pace.{PacesMultiply};
ghost use Rattle.process_runs.specs.Runs.{OpeningsPair, RunsAreCalm, RunsFollow};

/// Where a source keeps up with a middle code that has a step in each so many turns, it has one in each so many turns as the product
/// of the two bounds allows.
pub fn paces_multiply()
    ensures { PacesMultiply }
{}

/// A source and a middle code over the same heap: the types of `SharedSides`, in its order, and the two sides.
pub trait Sharing {
    ghost source_world: { Type 0 };

    ghost world: { Type 0 };

    ghost source_process: { Type 0 };

    ghost process: { Type 0 };

    ghost value: { Type 0 };

    ghost request: { Type 0 };

    ghost reply: { Type 0 };

    ghost ending: { Type 0 };

    ghost sides: { SharedSides source_world world source_process process value request reply ending };
}

/// Each run of the middle code, whomever its processes meet, has a run of the source beside it: the same is told, process by process
/// the two stand alike at the end, and the source keeps up.
pub fn runs_follow<S: Sharing>()
    ensures { RunsFollow S.sides }
{}

/// Two openings that are alike are where such runs begin.
pub fn openings_pair<S: Sharing>()
    ensures { OpeningsPair S.sides }
{}

/// Where nothing ever goes as a link is lost, nothing does in any run.
pub fn runs_are_calm<S: Sharing>()
    ensures { RunsAreCalm S.sides }
{}

/// A source, a middle code over the same heap, and a machine, in the order of the types of `through`, and the two passes.
pub trait Composing {
    ghost map: { Type 0 };

    ghost source_world: { Type 0 };

    ghost middle_world: { Type 0 };

    ghost world: { Type 0 };

    ghost source_process: { Type 0 };

    ghost middle_process: { Type 0 };

    ghost process: { Type 0 };

    ghost source_value: { Type 0 };

    ghost value: { Type 0 };

    ghost request: { Type 0 };

    ghost reply: { Type 0 };

    ghost ending: { Type 0 };

    ghost first: { SharedSides source_world middle_world source_process middle_process source_value request reply ending };

    ghost second: { Sides map middle_world world middle_process process source_value value request reply ending };
}

/// Every journal of a machine that follows a middle code, which follows a source, is a run of the source: the same is told, releases
/// too, through the map of the second pass, and at the pace that is the product of the two.
pub fn journals_composed<C: Composing>()
    ensures { JournalsComposed C.first C.second }
{}
