//! What holds of every language that is given by the steps of one process, and of every two that follow one another.

ghost use Rattle.process_model.specs.Follows.{Follows, Sides};
ghost use Rattle.process_model.specs.Law.{EveryJournal};
ghost use Rattle.process_model.specs.Laws.{OthersStay, PartnerWaited, TraceGrows, WaitersKept};
ghost use Rattle.process_model.specs.Living.{NumberHolds};
ghost use Rattle.process_model.specs.Naming.{Still};
ghost use Rattle.process_model.specs.Once.{JournalsTakeOnce, RunsTakeOnce};
ghost use Rattle.process_model.specs.Passes.{PassesCompose, PassesKeepJournals};
ghost use Rattle.process_model.specs.Shared.{SharedSides};

/// A step of a process leaves each other process as it was, but for the one that it meets.
pub fn others_stay<W, P, D, M, A, H>()
    ensures { OthersStay W P D M A H }
{}

/// Whom a step meets is another process, which waited and now goes on.
pub fn partner_waited<W, P, D, M, A, H>()
    ensures { PartnerWaited W P D M A H }
{}

/// What was told stays told: a step only adds to the trace, and so does a run.
pub fn trace_grows<W, P, D, M, A, H>()
    ensures { TraceGrows W P D M A H }
{}

/// A machine's waiters are the processes that wait, after every journal.
pub fn waiters_kept<W, P, D, M, A, H>()
    ensures { WaitersKept W P D M A H }
{}

/// A number that the world keeps of those processes that are not over is their number, after every run: so a step may see whether
/// there is room for another.
pub fn number_holds<W, P, D, M, A, H>()
    ensures { NumberHolds W P D M A H }
{}

/// Each sent value is received at most once, by one chosen branch: in every run each value passes from a standing offer to send
/// to another process's standing offer to receive, and ends both offers; and the trace tells of just these.
pub fn runs_take_once<W, P, D, M, A, H>()
    ensures { RunsTakeOnce W P D M A H }
{}

/// A source and a machine, and what joins them: the types of `Sides`, in its order, and the two sides.
pub trait Joining {
    ghost map: { Type 0 };

    ghost source_world: { Type 0 };

    ghost world: { Type 0 };

    ghost source_process: { Type 0 };

    ghost process: { Type 0 };

    ghost source_value: { Type 0 };

    ghost value: { Type 0 };

    ghost request: { Type 0 };

    ghost reply: { Type 0 };

    ghost ending: { Type 0 };

    ghost sides: { Sides map source_world world source_process process source_value value request reply ending };
}

/// The law of all processes: where one process of the machine follows one of the source, every journal of two related
/// openings is a run of the source, with the same trace and at the pace.
pub fn every_journal<J: Joining>()
    ensures { (follows : Follows J.sides) (k : J.map) (w : J.source_world) (x : J.world) (p : J.source_process) (q : J.process) →
        J.sides.ready k 0 x p q → J.sides.worlds k w x → Still J.sides.naming (J.sides.naming.names p) w →
        EveryJournal J.sides k w x p q follows.bound }
{}

/// What a machine's trace tells of values that passed is, through the map, what passed in the source, where each is received at
/// most once, by one chosen branch.
pub fn journals_take_once<J: Joining>()
    ensures { (follows : Follows J.sides) (k : J.map) (w : J.source_world) (x : J.world) (p : J.source_process) (q : J.process) →
        J.sides.ready k 0 x p q → J.sides.worlds k w x → Still J.sides.naming (J.sides.naming.names p) w →
        JournalsTakeOnce J.sides k x q }
{}

/// A source, a middle code over the same heap, and a machine: the types of `through`, in its order, and the two
/// passes.
pub trait Chaining {
    ghost map: { Type 0 };

    ghost source_world: { Type 0 };

    ghost middle_world: { Type 0 };

    ghost world: { Type 0 };

    ghost source_process: { Type 0 };

    ghost middle_process: { Type 0 };

    ghost process: { Type 0 };

    ghost source_value: { Type 0 };

    ghost value: { Type 0 };

    ghost request: { Type 0 };

    ghost reply: { Type 0 };

    ghost ending: { Type 0 };

    ghost first: { SharedSides source_world middle_world source_process middle_process source_value request reply ending };

    ghost second: { Sides map middle_world world middle_process process source_value value request reply ending };
}

/// Two passes over a heap compose: where the middle code follows the source, both with the same names, and the machine the
/// middle code, the machine follows the source. As many of its instructions may pass without a step as the product of the two
/// bounds allows.
pub fn passes_compose<C: Chaining>()
    ensures { PassesCompose C.first C.second }
{}

/// Every journal of such a machine is a run of the source: the same is told, releases too, through the map of the second pass,
/// and at that pace.
pub fn passes_keep_journals<C: Chaining>()
    ensures { PassesKeepJournals C.first C.second }
{}
