//! What holds of every two languages one of whose instructions is several of the other's.

ghost use Rattle.process_model.specs.Follows.{Sides};
ghost use Rattle.process_ways.specs.Laws.{WaysFollow};
ghost use Rattle.std.specs.Prelude.{ℕ};

/// A source and a machine, and what joins them: the types of `Sides`, in its order, the two sides, and how far a process of the
/// machine is along without a step of the source.
pub trait OnTheirWay {
    ghost map: { Type 0 };

    ghost source_world: { Type 0 };

    ghost world: { Type 0 };

    ghost source_process: { Type 0 };

    ghost process: { Type 0 };

    ghost source_value: { Type 0 };

    ghost value: { Type 0 };

    ghost request: { Type 0 };

    ghost reply: { Type 0 };

    ghost ending: { Type 0 };

    ghost sides: { Sides map source_world world source_process process source_value value request reply ending };

    ghost place: { process → ℕ };
}

/// Where the machine's process has a way from each place where the two stand alike to one where they do again, the machine follows
/// the source, and as many instructions may pass without a step as its places allow.
pub fn ways_follow<J: OnTheirWay>()
    ensures { WaysFollow J.sides J.place }
{}
