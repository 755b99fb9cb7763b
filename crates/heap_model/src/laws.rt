//! What holds of every heap that is cut to what is named, and of every two that stand alike.

ghost use Rattle.heap_model.specs.Joined.{Parts};
ghost use Rattle.heap_model.specs.Laws.{HeapsJoin, QuietSteps, WhatStays};

/// What stays of a heap is the greatest part each of whose values is named from outside or by the part, as it was; what goes is
/// the rest, each told once; and without rings what stays is what is reached from outside.
pub fn what_stays<A>()
    ensures { WhatStays A }
{}

/// Two languages, and what they say of their heaps: the types of `Parts`, in its order, and the two sides.
pub trait TwoHeaps {
    ghost value: { Type 0 };

    ghost block: { Type 0 };

    ghost form: { Type 0 };

    ghost source_outside: { Type 0 };

    ghost outside: { Type 0 };

    ghost source_process: { Type 0 };

    ghost process: { Type 0 };

    ghost source_passed: { Type 0 };

    ghost passed: { Type 0 };

    ghost request: { Type 0 };

    ghost reply: { Type 0 };

    ghost ending: { Type 0 };

    ghost parts: { Parts value block form source_outside outside source_process process source_passed passed request reply ending };
}

/// A source's heap and a machine's, joined by what blocks stand for, are two heaps as the law of many processes asks: what
/// processes hold adds up, both are cut alike, and the same goes from both.
pub fn heaps_join<J: TwoHeaps>()
    ensures { HeapsJoin J.parts }
{}

/// A step after which the process names what it named, each value is there and names what it named, and what is new is named,
/// lets nothing go.
pub fn quiet_steps<V, O, P, D, M, A, H>()
    ensures { QuietSteps V O P D M A H }
{}
