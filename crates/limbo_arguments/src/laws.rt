//! What holds of the definitions.

ghost use Rattle.limbo_arguments.specs.Laws.{OneEach, OneAll, EachOrFails, AllOrFails, EachStand, AllStandFor};

/// Where types are asked for, values are such values at most once, and these have types that stand there.
pub fn one_settled()
    ensures each { OneEach }
    ensures all { OneAll }
    ensures each_stand { EachStand }
    ensures all_stand { AllStandFor }
{}

/// Values of which there is a refusal are nothing where the types are asked for.
pub fn failing_values()
    ensures each { EachOrFails }
    ensures all { AllOrFails }
{}
