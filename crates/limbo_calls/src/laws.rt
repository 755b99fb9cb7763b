//! What holds of the definitions.

ghost use Rattle.limbo_calls.specs.Laws.{OneCall, OneThrough, OneConstruct, OnePrint};
ghost use Rattle.limbo_calls.specs.Laws.{CallsAreSound, ThroughAreSound, ConstructsAreSound, PrintsAreSound};

/// Parts are one call at most.
pub fn one_call()
    ensures call { OneCall }
    ensures call_through { OneThrough }
    ensures construct { OneConstruct }
    ensures print { OnePrint }
{}

/// A call is a sound expression, if its parts are, and what is called has the type that it was given.
pub fn calls_are_sound()
    ensures call { CallsAreSound }
    ensures call_through { ThroughAreSound }
    ensures construct { ConstructsAreSound }
    ensures print { PrintsAreSound }
{}
