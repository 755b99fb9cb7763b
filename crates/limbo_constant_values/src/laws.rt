//! What holds of values.

ghost use Rattle.limbo_constant_values.specs.Laws.{OneValue};

/// A constant has at most one value.
pub fn one_value()
    ensures { OneValue }
{}
