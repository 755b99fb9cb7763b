//! What holds of parts by their names.

ghost use Rattle.limbo_fields.specs.Laws.{OnePart, PartsAreThere};

/// A name is one part at most.
pub fn one_part()
    ensures { OnePart }
{}

/// What a name names is a part as values lie in memory.
pub fn parts_are_there()
    ensures { PartsAreThere }
{}
