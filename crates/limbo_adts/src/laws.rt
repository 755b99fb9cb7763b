//! What stays where adts are put behind those that are there.

ghost use Rattle.limbo_adts.specs.Laws.{LayoutsStay, ReachesStay};

/// A type keeps its layout where more adts are put behind those that are there.
pub fn layouts_stay()
    ensures { LayoutsStay }
{}

/// A type whose numbers name something reaches what it reached, where more adts are put behind those that are there.
pub fn reaches_stay()
    ensures { ReachesStay }
{}
