//! What the grammar says of every source.

ghost use Rattle.limbo_tree.specs.Sources.{OneTree};

/// A list of tokens has at most one tree.
pub fn one_tree()
    ensures { OneTree }
{}
