//! What holds of the definitions.

ghost use Rattle.limbo_places.specs.Laws.{OneIndex, OneSlice, OneTarget, OnePart, OneReference, OneStep};
ghost use Rattle.limbo_places.specs.Laws.{IndexesAreSound, SlicesAreSound, TargetsAreSound, PartsAreSound, ReferencesAreSound};
ghost use Rattle.limbo_places.specs.Laws.{StepsAreSound};

/// What stands at an index is one expression at most.
pub fn one_index()
    ensures { OneIndex }
{}

/// A slice is one expression at most.
pub fn one_slice()
    ensures { OneSlice }
{}

/// What a reference names is one expression at most.
pub fn one_target()
    ensures { OneTarget }
{}

/// A part is one expression at most.
pub fn one_part()
    ensures { OnePart }
{}

/// A reference to a value is one expression at most.
pub fn one_reference()
    ensures { OneReference }
{}

/// A step is one expression at most.
pub fn one_step()
    ensures { OneStep }
{}

/// Elements, characters and slices are sound where their parts are.
pub fn sound_elements()
    ensures indexes { IndexesAreSound }
    ensures slices { SlicesAreSound }
{}

/// What references name, parts and references are sound where their parts are.
pub fn sound_references()
    ensures targets { TargetsAreSound }
    ensures parts { PartsAreSound }
    ensures references { ReferencesAreSound }
{}

/// Steps are sound where the place is.
pub fn sound_steps()
    ensures { StepsAreSound }
{}
