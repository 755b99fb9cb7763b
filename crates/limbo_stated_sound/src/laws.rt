//! What holds of the typed statements and functions that the rules give.

ghost use Rattle.limbo_stated_sound.specs.Laws.{DeclarationsGrow, StatementsGrow, RowsGrow, BlocksGrow, ArmsGrow};
ghost use Rattle.limbo_stated_sound.specs.Laws.{DescribedBefore, CoveredBefore};
ghost use Rattle.limbo_stated_sound.specs.Laws.{DeclarationsStay, StatementsStay, RowsStay, BlocksStay, ArmsStay};
ghost use Rattle.limbo_stated_sound.specs.Laws.{StatementsAreSound, RowsAreSound, BlocksAreSound, ArmsAreSound};
ghost use Rattle.limbo_stated_sound.specs.Laws.{OneIsSound, FunctionsAreSound};
ghost use Rattle.limbo_stated_sound.specs.Laws.{DeclarationsStayNamed, StatementsStayNamed, BlocksStayNamed, FunctionsStayNamed};
ghost use Rattle.limbo_stated_sound.specs.Laws.{SpelledProperly, ModulesAreSound, CheckedModulesAreSound};

/// Behind a statement there is what was there before, and maybe more; so it is with all of which statements are made.
pub fn points_grow()
    ensures declaration { DeclarationsGrow }
    ensures statement { StatementsGrow }
    ensures row { RowsGrow }
    ensures block { BlocksGrow }
    ensures arms { ArmsGrow }
{}

/// What describes or covers a longer context does so with one that it extends.
pub fn described_before()
    ensures described { DescribedBefore }
    ensures covered { CoveredBefore }
{}

/// A point that stands in a module stands in it behind statements.
pub fn points_stay()
    ensures declaration { DeclarationsStay }
    ensures statement { StatementsStay }
    ensures row { RowsStay }
    ensures block { BlocksStay }
    ensures arms { ArmsStay }
{}

/// A block is proper where the tokens that spell it are.
pub fn blocks_are_proper()
    ensures { SpelledProperly }
{}

/// Statements are sound.
pub fn statements_are_sound()
    ensures statement { StatementsAreSound }
    ensures row { RowsAreSound }
    ensures block { BlocksAreSound }
    ensures arms { ArmsAreSound }
{}

/// Functions are sound.
pub fn functions_are_sound()
    ensures one { OneIsSound }
    ensures all { FunctionsAreSound }
{}

/// What the lists of a context speak of stays named.
pub fn lists_stay_named()
    ensures declaration { DeclarationsStayNamed }
    ensures statement { StatementsStayNamed }
    ensures block { BlocksStayNamed }
    ensures functions { FunctionsStayNamed }
{}

/// A module that is made of its source's functions has named types and sound functions, and is sound where what its source declares is.
pub fn modules_are_sound()
    ensures functions { ModulesAreSound }
    ensures whole { CheckedModulesAreSound }
{}
