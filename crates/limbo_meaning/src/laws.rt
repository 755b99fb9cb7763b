//! What holds of every program.

ghost use Rattle.limbo_meaning.specs.Alone.{RunsCompute};
ghost use Rattle.limbo_meaning.specs.Endings.{EndsLetGo};
ghost use Rattle.limbo_meaning.specs.Holding.{HeldInOrder};
ghost use Rattle.limbo_meaning.specs.Kinds.{KindsAreStatic};
ghost use Rattle.limbo_meaning.specs.Naming.{NamesUsedOnce};
ghost use Rattle.limbo_meaning.specs.Origins.{TreesNameSo, ProcessesNameSo};
ghost use Rattle.limbo_meaning.specs.Owning.{ProcessesOwn};
ghost use Rattle.limbo_meaning.specs.Opening.{OpeningIsStill};
ghost use Rattle.limbo_meaning.specs.Order.{LeftToRight, OnlyWritesChange};

/// A statement's references go at its end in the order got, each in a step of its own, in which nothing else is done. No other
/// step lets go anything that a frame holds, until the frame returns.
pub fn held_in_order()
    ensures { HeldInOrder }
{}

/// No name of the heap is used twice: along each run no place goes, and none that was left empty gets a value.
pub fn names_used_once()
    ensures { NamesUsedOnce }
{}

/// Operands are evaluated from left to right, and what is a value stays one, whatever those behind it do.
pub fn left_to_right()
    ensures { LeftToRight }
{}

/// Reading changes nothing, and only assignments and copies change what is there.
pub fn only_writes_change()
    ensures { OnlyWritesChange }
{}

/// An end and a break change nothing; in that step all goes that the process had and nobody else names. A process ends only as its
/// first function returns.
pub fn ends_let_go()
    ensures { EndsLetGo }
{}

/// Each name that a step of a tree gets was in the tree or in the memory, or is new; what it leaves in both was there or is got. So a
/// process that holds what its tree names comes to name only what it named, what the heap names, and what is new.
pub fn names_come_from()
    ensures trees { TreesNameSo }
    ensures processes { ProcessesNameSo }
{}

/// The trees of a checked module name nothing by themselves; so the first process of a run holds what its tree names, and each step
/// and each reply keeps it so, in the frame that runs and in those that wait.
pub fn processes_own()
    ensures { ProcessesOwn }
{}

/// Each value of a type has as many references as any other, and a tree that may hold none, by a look at it, gets none.
pub fn kinds_are_static()
    ensures { KindsAreStatic }
{}

/// When a run begins, nothing is in the heap that its process doesn't name.
pub fn opening_is_still()
    ensures { OpeningIsStill }
{}

/// Runs compute: what a program tells by itself, whose prints are answered at once, is told of a run.
pub fn runs_compute()
    ensures { RunsCompute }
{}
