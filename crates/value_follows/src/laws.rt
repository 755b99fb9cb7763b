//! What holds of processes of the machine that stand for those of three-address code over values.

ghost use Rattle.value_follows.specs.Kept.{StandsKeep};
ghost use Rattle.value_follows.specs.Rooted.{StandsAreRooted};
ghost use Rattle.value_follows.specs.Rows.{JumpsGo, BacksGo, UnlessGoes, MirrorsGo, KnownGoes, LiteralsGo, TextsGo};
ghost use Rattle.value_follows.specs.Rows.{ArithmeticGoes, ShiftsGo, ConvertsGo, TruthsGo, DenialsGo, ComparesGo, PlacesAre};

/// Two processes stand for one another while others step, with the same blocks as their own, which are reached from their words and there
/// as long as these are; and the two sides are what many processes ask, in all that doesn't depend on the code.
pub fn stands_kept()
    ensures { StandsKeep }
{}

/// What the words of a process refer to is accounted for by what the other names for which it stands, and they lead to all that this names.
/// So they hold it.
pub fn stands_rooted()
    ensures { StandsAreRooted }
{}

/// A jump goes where the other goes.
pub fn jumps_go()
    ensures { JumpsGo }
{}

/// So does one back.
pub fn backs_go()
    ensures { BacksGo }
{}

/// A branch by a condition goes where the other goes.
pub fn unless_goes()
    ensures { UnlessGoes }
{}

/// So does one by what was decided.
pub fn mirrors_go()
    ensures { MirrorsGo }
{}

/// A value that is known comes into a slot.
pub fn known_goes()
    ensures { KnownGoes }
{}

/// A constant that is a byte or an int does.
pub fn literals_go()
    ensures { LiteralsGo }
{}

/// A text that is a constant does.
pub fn texts_go()
    ensures { TextsGo }
{}

/// What is calculated from two bytes or two ints does, or both processes end as broken.
pub fn arithmetic_goes()
    ensures { ArithmeticGoes }
{}

/// A byte or an int that is shifted does.
pub fn shifts_go()
    ensures { ShiftsGo }
{}

/// A byte that becomes an int does, and an int that becomes a byte.
pub fn converts_go()
    ensures { ConvertsGo }
{}

/// The truth of an int comes into a slot, by one of two ways.
pub fn truths_go()
    ensures { TruthsGo }
{}

/// So does the denial of an int.
pub fn denials_go()
    ensures { DenialsGo }
{}

/// So does how two bytes or two ints compare.
pub fn compares_go()
    ensures { ComparesGo }
{}

/// How far a process is in its row, and a bound that none exceeds.
pub fn places_are()
    ensures { PlacesAre }
{}
