//! What holds of the definitions.

ghost use Rattle.limbo_things.specs.Laws.{OneName, OneMember, OnePart};

/// A name, a member and a part are one thing at most.
pub fn one_thing()
    ensures name { OneName }
    ensures member { OneMember }
    ensures part { OnePart }
{}
