//! What holds of the definitions.

ghost use Rattle.limbo_literals.specs.Laws.{OneTuple, OneList, OneFill, OneSize, OneMake};
ghost use Rattle.limbo_literals.specs.Laws.{TuplesAreSound, ListsAreSound, FillsAreSound, SizesAreSound, MakesAreSound};

/// Parts are one literal at most.
pub fn one_literal()
    ensures tuple { OneTuple }
    ensures list { OneList }
    ensures filled_array { OneFill }
    ensures new_array { OneSize }
    ensures channel { OneMake }
{}

/// A literal is a sound expression, once it isn't open, if its parts are.
pub fn literals_are_sound()
    ensures tuple { TuplesAreSound }
    ensures list { ListsAreSound }
    ensures filled_array { FillsAreSound }
    ensures new_array { SizesAreSound }
    ensures channel { MakesAreSound }
{}
