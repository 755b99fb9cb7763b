//! What holds of rows that read and write places in blocks.

ghost use Rattle.rows_places.specs.Rows.{TargetsGo, ElementsGo, GlobalWritesGo, TargetWritesGo, ElementWritesGo};
ghost use Rattle.rows_places.specs.Rows.{ElementGoes, OtherGoes, CharactersGo, LocalWholesGo, GlobalWholesGo};
ghost use Rattle.rows_places.specs.Rows.{ElementWholesGo, TargetWholesGo, ElementWholeGoes, OtherWholeGoes, CharacterWritesGo};
ghost use Rattle.rows_places.specs.Rows.{BoxTargetsGo, BoxElementsGo};

/// Part of what a reference names is read into a slot, or both processes end as broken.
pub fn targets_go()
    ensures { TargetsGo }
{}

/// So is part of an element of an array.
pub fn elements_go()
    ensures { ElementsGo }
{}

/// Part of a variable of the module is written, where it is a number or a reference.
pub fn global_writes_go()
    ensures { GlobalWritesGo }
{}

/// So is part of what a reference names, or both processes end as broken.
pub fn target_writes_go()
    ensures { TargetWritesGo }
{}

/// And part of an element of an array.
pub fn element_writes_go()
    ensures { ElementWritesGo }
{}

/// An element of a new array is stored, a number or a reference.
pub fn element_goes()
    ensures { ElementGoes }
{}

/// So is the element of the turn that a loop is in.
pub fn other_goes()
    ensures { OtherGoes }
{}

/// A character of a string comes into a slot, wherever the string stands.
pub fn characters_go()
    ensures { CharactersGo }
{}

/// A whole value of parts, or a big, is written to a variable of the function,
pub fn local_wholes_go()
    ensures { LocalWholesGo }
{}

/// to one of the module,
pub fn global_wholes_go()
    ensures { GlobalWholesGo }
{}

/// and to an element of an array.
pub fn element_wholes_go()
    ensures { ElementWholesGo }
{}

/// to what a reference names, or both processes end as broken,
pub fn target_wholes_go()
    ensures { TargetWholesGo }
{}

/// A whole element of a new array is stored, by its number,
pub fn element_whole_goes()
    ensures { ElementWholeGoes }
{}

/// and by the turns of a loop.
pub fn other_whole_goes()
    ensures { OtherWholeGoes }
{}

/// A character is written into a string, wherever that stands, or both processes end as broken.
pub fn character_writes_go()
    ensures { CharacterWritesGo }
{}

/// Part of what a reference names is read into a slot, where it is a big, a tuple or an adt, or both processes end as broken.
pub fn box_targets_go()
    ensures { BoxTargetsGo }
{}

/// So is part of an element of an array.
pub fn box_elements_go()
    ensures { BoxElementsGo }
{}
