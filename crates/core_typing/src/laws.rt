//! What goes well.

ghost use Rattle.core_typing.specs.Functions.{TreesGoWell, ValuesGoWell, FunctionsGoWell, SoundModulesGoWell};

/// Wherever the code of a typed tree comes to, each instruction finds operands of the types that it needs, and so does what stands behind
/// it; a slot that it gives a value to names nothing, and behind the tree's drops no slot does; the slot of a node's value and of a list's
/// cell is behind those of their operands; and where it takes a part of a slot's value, drops a reference of it or comes to a place by it,
/// the code in front tells of which type that is, as it does of what the operands of a call or a print are put together. An operand comes
/// to a part where none is yet, the number of a variant is an int, two arrays are compared only where one names nothing, and the turns of a
/// loop keep as many slots each, in which values stand: nothing is put together there, and the turns of no other loop there held anything.
/// What functions answer has to have a layout, adts have few variants, and the trees are run: of two arrays that are compared one is a
/// written `nil`, none is a text by a format, and where the element of an initialiser's others may hold something no initialiser is in it
/// whose others may.
pub fn trees_go_well()
    ensures { TreesGoWell }
{}

/// So it is of the code of its value alone, in front of a return: nothing is dropped there.
pub fn values_go_well()
    ensures { ValuesGoWell }
{}

/// Wherever the code of a typed function comes to, whatever the values are, each instruction finds operands of the types that it needs, and
/// a slot that it gives a value to names nothing.
pub fn functions_go_well()
    ensures { FunctionsGoWell }
{}

/// So it is of each function of a sound module, whose adts have few variants and whose trees are run.
pub fn sound_modules_go_well()
    ensures { SoundModulesGoWell }
{}
