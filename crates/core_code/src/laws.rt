//! What holds of the code of every program.

ghost use Rattle.core_code.specs.Control.{FunctionsAreClosed};
ghost use Rattle.core_code.specs.Frames.{ThreeSlotsANode};
ghost use Rattle.core_code.specs.Naming.{ReferencesGoSo};
ghost use Rattle.core_code.specs.Nodes.{FourATreeNode};
ghost use Rattle.core_code.specs.Rooms.{RoundsGiveRooms};
ghost use Rattle.core_code.specs.Sizes.{EightANode};
ghost use Rattle.core_code.specs.Standing.{CodeIsNotLeft};
ghost use Rattle.core_code.specs.Using.{SlotsAreThere};
ghost use Rattle.core_code.specs.Whole.{ValuesAreWhole};

/// The code of a function is never empty. From each of its instructions control goes on to one of them, or leaves by a return; none
/// leads back over more instructions than stand in front of it.
pub fn functions_are_closed()
    ensures { FunctionsAreClosed }
{}

/// The instructions of a function name slots that it has, and no others.
pub fn slots_are_there()
    ensures { SlotsAreThere }
{}

/// Each frame of a process of a program's code stands at an instruction of one of its functions, with the slots that this has: a call
/// begins so, and no step and no reply leaves it otherwise.
pub fn code_is_not_left()
    ensures { CodeIsNotLeft }
{}

/// A drop lets one reference of a slot go, and changes nothing else that a process names. What the turns of an initialiser held stays
/// named in a chain and as it comes back; what parts of values name is named once, as before, when a part is taken out of a value,
/// when an operand moves to what is put together in a slot, and when a tuple or an adt's value is made of the operands there.
pub fn references_go_so()
    ensures { ReferencesGoSo }
{}

/// The code of an expression, with the drops of what it got, of a statement, of a function and of a module has at most eight
/// instructions a node. A node counts once, and once more for each reference of its value.
pub fn eight_a_node()
    ensures { EightANode }
{}

/// It has at most four a node of its tree, in which each operation is a node, also the conversion of a byte that is printed, and the
/// zero with which a variable begins.
pub fn four_a_tree_node()
    ensures { FourATreeNode }
{}

/// A statement uses at most three slots for each node of its tree, where of the elements of an initialiser that hold no references the
/// greatest counts alone; a function has as many slots as its greatest statement uses, but one at least.
pub fn three_slots_a_node()
    ensures { ThreeSlotsANode }
{}

/// Values in a row, each at the next place that suits it, lie as the layouts of their types say, where types have layouts: as many
/// rounds as there are adts give each its room. They are aligned, and none lies in the room of another.
pub fn rounds_give_rooms()
    ensures { RoundsGiveRooms }
{}

/// A value of a tuple has the parts that its type says, and of an adt that has a layout too, however deep adts lie in one another; its
/// references are those of its parts.
pub fn values_are_whole()
    ensures { ValuesAreWhole }
{}
