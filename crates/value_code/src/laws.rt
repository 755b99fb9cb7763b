//! What the object of a module has.

ghost use Rattle.value_code.specs.Laws.{ObjectsHave, ConstantsLieApart, EntriesBegin};

/// It has the code of each instruction where that begins, the types that code names and its data; and each size is the same everywhere.
pub fn objects_have()
    ensures { ObjectsHave }
{}

/// Constants lie in the module's data, apart from its variables and from each other, where numbers of their size can be read.
pub fn constants_lie_apart()
    ensures { ConstantsLieApart }
{}

/// Its code begins with the entry.
pub fn entries_begin()
    ensures { EntriesBegin }
{}
