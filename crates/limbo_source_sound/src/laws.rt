//! What holds of the context that a source gives.

ghost use Rattle.limbo_source_sound.specs.Laws.{ListsAreNamed, OwnersAreThere, FdIsThere, SystemIsThere, NamesAreKnown};
ghost use Rattle.limbo_source_sound.specs.Laws.{ImportsComeThrough, ConstantsHaveTypes, InitialsAreSound};
ghost use Rattle.limbo_source_sound.specs.Laws.{ContextsAreReady, SourcesAreSound};

/// What the lists of a source's context speak of is named in it.
pub fn lists_are_named()
    ensures { ListsAreNamed }
{}

/// The adts of methods, the adt of file descriptors and the built-in module are there.
pub fn numbers_are_there()
    ensures owners { OwnersAreThere }
    ensures fd { FdIsThere }
    ensures system { SystemIsThere }
{}

/// Names that are seen around functions are known.
pub fn names_are_known()
    ensures { NamesAreKnown }
{}

/// What is imported through a variable of the module is a member of the module type that the variable has.
pub fn imports_come_through()
    ensures { ImportsComeThrough }
{}

/// Constants are of their types.
pub fn constants_have_types()
    ensures { ConstantsHaveTypes }
{}

/// The constants with which variables begin are of the variables' types.
pub fn initials_are_sound()
    ensures { InitialsAreSound }
{}

/// The context of a source is ready for its functions.
pub fn contexts_are_ready()
    ensures { ContextsAreReady }
{}

/// A module that is made of a source is sound.
pub fn sources_are_sound()
    ensures { SourcesAreSound }
{}
