//! What holds of names.

ghost use Rattle.limbo_naming.specs.Direct.{OneDeclared, NamesByDeclared, LacksOrDeclares};
ghost use Rattle.limbo_naming.specs.Laws.{OneLead, OneNamed, LacksOrNames};

/// A declaration leads to at most one.
pub fn one_lead()
    ensures { OneLead }
{}

/// A name names at most one declaration.
pub fn one_named()
    ensures { OneNamed }
{}

/// A name that isn't there names nothing.
pub fn lacks_or_names()
    ensures { LacksOrNames }
{}

/// A name names at most one declaration, itself not followed.
pub fn one_declared()
    ensures { OneDeclared }
{}

/// What a name names is what the declaration leads to that it names, itself not followed.
pub fn names_by_declared()
    ensures { NamesByDeclared }
{}

/// A name that isn't there names no declaration.
pub fn lacks_or_declares()
    ensures { LacksOrDeclares }
{}
