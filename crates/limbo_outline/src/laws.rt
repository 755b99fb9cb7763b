//! A name's number leads to what is told of the declaration that has the name.

ghost use Rattle.limbo_outline.specs.Laws.{ConstantOfNumber, TypeOfNumber, GlobalOfNumber, FunctionOfNumber, ExceptionOfNumber};
ghost use Rattle.limbo_outline.specs.Laws.{ScopeOfNumber, AdtsByNumber, ModulesByNumber};

/// The constant of the number that a declaration means is its value.
pub fn constant_of_a_number()
    ensures { ConstantOfNumber }
{}

/// The type of the number that a declaration means is the one for which it stands.
pub fn type_of_a_number()
    ensures { TypeOfNumber }
{}

/// The variable of the number that a declaration means has its name and its type.
pub fn global_of_a_number()
    ensures { GlobalOfNumber }
{}

/// The function of the number that a declaration means takes and answers what is declared.
pub fn function_of_a_number()
    ensures { FunctionOfNumber }
{}

/// The exception of the number that a declaration means has its name and its values.
pub fn exception_of_a_number()
    ensures { ExceptionOfNumber }
{}

/// The scope of the number that an adt or a module type means is that of what stands inside it.
pub fn scope_of_a_number()
    ensures { ScopeOfNumber }
{}

/// An adt means the number by which types name it.
pub fn adts_by_number()
    ensures { AdtsByNumber }
{}

/// A module type means the number by which types name it.
pub fn modules_by_number()
    ensures { ModulesByNumber }
{}
