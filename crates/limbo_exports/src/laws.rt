//! What holds of functions that are members of modules.

ghost use Rattle.limbo_exports.specs.Laws.{FunctionExported, PrintExported, SystemHasNumber, FdHasNumber};

/// A function of a module that is no print means how many of them stand before it.
pub fn function_exported()
    ensures { FunctionExported }
{}

/// A print stands behind the functions of its module, by its place among the prints.
pub fn print_exported()
    ensures { PrintExported }
{}

/// The built-in module has its place among the module types.
pub fn system_has_number()
    ensures { SystemHasNumber }
{}

/// The adt of the built-in module's file descriptors has its place among the adts.
pub fn fd_has_number()
    ensures { FdHasNumber }
{}
