//! A member's number leads to the function that has the name.

ghost use Rattle.limbo_outline_members.specs.Laws.{InterfaceOfNumber, SignatureOfNumber, PrintOfNumber};

/// The module type of the number that a declaration means has its name and its functions.
pub fn interface_of_a_number()
    ensures { InterfaceOfNumber }
{}

/// A function that is no print stands among its module's functions at the number that it means to others.
pub fn signature_of_a_number()
    ensures { SignatureOfNumber }
{}

/// A print's number is behind its module's functions, by its place among the prints.
pub fn print_of_a_number()
    ensures { PrintOfNumber }
{}
