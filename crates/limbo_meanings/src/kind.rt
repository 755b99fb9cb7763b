//! The kinds of declarations.

ghost use Rattle.std.specs.Prelude.{◌≡◌, ◌<◌};
ghost use Rattle.limbo_meanings.specs.Kinds as kinds;
ghost use Rattle.limbo_meanings.specs.Meanings.{numbered};

use limbo_scope::Meaning;

/// What a declaration is for the bodies of the implemented module.
#[derive(Clone, Copy)]
pub enum Kind {
    /// A variable of the module.
    Global,
    /// A constant.
    Constant,
    /// A type that is declared by `type`.
    Type,
    /// An adt.
    Adt,
    /// A module type.
    Module,
    /// A function of the module, a method of its adts among them.
    Function,
    /// A name that is imported from a module.
    Import,
    /// A declared exception.
    Exception,
}

impl Kind {
    /// The place of the kind among the kinds.
    pub fn place(self) -> usize
        ensures place { result ≡ kinds.place self }
        ensures few { result < 8 }
    {
        match self {
            Kind::Global => 0,
            Kind::Constant => 1,
            Kind::Type => 2,
            Kind::Adt => 3,
            Kind::Module => 4,
            Kind::Function => 5,
            Kind::Import => 6,
            Kind::Exception => 7,
        }
    }

    /// What a name of the kind means that has this number.
    pub fn numbered(self, number: u32) -> Meaning
        ensures { result ≡ numbered self number }
    {
        match self {
            Kind::Global => Meaning::Global(number),
            Kind::Constant => Meaning::Constant(number),
            Kind::Type => Meaning::Type(number),
            Kind::Adt => Meaning::Adt(number),
            Kind::Module => Meaning::Module(number),
            Kind::Function => Meaning::Function(number),
            Kind::Import => Meaning::Import(number),
            Kind::Exception => Meaning::Exception(number),
        }
    }
}
