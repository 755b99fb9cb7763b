//! Why a source is no typed module.

ghost use Rattle.std.specs.Prelude.{ℕ, List};
ghost use Rattle.inf_ports.specs.Outside.{Told};
ghost use Rattle.limbo_tree.specs.Sources as sources;
ghost use Rattle.source_names.specs.Declares as names;
ghost use Rattle.source_modules.specs.Failing.{FailsBy};
ghost use Rattle.source_modules.specs.Given.{IsNumberOf};

use inf_text::{Span, Text};
use source_names::NamesFault;

/// Why a source is no typed module.
#[derive(Drop)]
pub enum ModuleFault {
    /// Want of memory.
    NoMemory,
    /// A refusal of names, types or statements: its number, the path of the text, and where in it.
    Refused { number: u32, path: Text, at: Span },
}

// The refusal of names.
pub(crate) fn of_names(fault: NamesFault) -> ModuleFault
    ensures { (told : Told) (path : List ℕ) (tree : sources.Source) → names.FailsBy told path tree fault
        → FailsBy told path tree result }
{
    match fault {
        NamesFault::NoMemory => ModuleFault::NoMemory,
        NamesFault::Refused { refusal, path, at } => ModuleFault::Refused {
            number: refusal.number(),
            path,
            at,
        },
    }
}

// The refusal of types, functions and statements.
pub(crate) fn of_module(fault: limbo_modules::ModuleFault) -> ModuleFault
    ensures { IsNumberOf fault result }
{
    let number = fault.number();
    match fault {
        limbo_modules::ModuleFault::NoMemory => ModuleFault::NoMemory,
        limbo_modules::ModuleFault::Refused {
            why: _why,
            path,
            at,
        } => match number {
            Some(number) => ModuleFault::Refused { number, path, at },
            None => ModuleFault::NoMemory,
        },
    }
}
