//! Names that are declared one after the other.

ghost use Rattle.std.specs.Prelude.{◌≡◌, ◌<◌, length, IfOk, IfErr};
ghost use Rattle.limbo_tree.specs.View.{names_of};
ghost use Rattle.limbo_causes.specs.Causes as causes;
ghost use Rattle.limbo_causes.specs.Causes.{FailsBy};
ghost use Rattle.limbo_scope.specs.Laws.{declared_all};
ghost use Rattle.limbo_local.specs.Points.{meaning_from};
ghost use Rattle.limbo_locals.specs.Named.{means, AreFree};

use limbo_causes::Cause;
use limbo_scope::{Meaning, ScopeFault, Scopes};
use limbo_tree::Name;

/// What a name that a body declares leads to: a number among things of a kind.
#[derive(Clone, Copy)]
pub enum Lead {
    Variable,
    Constant,
    Type,
    Import,
    Exception,
    /// A function of a module type, among the functions of that.
    Function,
}

impl Lead {
    /// What a name means that leads to this number.
    fn meaning(self, number: u32) -> Meaning
        ensures { result ≡ means self number }
    {
        match self {
            Lead::Variable => Meaning::Variable(number),
            Lead::Constant => Meaning::Constant(number),
            Lead::Type => Meaning::Type(number),
            Lead::Import => Meaning::Import(number),
            Lead::Exception => Meaning::Exception(number),
            Lead::Function => Meaning::Function(number),
        }
    }
}

/// Declares names in the innermost scope: they lead to numbers in a row, from this one on.
///
/// # Errors
/// Want of memory or of numbers. `Twice` only where the scope declares one of the names, or one stands twice.
pub fn declare_names(
    scopes: &mut Scopes,
    names: &[Name],
    lead: Lead,
    first: usize,
) -> Result<(), Cause>
    ensures declared { IfOk result (λ _. scopes.new
        ≡ declared_all (meaning_from (means lead) first (names_of names.now)) scopes.old) }
    ensures free { IfOk result (λ _. AreFree (names_of names.now) scopes.old) }
    ensures twice { IfErr result (λ f. FailsBy f (λ k. (k ≡ causes.Twice) × (AreFree (names_of names.now) scopes.old → ⊥))) }
{
    // There is always an innermost scope.
    let depth = scopes.depth();
    prove!(depth > 0);
    for (at, name) in names.iter().enumerate() {
        let Some(number) = first.checked_add(at) else {
            return Err(Cause::NoMemory);
        };
        let Ok(number) = u32::try_from(number) else {
            return Err(Cause::NoMemory);
        };
        match scopes.declare(&name.text, lead.meaning(number)) {
            Ok(()) => {}
            Err(ScopeFault::NoMemory) => return Err(Cause::NoMemory),
            Err(ScopeFault::Twice) => return Err(Cause::Twice),
        }
    }
    Ok(())
}
