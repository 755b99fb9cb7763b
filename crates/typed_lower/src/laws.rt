//! What holds of the code of every module.

ghost use Rattle.limbo_typed.specs.Typed.{Module};
ghost use Rattle.typed_lower.specs.Statements.{functions_code};
ghost use Rattle.typed_lower.specs.Keeps.{HasCode, Keeps, JournalsAreRuns};

/// The code of a module keeps its meaning.
pub fn code_keeps()
    ensures keeps { (m : Module) → HasCode m → Keeps m (functions_code m) }
    ensures journals { (m : Module) → HasCode m → JournalsAreRuns m (functions_code m) }
{}
