//! What holds of the object of every module of the part.

ghost use Rattle.std.specs.Prelude.{◌≡◌, true};
ghost use Rattle.limbo_typed.specs.Typed.{Module};
ghost use Rattle.typed_part.specs.Part.{is_part};
ghost use Rattle.typed_lower.specs.Statements.{module_code};
ghost use Rattle.typed_lower.specs.Sizes.{FrameTooLarge};
ghost use Rattle.dis_objects.specs.Words.{AllSmall};
ghost use Rattle.dis_objects.specs.Proper.{IsProper};
ghost use Rattle.dis_meaning.specs.Opening.{StringsSpell};
ghost use Rattle.code_sim.specs.Keeps.{object_for, Keeps, JournalsAreRuns, NeverFaults};
ghost use Rattle.code_sim.specs.Begins.{Begins};

/// The object of a module of the part keeps its meaning: both passes of the compiler together.
pub fn object_keeps_meaning()
    ensures keeps { (m : Module) → is_part m ≡ true → Keeps m }
    ensures journals { (m : Module) → is_part m ≡ true → JournalsAreRuns m }
    ensures never_faults { (m : Module) → is_part m ≡ true → NeverFaults m }
{}

/// What the first pass makes, the second takes: it is proper code, and its frames and variables are small enough.
pub fn passes_fit()
    ensures proper { (m : Module) → is_part m ≡ true → IsProper (module_code m) }
    ensures small { (m : Module) → is_part m ≡ true → (FrameTooLarge m → ⊥) → AllSmall (module_code m) }
{}

/// A machine of a module's object can begin, and begins with just what the object's keeping of the module begins with.
pub fn machine_begins()
    ensures { (m : Module) → is_part m ≡ true → (FrameTooLarge m → ⊥) → StringsSpell (object_for m) → Begins m }
{}
