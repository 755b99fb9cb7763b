//! What holds of the object of every module of the part.

ghost use Rattle.std.specs.Prelude.{◌≡◌, true};
ghost use Rattle.limbo_typed.specs.Typed.{Module};
ghost use Rattle.typed_part.specs.Part.{is_part};
ghost use Rattle.typed_lower.specs.Sizes.{FrameTooLarge};
ghost use Rattle.dis_meaning.specs.Opening.{StringsSpell};
ghost use Rattle.code_sim.specs.Keeps.{object_for};
ghost use Rattle.memory_sim.specs.Keeps.{KeepsWithMemory};

/// A machine with memory can begin with the object of a module of the part that fits, and whatever it does, the module's meaning does; no
/// process of it ever faults, and a block of it is there exactly where its count isn't 0.
pub fn memory_keeps_meaning()
    ensures { (m : Module) → is_part m ≡ true → (FrameTooLarge m → ⊥) → StringsSpell (object_for m) → KeepsWithMemory m }
{}
