//! What holds of the object of every proper module of three-address code.

ghost use Rattle.slot_code.specs.Code.{Module};
ghost use Rattle.dis_objects.specs.Words.{AllSmallFrames};
ghost use Rattle.dis_objects.specs.Proper.{IsProper};
ghost use Rattle.dis_follows.specs.Laws.{Keeps, Tells, NeverFaults, Opens};

/// The object of a module keeps what its code does, tells where the code is, and never faults; and a machine of it begins as it should.
pub fn object_follows()
    ensures keeps { (m : Module) → IsProper m → Keeps m }
    ensures tells { (m : Module) → IsProper m → Tells m }
    ensures never_faults { (m : Module) → IsProper m → NeverFaults m }
    ensures opens { (m : Module) → IsProper m → AllSmallFrames m.functions → Opens m }
{}
