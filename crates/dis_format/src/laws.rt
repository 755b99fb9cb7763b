//! What holds of the format: the parts of an object and the fields in their order say the same, and the written form
//! is the shortest spelling.

ghost use Rattle.std.specs.Prelude.{◌≡◌, ◌≤◌, ℕ, List, length, Ok, Err, ◌≢◌};
ghost use Rattle.dis_file.specs.declared.object.Object.{Object};
ghost use Rattle.dis_format.specs.declared.fault.Refusal.{Refusal};
ghost use Rattle.dis_format.specs.Objects.{Spells, IsValid, written_form};
ghost use Rattle.dis_format.specs.Parts.{object_parts};
ghost use Rattle.dis_format.specs.Reading.{AreBytes, object_at};
ghost use Rattle.dis_format.specs.Writing.{AllFit, IsFirstMisfit, write_of};

/// Reading the fields in order gives an object exactly where the bytes spell it.
pub fn reads_exactly()
    ensures found { (o : Object) (bytes : List ℕ) → AreBytes bytes → object_at bytes ≡ Ok o → Spells o bytes }
    ensures only { (o : Object) (bytes : List ℕ) → Spells o bytes → object_at bytes ≡ Ok o }
{}

/// Bytes spell at most one object.
pub fn one_object()
    ensures { (o p : Object) (bytes : List ℕ) → Spells o bytes → Spells p bytes → o ≡ p }
{}

/// The written form of an object that has a spelling is one, and none is shorter.
pub fn shortest()
    ensures spelled { (o : Object) → IsValid o → Spells o (written_form o) }
    ensures least { (o : Object) (bytes : List ℕ) → Spells o bytes → length (written_form o) ≤ length bytes }
{}

/// What is written is read back.
pub fn read_back()
    ensures { (o : Object) → IsValid o → object_at (written_form o) ≡ Ok o }
{}

/// Writing part by part gives the written form exactly where each number fits its field, as in each valid object, and
/// else the place of the first that doesn't.
pub fn writes_exactly()
    ensures valid { (o : Object) → IsValid o → AllFit (object_parts o) }
    ensures written { (o : Object) → AllFit (object_parts o) → write_of o ≡ Ok (written_form o) }
    ensures whole { (o : Object) (bytes : List ℕ) → write_of o ≡ Ok bytes
        → AllFit (object_parts o) × (bytes ≡ written_form o) }
    ensures misfit { (o : Object) (at : ℕ) → write_of o ≡ Err at → IsFirstMisfit (object_parts o) at }
{}
