//! What a listing shows of an object.

ghost use Rattle.std.specs.Prelude.{◌≡◌, ℕ, List};
ghost use Rattle.dis_isa.specs.declared.inst.Inst.{Inst};
ghost use Rattle.dis_file.specs.declared.object.Object.{Object};
ghost use Rattle.dis_text.specs.Listing.{inst_line, listing_of};
ghost use Rattle.dis_text.specs.Shown.{present, AreNarrow, ShowsSame, IsPlain, HasPlainTexts, ShowsSameObject};
ghost use Rattle.dis_format.specs.Objects.{Spells};
ghost use Rattle.dis_format.specs.Reading.{AreBytes};

/// Two instructions with one line have one operation and the same operands that are there, in their order. They differ
/// at most in which of the three places these stand in, where one is absent.
pub fn one_instruction_a_line()
    ensures { (pc : ℕ) (i j : Inst) → AreNarrow (present i) → AreNarrow (present j)
        → inst_line pc i ≡ inst_line pc j → ShowsSame i j }
{}

/// Two objects with one listing, whose names and texts hold no newline and no quote, differ at most in which of the three
/// places the operands of an instruction stand in, where one is absent. Each valid object with such names and texts is
/// one of these, and so is each object of the code whose flags say that its imports and handlers are there.
pub fn one_object_a_listing()
    ensures shown { (o p : Object) → IsPlain o → IsPlain p → listing_of o ≡ listing_of p → ShowsSameObject o p }
    ensures valid { (o : Object) (bytes : List ℕ) → AreBytes bytes → Spells o bytes → HasPlainTexts o → IsPlain o }
{}
