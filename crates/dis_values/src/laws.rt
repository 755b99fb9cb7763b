ghost use Rattle.std.specs.Prelude.{◌≡◌, ◌≤◌, ◌∷◌, [], ℕ, List, Option, Some, length, map};
ghost use Rattle.ref_heap.specs.Words.{Cell, plain};
ghost use Rattle.ref_heap.specs.Store.{Store, Block, IsHeap, at, with_block, with_new, one_more};
ghost use Rattle.ref_heap.specs.Drops.{IsPart};
ghost use Rattle.dis_values.specs.Arrays.{IsArray, elements};
ghost use Rattle.dis_values.specs.Bytes.{IsPlain, bytes_of};
ghost use Rattle.dis_values.specs.Lists.{IsList};
ghost use Rattle.dis_values.specs.References.{IsMarked};
ghost use Rattle.std.specs.Prelude.{Bool};

/// The elements of an array of bytes are its bytes, one in each.
pub fn bytes_are_elements()
    ensures { (h : Store) (s : ℕ) → IsPlain h s 1 → elements h s ≡ map (λ b. plain b ∷ []) (bytes_of h s) }
{}

/// A list has no more elements than blocks were made: no two of its cells are one block.
pub fn lists_are_short()
    ensures { (h : Store) (list : Option ℕ) (xs : List (List Cell)) → IsHeap h → IsList h list xs → length xs ≤ h.made }
{}

/// Where each block of a heap stays in another, which may have more and other counts, its arrays stay.
pub fn arrays_stay()
    ensures array { (old new : Store) (s : ℕ) → IsPart (at old) (at new) → IsArray old s → IsArray new s }
    ensures elements { (old new : Store) (s : ℕ) → IsPart (at old) (at new) → IsArray old s → elements new s ≡ elements old s }
    ensures plain { (old new : Store) (s size : ℕ) → IsPart (at old) (at new) → IsPlain old s size → IsPlain new s size }
    ensures marked { (old new : Store) (s size : ℕ) (marks : List Bool) → IsPart (at old) (at new) → IsMarked old s size marks
        → IsMarked new s size marks }
{}

/// Each block stays where another is made, and where one has a reference more.
pub fn blocks_stay()
    ensures made { (h : Store) (b : Block) → IsHeap h → IsPart (at h) (at (with_new h b)) }
    ensures held { (h : Store) (k : ℕ) (b : Block) → at h k ≡ Some b → IsPart (at h) (at (with_block h k (one_more b))) }
{}
