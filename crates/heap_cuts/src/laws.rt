//! How a heap with counts and a heap that is cut stand together.

ghost use Rattle.std.specs.Prelude.{◌≡◌, ℕ, ◌+◌, ◌≤◌, Some, None, [], ◌∷◌, ◌++◌, length, map, slice_set};
ghost use Rattle.std.specs.Option.{option_map};
ghost use Rattle.ref_heap.specs.Store.{Block, IsHeap, Store, at, count, inside, one_more, outside, with_block, with_new, without_block};
ghost use Rattle.heap_model.specs.Heap.{Heap, at as place, gone, in_all, stays};
ghost use Rattle.heap_cuts.specs.Laws.{GivesAway, LosesOnlyWhatGoes, NamesAlike, StandsFor};
ghost use Rattle.heap_cuts.specs.Shapes.{Shape, naming_of, shape_of, shapes};

/// What a drop leaves of the blocks is what stays of them, named so often as references are still held outside; those that are
/// still held are the ones that weren't given away.
pub fn cut()
    ensures stays { (before after : Store) (given : ℕ → ℕ) → GivesAway before after given
        → shapes after ≡ stays naming_of (outside after) (shapes before) }
    ensures held { (before after : Store) (given : ℕ → ℕ) → GivesAway before after given
        → (n : ℕ) → outside after n + given n ≡ outside before n }
{}

/// A heap of which nothing is given away is its own cut.
pub fn uncut()
    ensures { (h : Store) → IsHeap h → shapes h ≡ stays naming_of (outside h) (shapes h) }
{}

/// A block with one reference that becomes the next one, changed or not, is a block that is made while the old one goes.
pub fn renewed()
    ensures { (before after : Store) (k : ℕ) (s : Shape) → StandsFor before after k s
        → shapes after ≡ stays naming_of (outside after) (shapes before ++ Some s ∷ []) }
{}

/// Each block is at the place of its serial; a block that is made comes to the end, one that is put changes its place alone, and so
/// does one that is taken out; one more reference changes nothing.
pub fn places()
    ensures at { (h : Store) → IsHeap h → (n : ℕ) → place (shapes h) n ≡ option_map shape_of (at h n) }
    ensures length { (h : Store) → length (shapes h) ≡ h.made }
    ensures made { (h : Store) (b : Block) → shapes (with_new h b) ≡ shapes h ++ Some (shape_of b) ∷ [] }
    ensures put { (h : Store) (k : ℕ) (b : Block) → shapes (with_block h k b) ≡ slice_set (shapes h) k (Some (shape_of b)) }
    ensures taken { (h : Store) (k : ℕ) → shapes (without_block h k) ≡ slice_set (shapes h) k None }
    ensures held { (h : Store) (k : ℕ) (b : Block) → at h k ≡ Some b → shapes (with_block h k (one_more b)) ≡ shapes h }
{}

/// The places name as often as the blocks; so a count is what is held outside and what the places name.
pub fn names()
    ensures inside { (h : Store) (n : ℕ) → in_all naming_of (shapes h) n ≡ inside h n }
    ensures count { (h : Store) → IsHeap h → (n : ℕ) → count (at h) n ≡ outside h n + in_all naming_of (shapes h) n }
{}

/// Of a heap whose values are told in another way, and name what they named, the same stays and the same goes.
pub fn mapped<A, B>()
    ensures stays { (f : A → B) (inside : A → ℕ → ℕ) (inside' : B → ℕ → ℕ) (roots : ℕ → ℕ) (h : Heap A) → NamesAlike f inside inside' h
        → stays inside' roots (map (option_map f) h) ≡ map (option_map f) (stays inside roots h) }
    ensures gone { (f : A → B) (inside : A → ℕ → ℕ) (inside' : B → ℕ → ℕ) (roots : ℕ → ℕ) (h : Heap A) → NamesAlike f inside inside' h
        → gone inside' roots (map (option_map f) h) ≡ gone inside roots h }
{}

/// Roots that name each equally often keep the same.
pub fn same_roots<A>()
    ensures { (inside : A → ℕ → ℕ) (roots roots' : ℕ → ℕ) (h : Heap A) → ((n : ℕ) → roots n ≡ roots' n)
        → stays inside roots h ≡ stays inside roots' h }
{}

/// What wouldn't stay may go before, and the same stays: a place that nobody names may be emptied, and a heap that was cut by more
/// roots may be cut by fewer.
pub fn early<A>()
    ensures any { (inside : A → ℕ → ℕ) (roots : ℕ → ℕ) (h g : Heap A) → LosesOnlyWhatGoes inside roots h g
        → stays inside roots g ≡ stays inside roots h }
    ensures unnamed { (inside : A → ℕ → ℕ) (roots : ℕ → ℕ) (h : Heap A) (k : ℕ) → roots k ≡ 0 → in_all inside h k ≡ 0
        → stays inside roots (slice_set h k None) ≡ stays inside roots h }
    ensures twice { (inside : A → ℕ → ℕ) (roots fewer : ℕ → ℕ) (h : Heap A) → ((n : ℕ) → fewer n ≤ roots n)
        → stays inside fewer (stays inside roots h) ≡ stays inside fewer h }
{}
