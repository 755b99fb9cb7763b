ghost use Rattle.std.specs.Prelude.{◌≡◌, ℕ, ◌<◌, Some};
ghost use Rattle.ref_heap.specs.Store.{Block, Blocks, names};
ghost use Rattle.ref_heap.specs.Drops.{Freed};

/// What a drop leaves is one heap: of its blocks, their words and their counts nothing is free.
pub fn one_rest()
    ensures { (limit : ℕ) (outside : ℕ → ℕ) (before a b : Blocks) → Freed limit outside before a → Freed limit outside before b → (n : ℕ) → a n ≡ b n }
{}

/// What is still held outside stays, and so does what a block that stays names.
pub fn named_stays()
    ensures outside { (limit : ℕ) (outside : ℕ → ℕ) (before after : Blocks) → Freed limit outside before after → (n : ℕ) → 0 < outside n → (b : Block) × (after n ≡ Some b) }
    ensures within { (limit : ℕ) (outside : ℕ → ℕ) (before after : Blocks) → Freed limit outside before after → (n : ℕ) → 0 < names limit after n → (b : Block) × (after n ≡ Some b) }
{}
