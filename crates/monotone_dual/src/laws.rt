ghost use Rattle.std.specs.Prelude.{◌≡◌, ℕ, ◌+◌, ◌<◌, ◌≤◌, ◌↔◌, List, length, get_or};
ghost use Rattle.diagram_terms.specs.Dual.{IsMonotone, IsIncreasing, AreBelow, dual, after, upto};
ghost use Rattle.monotone_dual.specs.Injections.{IsSkip};
ghost use Rattle.monotone_dual.specs.Laws.{HasOneRefusal};

/// A height goes below `j` exactly if its place is below the dual at `j`.
pub fn threshold()
    ensures { (f : List ℕ) → IsMonotone f → (i j : ℕ) → i < length f
        → (i < dual f j) ↔ (get_or f i 0 < j) }
{}

/// A height goes to `k` exactly if its place is in the fibre.
pub fn fibres_are_intervals()
    ensures { (f : List ℕ) → IsMonotone f → (i k : ℕ) → i < length f
        → (get_or f i 0 ≡ k) ↔ ((dual f k ≤ i) × (i < dual f (k + 1))) }
{}

/// The dual of a composite is the composite of the duals, the other way round.
pub fn dual_of_composite()
    ensures { (g f : List ℕ) → IsMonotone g → AreBelow f (length g) → (k : ℕ)
        → dual (after g f) k ≡ dual f (dual g k) }
{}

/// The dual of the identity is the identity.
pub fn dual_of_identity()
    ensures { (n k : ℕ) → k ≤ n → dual (upto n) k ≡ k }
{}

/// Each regular height of the source of an injection is the dual of one of the target.
pub fn injections_hit_every_height()
    ensures { (f : List ℕ) (m : ℕ) → IsIncreasing f → AreBelow f m → (j : ℕ) → j ≤ length f
        → (k : ℕ) × (k ≤ m) × (dual f k ≡ j) }
{}

/// A list is refused for at most one reason, and not where it is a list of heights.
pub fn one_refusal()
    ensures { HasOneRefusal }
{}

/// One injection alone misses exactly the heights of a list.
pub fn one_skip()
    ensures { (m : ℕ) (dropped f g : List ℕ) → IsSkip m dropped f → IsSkip m dropped g → f ≡ g }
{}

/// A list goes through an injection in at most one way.
pub fn one_factor()
    ensures { (e f g : List ℕ) → IsIncreasing e → AreBelow f (length e) → AreBelow g (length e)
        → after e f ≡ after e g → f ≡ g }
{}
