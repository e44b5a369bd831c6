//! The laws of plain arrows, parallel diagrams, cones and types, at every dimension.
#![tactic(auto)]

ghost use Rattle.std.specs.Prelude.{ℕ};
ghost use Rattle.plain_laws.specs.Laws.{ConesAbsorbPlainArrows, ConesAreGood, ParallelDiagramsHaveOneMid, ParallelIsReflexive, ParallelIsSymmetric, ParallelIsTransitive, PlainArrowsHaveParallelEnds, PlainArrowsUnfold, SlicesAreParallel, TypesAreGood};

/// The regular slices of a valid plain arrow between valid diagrams are identities, so it has one
/// diagram at both ends of each, and its ends are parallel.
#[tactic(auto, using(crate::proofs::PlainEnds::plain_arrows_unfold, crate::proofs::PlainEnds::plain_arrows_have_parallel_ends))]
pub fn plain_arrows_have_parallel_ends()
    ensures slices { (d : ℕ) → PlainArrowsUnfold d }
    ensures ends { (d : ℕ) → PlainArrowsHaveParallelEnds d }
{}

/// To be parallel is an equivalence. The slices of a valid plain diagram are parallel to its source,
/// and so to each other.
#[tactic(auto, using(crate::proofs::Parallels::parallel_is_reflexive, crate::proofs::Parallels::parallel_is_symmetric, crate::proofs::Parallels::parallel_is_transitive, crate::proofs::Parallels::slices_are_parallel))]
pub fn slices_are_parallel()
    ensures reflexive { (d : ℕ) → ParallelIsReflexive d }
    ensures symmetric { (d : ℕ) → ParallelIsSymmetric d }
    ensures transitive { (d : ℕ) → ParallelIsTransitive d }
    ensures slices { (d : ℕ) → SlicesAreParallel d }
{}

/// The cones over parallel diagrams with one label end in one diagram.
#[tactic(auto, using(crate::proofs::Parallels::parallel_diagrams_have_one_mid))]
pub fn parallel_diagrams_have_one_mid()
    ensures { (d : ℕ) → ParallelDiagramsHaveOneMid d }
{}

/// The cone over a valid plain diagram with a label above its own is a valid plain arrow to a valid
/// plain diagram, which is parallel to it.
#[tactic(auto, using(crate::proofs::Cones::cones_are_good))]
pub fn cones_are_good()
    ensures { (d : ℕ) → ConesAreGood d }
{}

/// A cone after a valid plain arrow between valid diagrams is the cone over the arrow's source,
/// whatever the labels are.
#[tactic(auto, using(crate::proofs::Absorption::cones_absorb_plain_arrows))]
pub fn cones_absorb_plain_arrows()
    ensures { (d : ℕ) → ConesAbsorbPlainArrows d }
{}

/// The type over parallel valid plain diagrams with a label above theirs is valid and plain.
#[tactic(auto, using(crate::proofs::Cones::types_are_good))]
pub fn types_are_good()
    ensures { (d : ℕ) → TypesAreGood d }
{}
