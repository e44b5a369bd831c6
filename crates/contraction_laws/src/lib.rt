//! The laws of contraction and of settling, at every dimension.
#![tactic(auto)]

ghost use Rattle.std.specs.Prelude.{ℕ};
ghost use Rattle.contraction_laws.specs.Laws.{ContractionFaultsAreComputed, ContractionTreesAreComputed, ContractionTreesAreGood, ContractionTreesAreParallel, ContractionTreesAreRefused, ContractionsAreComputed, ContractionsAreGood, ContractionsAreShorter, ContractionsHaveLists, ContractionsHaveOneBoundary, ContractionsMerge, SettledIsGood, SettledTreesAreGood, SettledTreesAreShorter, SettlingEnds, SettlingIsComputed, SettlingShortens, SettlingTreesAreGood, SliceContractionsAreAsLong, SliceContractionsHaveLists, StepsAreGood, StepsAreSegments, StepsAreSums, StepsHaveEnds, StepsKeepPoints, StoredContractionsAreGood, StoredTreesAreGood, TwoHeightsAreShapes, UnbiasedContractionsStay};

/// The program for contraction answers as the rule says.
pub fn contractions_are_computed()
    ensures contractions { (d : ℕ) → ContractionsAreComputed d }
    ensures faults { (d : ℕ) → ContractionFaultsAreComputed d }
{}

/// A contraction merges two heights by the colimit of what stands there. Its arrow is valid and plain
/// between valid plain diagrams with one boundary, and so is the diagram that is stored. Where there is
/// a contraction without a bias, every list of biases gives it.
pub fn contractions_are_good()
    ensures shapes { (d : ℕ) → TwoHeightsAreShapes d }
    ensures merged { (d : ℕ) → ContractionsMerge d }
    ensures good { (d : ℕ) → ContractionsAreGood d }
    ensures boundary { (d : ℕ) → ContractionsHaveOneBoundary d }
    ensures stored { (d : ℕ) → StoredContractionsAreGood d }
    ensures unbiased { (d : ℕ) → UnbiasedContractionsStay d }
{}

/// A contraction, list by list, and how many heights it leaves.
pub fn contractions_have_lists()
    ensures lists { (d : ℕ) → ContractionsHaveLists d }
    ensures slice_lists { (d : ℕ) → SliceContractionsHaveLists d }
    ensures shorter { (d : ℕ) → ContractionsAreShorter d }
    ensures as_long { (d : ℕ) → SliceContractionsAreAsLong d }
{}

/// Settling takes the least open height at each step, and ends where no height is open, with as many
/// heights less as there are steps.
pub fn settling_is_computed()
    ensures steps { (d : ℕ) → SettlingIsComputed d }
    ensures ends { (d : ℕ) → SettlingEnds d }
    ensures shortens { (d : ℕ) → SettlingShortens d }
    ensures settled { (d : ℕ) → SettledIsGood d }
{}

/// The diagram that holds the steps of a settling is valid and plain, leads from the diagram to what
/// is left of it, and is the sum of what is stored for the steps; each of its neighbourhoods is one of
/// these.
pub fn steps_are_good()
    ensures good { (d : ℕ) → StepsAreGood d }
    ensures end_slices { (d : ℕ) → StepsHaveEnds d }
    ensures sums { (d : ℕ) → StepsAreSums d }
    ensures segments { (d : ℕ) → StepsAreSegments d }
    ensures points { (d : ℕ) → StepsKeepPoints d }
{}

/// The trees of a contraction and of a settling are those of valid plain diagrams and arrows.
pub fn contraction_trees_are_good()
    ensures computed { ContractionTreesAreComputed }
    ensures refused { ContractionTreesAreRefused }
    ensures arrow { ContractionTreesAreGood }
    ensures parallel { ContractionTreesAreParallel }
    ensures stored { StoredTreesAreGood }
    ensures settled { SettledTreesAreGood }
    ensures settling { SettlingTreesAreGood }
    ensures shorter { SettledTreesAreShorter }
{}
