//! The laws of segments and sums of diagrams, of occurrences and attachment, of merging and of expansion, at every
//! dimension.
#![tactic(auto)]

ghost use Rattle.std.specs.Prelude.{ℕ};
ghost use Rattle.occurrence_laws.specs.TreeLaws.{AttachedTreesAtSourceAreGood, AttachedTreesAtTargetAreGood, ExpansionTreesAreGood, MatchTreesAreOccurrences, SumTreesAreGood};
ghost use Rattle.occurrence_laws.specs.Laws.{AroundBlocksHaveLists, ArrowSegmentsAreGood, ArrowSegmentsAreWhole, ArrowSegmentsJoin, ArrowSumsAreAssociative, ArrowSumsAreGood, ArrowSumsHaveSegments, AttachedAtSourceHasEnds, AttachedAtSourceIsGood, AttachedAtTargetHasEnds, AttachedAtTargetIsGood, ExpandedHasLists, ExpandingIsGood, ExpansionsAreAnswered, ExpansionsAreGood, ExpansionsHaveOneBoundary, IdentityDiagramsAreNeutral, MatchesAreInOrder, MatchesAreOccurrences, MergedHasLists, MergingAlongIsGood, MergingIsGood, NoRefusedStepMeansInside, PutsAreGood, PutsHaveLists, PutsOfComposites, PutsOfIdentities, RefusedStepsAreWithin, ReplacedAreGood, ReplacedBySameIsSame, ReplacedHasLists, ReplacingHasLists, ReplacingIsGood, SegmentsAreGood, SegmentsAreValid, SegmentsAreWhole, SegmentsHaveEnds, SegmentsJoin, SegmentsOfComposites, SegmentsOfIdentities, SliceReplacedHasLists, SliceReplacingIsGood, StoredArrowsAreGood, StoredExpansionsAreGood, SumsAreAssociative, SumsAreGood, SumsAreValid, SumsHaveEnds, SumsHaveSegments, SumsOfComposites, SumsOfIdentities, SwappedIsInside, SwapsAreGood, SwapsBack, SwapsHaveLists, SwapsTwice, SwapsWithItself};

/// Segments and sums of valid diagrams are valid, and those of valid plain diagrams are valid and
/// plain.
pub fn segments_and_sums_are_good()
    ensures valid_segments { (d : ℕ) → SegmentsAreValid d }
    ensures segments { (d : ℕ) → SegmentsAreGood d }
    ensures segment_ends { (d : ℕ) → SegmentsHaveEnds d }
    ensures valid_sums { (d : ℕ) → SumsAreValid d }
    ensures sums { (d : ℕ) → SumsAreGood d }
    ensures sum_ends { (d : ℕ) → SumsHaveEnds d }
{}

/// A diagram is the sum of its segments, and a sum has its summands as segments.
pub fn diagrams_are_sums_of_segments()
    ensures joined { (d : ℕ) → SegmentsJoin d }
    ensures whole { (d : ℕ) → SegmentsAreWhole d }
    ensures summands { (d : ℕ) → SumsHaveSegments d }
{}

/// Sums of diagrams are associative, and the identity diagrams of the ends are neutral.
pub fn sums_are_associative()
    ensures associative { (d : ℕ) → SumsAreAssociative d }
    ensures neutral { (d : ℕ) → IdentityDiagramsAreNeutral d }
{}

/// Sums of valid plain arrows are valid and plain, keep identities and composites, and are
/// associative.
pub fn arrow_sums_are_good()
    ensures good { (d : ℕ) → ArrowSumsAreGood d }
    ensures identities { (d : ℕ) → SumsOfIdentities d }
    ensures composites { (d : ℕ) → SumsOfComposites d }
    ensures associative { (d : ℕ) → ArrowSumsAreAssociative d }
{}

/// Segments of a valid plain arrow are valid and plain, and it is their sum; they keep identities and
/// composites.
pub fn arrows_are_sums_of_segments()
    ensures good { (d : ℕ) → ArrowSegmentsAreGood d }
    ensures joined { (d : ℕ) → ArrowSegmentsJoin d }
    ensures whole { (d : ℕ) → ArrowSegmentsAreWhole d }
    ensures summands { (d : ℕ) → ArrowSumsHaveSegments d }
    ensures identities { (d : ℕ) → SegmentsOfIdentities d }
    ensures composites { (d : ℕ) → SegmentsOfComposites d }
{}

/// Another diagram, or an arrow, in the place of a segment.
pub fn segments_are_replaced()
    ensures good { (d : ℕ) → ReplacedAreGood d }
    ensures same { (d : ℕ) → ReplacedBySameIsSame d }
    ensures arrows { (d : ℕ) → ReplacingIsGood d }
    ensures lists { (d : ℕ) → ReplacedHasLists d }
    ensures arrow_lists { (d : ℕ) → ReplacingHasLists d }
{}

/// A diagram with another one in the place of a part is valid and plain, has the ends of the first,
/// and has the other one as part; what is put there last counts.
#[tactic(auto, using(crate::proofs::LawProofs::swaps_are_good, crate::proofs::LawProofs::swapped_is_inside, crate::proofs::LawProofs::swaps_with_itself, crate::proofs::LawProofs::swaps_twice, crate::proofs::LawProofs::swaps_back, crate::proofs::Puts::swaps_have_lists))]
pub fn parts_are_swapped()
    ensures good { (d : ℕ) → SwapsAreGood d }
    ensures inside { (d : ℕ) → SwappedIsInside d }
    ensures same { (d : ℕ) → SwapsWithItself d }
    ensures twice { (d : ℕ) → SwapsTwice d }
    ensures back { (d : ℕ) → SwapsBack d }
    ensures lists { (d : ℕ) → SwapsHaveLists d }
{}

/// An arrow that is a given plain arrow on a part is valid and plain; identities and composites are
/// kept.
pub fn arrows_are_put()
    ensures good { (d : ℕ) → PutsAreGood d }
    ensures identities { (d : ℕ) → PutsOfIdentities d }
    ensures composites { (d : ℕ) → PutsOfComposites d }
    ensures lists { (d : ℕ) → PutsHaveLists d }
{}

/// There is no refused step exactly where the one diagram is inside the other, and a refused step is
/// one of the dimensions.
#[tactic(auto, using(crate::proofs::RefusedSteps::none_means_inside, crate::proofs::RefusedSteps::refused_steps_are_within))]
pub fn refused_steps_decide()
    ensures none { (d : ℕ) → NoRefusedStepMeansInside d }
    ensures within { (d : ℕ) → RefusedStepsAreWithin d }
{}

/// The matches are the offsets at which the one diagram is inside the other, in lexicographic order
/// and each once.
#[tactic(auto, using(crate::proofs::Matches::matches_are_occurrences, crate::proofs::Matches::matches_are_in_order))]
pub fn matches_are_occurrences()
    ensures occurrences { (d : ℕ) → MatchesAreOccurrences d }
    ensures ordered { (d : ℕ) → MatchesAreInOrder d }
{}

/// A diagram to which a generator is attached is valid and plain, and leads where it has to.
pub fn attached_diagrams_are_good()
    ensures at_target { (d : ℕ) → AttachedAtTargetIsGood d }
    ensures target_ends { (d : ℕ) → AttachedAtTargetHasEnds d }
    ensures at_source { (d : ℕ) → AttachedAtSourceIsGood d }
    ensures source_ends { (d : ℕ) → AttachedAtSourceHasEnds d }
{}

/// An arrow to another singular slice, a cocone over two heights, and one over two heights of a slice
/// to which a path leads, each give a valid plain arrow from the diagram.
pub fn merging_is_good()
    ensures slices { (d : ℕ) → SliceReplacingIsGood d }
    ensures heights { (d : ℕ) → MergingIsGood d }
    ensures along { (d : ℕ) → MergingAlongIsGood d }
    ensures slice_lists { (d : ℕ) → SliceReplacedHasLists d }
    ensures height_lists { (d : ℕ) → MergedHasLists d }
{}

/// The diagrams that are stored for a valid plain arrow are valid and plain.
pub fn stored_arrows_are_good()
    ensures { (d : ℕ) → StoredArrowsAreGood d }
{}

/// An expanded diagram is valid and plain, and so is the arrow from it.
pub fn expanding_is_good()
    ensures good { (d : ℕ) → ExpandingIsGood d }
    ensures lists { (d : ℕ) → ExpandedHasLists d }
    ensures around_blocks { (d : ℕ) → AroundBlocksHaveLists d }
{}

/// There is an expansion exactly where both heights are there and the inner one is not the only one.
/// It has the boundary of the diagram, and the diagram that is stored for it is valid and plain.
pub fn expansions_are_answered()
    ensures answers { (d : ℕ) → ExpansionsAreAnswered d }
    ensures good { (d : ℕ) → ExpansionsAreGood d }
    ensures boundary { (d : ℕ) → ExpansionsHaveOneBoundary d }
    ensures stored { (d : ℕ) → StoredExpansionsAreGood d }
{}

/// On trees: sums, attached and expanded diagrams are valid and plain and have the dimension that they
/// have to have, and the matches are the offsets without a refused step.
pub fn trees_are_good()
    ensures sums { SumTreesAreGood }
    ensures matches { MatchTreesAreOccurrences }
    ensures at_target { AttachedTreesAtTargetAreGood }
    ensures at_source { AttachedTreesAtSourceAreGood }
    ensures expansions { ExpansionTreesAreGood }
{}
