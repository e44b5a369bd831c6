ghost use Rattle.std.specs.Prelude.{◌≡◌, ◌↔◌, ℕ, None};
ghost use Rattle.diagram_terms.specs.Decoded.{arr, dia};
ghost use Rattle.diagram_terms.specs.Family.{Dia};
ghost use Rattle.diagram_terms.specs.GlueLaws.{DecodingIsFaithful};
ghost use Rattle.diagram_terms.specs.Laws.{HasOneFirstFault};
ghost use Rattle.diagram_terms.specs.Places.{first_bad_place, first_bad_place_between};
ghost use Rattle.diagram_terms.specs.Shape.{IsArrow, IsDiagram};
ghost use Rattle.diagram_terms.specs.Tree.{Tree};
ghost use Rattle.diagram_terms.specs.Valid.{Valid, ValidArrow};

/// A tree of the shape of a diagram has no bad place exactly when the diagram is valid, and one of
/// the shape of an arrow has none between two diagrams exactly when it is valid between them.
#[tactic(auto, using(crate::proofs::FirstFaults::no_bad_place, crate::proofs::FirstFaults::no_bad_place_between))]
pub fn no_bad_place_is_validity()
    ensures diagrams { (d : ℕ) (t : Tree) → IsDiagram d t
        → ((first_bad_place d (dia d t) ≡ None) ↔ Valid d (dia d t)) }
    ensures arrows { (d : ℕ) (t : Tree) (X Y : Dia d) → IsArrow d t
        → ((first_bad_place_between d X Y (arr d t) ≡ None) ↔ ValidArrow d X Y (arr d t)) }
{}

/// A tree of that shape whose diagram is not valid has exactly one first fault, at its first bad
/// place.
#[tactic(auto, using(crate::proofs::FirstFaults::one_first_fault))]
pub fn one_first_fault()
    ensures { (d : ℕ) (t : Tree) → IsDiagram d t
        → ¬ (Valid d (dia d t)) → HasOneFirstFault d (dia d t) }
{}

/// A tree of the right shape and the diagram or arrow that it decodes to are one thing.
pub fn decoding_is_faithful()
    ensures { DecodingIsFaithful }
{}
