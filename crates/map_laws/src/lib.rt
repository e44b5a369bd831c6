//! The laws of identities and composites of arrows, at every dimension.
#![tactic(auto)]

ghost use Rattle.std.specs.Prelude.{ℕ};
ghost use Rattle.map_laws.specs.Laws.{CompositionIsAssociative, CompositesAreValid, IdentitiesAreNeutralAfter, IdentitiesAreNeutralBefore, IdentitiesArePlain, IdentitiesAreValid, IdentitiesCompose, IdentitiesHaveShape, InvertibleMeansIdentity, PlainArrowsCompose, ShapeMeansIdentity, SquaresHaveEdges};

/// Composition of valid arrows is associative.
#[tactic(auto, using(crate::proofs::Associativity::associative))]
pub fn composition_is_associative()
    ensures { (d : ℕ) → CompositionIsAssociative d }
{}

/// The composite of valid arrows between valid diagrams is valid.
#[tactic(auto, using(crate::proofs::ValidComposites::composites_are_valid))]
pub fn composites_are_valid()
    ensures { (d : ℕ) → CompositesAreValid d }
{}

/// The identity of a valid diagram is valid.
#[tactic(auto, using(crate::proofs::ValidIdentities::identities_are_valid))]
pub fn identities_are_valid()
    ensures { (d : ℕ) → IdentitiesAreValid d }
{}

/// The identity of a valid diagram is neutral for valid arrows.
#[tactic(auto, using(crate::proofs::Neutral::neutral_after, crate::proofs::Neutral::neutral_before))]
pub fn identities_are_neutral()
    ensures after { (d : ℕ) → IdentitiesAreNeutralAfter d }
    ensures before { (d : ℕ) → IdentitiesAreNeutralBefore d }
{}

/// A valid arrow between valid diagrams is an identity exactly if it has the shape of one. The
/// composite of such arrows is one.
#[tactic(auto, using(crate::proofs::IdentityShapes::identities_have_shape, crate::proofs::IdentityShapes::shape_means_identity, crate::proofs::IdentityShapes::identities_compose))]
pub fn identities_are_told_by_shape()
    ensures shape { (d : ℕ) → IdentitiesHaveShape d }
    ensures only_identities { (d : ℕ) → ShapeMeansIdentity d }
    ensures composites { (d : ℕ) → IdentitiesCompose d }
{}

/// A square commutes exactly if it has edges.
pub fn squares_have_edges()
    ensures { (d : ℕ) → SquaresHaveEdges d }
{}

/// A valid arrow between valid diagrams that has a valid inverse is an identity.
#[tactic(auto, using(crate::proofs::Inverses::invertible_means_identity))]
pub fn invertible_arrows_are_identities()
    ensures { (d : ℕ) → InvertibleMeansIdentity d }
{}

/// Identities are plain, and composites of valid plain arrows are plain.
#[tactic(auto, using(crate::proofs::PlainArrows::identities_are_plain, crate::proofs::PlainArrows::plain_arrows_compose))]
pub fn plain_arrows_compose()
    ensures identities { (d : ℕ) → IdentitiesArePlain d }
    ensures composites { (d : ℕ) → PlainArrowsCompose d }
{}
