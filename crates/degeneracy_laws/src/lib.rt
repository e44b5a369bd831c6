//! The laws of degeneracies, factors and least degeneracies, at every dimension.
#![tactic(auto)]

ghost use Rattle.std.specs.Prelude.{ℕ};
ghost use Rattle.degeneracy_laws.specs.Laws.{DegeneraciesAreMono, DegeneraciesAreValid, DegeneraciesCompose, DegeneraciesHaveShape, DegeneraciesSplit, DegeneraciesSplitOnce, FactorsAreUnique, FirstPartsAreDegeneracies, IdentitiesAreDegeneracies, LeastIsUnique, LeastOfFactorsIsIdentity, ReducedMeansLeast, ShapeMeansDegeneracy};

/// A degeneracy is a valid arrow between valid diagrams.
#[tactic(auto, using(crate::proofs::Shapes::degeneracies_are_valid))]
pub fn degeneracies_are_valid()
    ensures { (d : ℕ) → DegeneraciesAreValid d }
{}

/// An arrow between valid diagrams is a degeneracy exactly if it has the shape of one.
#[tactic(auto, using(crate::proofs::Shapes::degeneracies_have_shape, crate::proofs::Splits::shape_means_degeneracy))]
pub fn degeneracies_are_told_by_shape()
    ensures shape { (d : ℕ) → DegeneraciesHaveShape d }
    ensures only_degeneracies { (d : ℕ) → ShapeMeansDegeneracy d }
{}

/// The identity of a valid diagram is a degeneracy, and the composite of degeneracies is one.
#[tactic(auto, using(crate::proofs::Degeneracies::identities_are_degeneracies, crate::proofs::Degeneracies::degeneracies_compose))]
pub fn degeneracies_compose()
    ensures identities { (d : ℕ) → IdentitiesAreDegeneracies d }
    ensures composites { (d : ℕ) → DegeneraciesCompose d }
{}

/// Degeneracies are mono, so what factors through one does so in one way.
#[tactic(auto, using(crate::proofs::Degeneracies::degeneracies_are_mono, crate::proofs::Degeneracies::factors_are_unique))]
pub fn degeneracies_are_mono()
    ensures mono { (d : ℕ) → DegeneraciesAreMono d }
    ensures factors { (d : ℕ) → FactorsAreUnique d }
{}

/// A valid arrow that a degeneracy follows is a degeneracy if their composite is one.
#[tactic(auto, using(crate::proofs::Degeneracies::first_parts_are_degeneracies))]
pub fn first_parts_are_degeneracies()
    ensures { (d : ℕ) → FirstPartsAreDegeneracies d }
{}

/// Above dimension 0 each degeneracy is a simple arrow followed by a parallel one, in exactly one
/// way.
#[tactic(auto, using(crate::proofs::Splits::degeneracies_split))]
pub fn degeneracies_split_once()
    ensures split { (d : ℕ) → DegeneraciesSplit d }
    ensures once { (d : ℕ) → DegeneraciesSplitOnce d }
{}

/// A degeneracy through which valid legs factor, and whose source is reduced for the factors, is
/// the least.
pub fn reduced_means_least()
    ensures { (d : ℕ) → ReducedMeansLeast d }
{}

/// The least degeneracy for some legs is unique, source and arrow.
pub fn least_is_unique()
    ensures { (d : ℕ) → LeastIsUnique d }
{}

/// The least degeneracy for the factors through a least one is the identity of its source.
#[tactic(auto, using(crate::proofs::Leasts::least_of_factors_is_identity))]
pub fn least_of_factors_is_identity()
    ensures { (d : ℕ) → LeastOfFactorsIsIdentity d }
{}
