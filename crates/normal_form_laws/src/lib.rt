//! The laws of normal forms and plain normal forms, at every dimension.
#![tactic(auto)]

ghost use Rattle.std.specs.Prelude.{ℕ};
ghost use Rattle.normal_form_laws.specs.Carried.{RelabellingCarriesOver, SuspensionCarriesOver};
ghost use Rattle.normal_form_laws.specs.CarriedTypes.{RelabellingCarriesConesOver, RelabellingKeepsTypes, SuspendedLabelsAreTypes, SuspensionCarriesConesOver, SuspensionKeepsTypes};
ghost use Rattle.normal_form_laws.specs.Laws.{CertificatesAreExact, ConstantsHaveOneNormalForm, DegeneraciesKeepLabels, DegeneraciesKeepNormalForms, FactorsAreAnswered, FactorsAreDecided, FactorsAreFound, IdentityDiagramsKeepNormalForms, IdentityTowersKeepNormalForms, LabelsAreBelow, LeastExists, LeastIsNormalForm, LeastIsReduced, LegsFactorThroughNormalForms, MissingFactorsAreAnswered, NewLabelsStay, NormalDiagramsAreNormal, NormalFormsAreDegeneracies, NormalFormsAreLeast, NormalFormsAreNormal, NormalFormsAreReduced, NormalFormsHaveCertificates, NormalFormsKeepLabels, NormalTypesHaveLengthOne, PointsHaveTheLabels, ReducedIsDecided, ReducedIsNormalForm, ReducedSourcesAreNormal, SameDiagramsAreDecided};
ghost use Rattle.normal_form_laws.specs.PlainLaws.{IdentitiesArePlainDegeneracies, LegsFactorThroughPlainForms, PlainDegeneraciesCompose, PlainFirstPartsAreDegeneracies, PlainFormsAreDegeneracies, PlainFormsAreLeast, PlainFormsAreReduced, PlainLeastExists, PlainLeastIsPlainForm, PlainLeastIsReduced, PlainLeastIsUnique, PlainLeastOfFactorsIsIdentity, PlainReducedIsPlainForm, PlainReducedMeansLeast, PlainSourcesArePlain, PlainTargetsAreNeeded};

/// Whether an arrow factors through a degeneracy is decided, and then the factor is found.
#[tactic(auto, using(crate::proofs::Existence::factors_are_found))]
pub fn factors_are_found()
    ensures factors { (d : ℕ) → FactorsAreFound d }
    ensures decided { (d : ℕ) → FactorsAreDecided d }
    ensures answered { (d : ℕ) → FactorsAreAnswered d }
    ensures missing { (d : ℕ) → MissingFactorsAreAnswered d }
{}

/// The normal form of a valid diagram relative to valid legs is the least degeneracy for them: a
/// degeneracy out of a valid diagram, through which the legs factor by their factors, for which the
/// diagram is reduced.
#[tactic(auto, using(crate::proofs::Existence::normal_forms_are_reduced))]
pub fn normal_forms_are_least()
    ensures degeneracy { (d : ℕ) → NormalFormsAreDegeneracies d }
    ensures factors { (d : ℕ) → LegsFactorThroughNormalForms d }
    ensures reduced { (d : ℕ) → NormalFormsAreReduced d }
    ensures least { (d : ℕ) → NormalFormsAreLeast d }
{}

/// There is a least degeneracy into each valid diagram for each list of valid legs, and it is the
/// normal form.
#[tactic(auto, using(crate::proofs::Existence::least_exists, crate::proofs::Existence::least_is_normal_form))]
pub fn least_exists()
    ensures exists { (d : ℕ) → LeastExists d }
    ensures normal_form { (d : ℕ) → LeastIsNormalForm d }
{}

/// The normal form is the only degeneracy through which the legs factor whose source is reduced for
/// the factors.
#[tactic(auto, using(crate::proofs::Existence::least_is_reduced))]
pub fn reduced_is_normal_form()
    ensures only { (d : ℕ) → ReducedIsNormalForm d }
    ensures reduced { (d : ℕ) → LeastIsReduced d }
{}

/// The normal form of a normal form relative to the factors is its identity.
#[tactic(auto, using(crate::proofs::Existence::normal_forms_are_normal))]
pub fn normal_forms_are_normal()
    ensures { (d : ℕ) → NormalFormsAreNormal d }
{}

/// What has a certificate is exactly the least degeneracy with the factors of the legs. Whether a
/// diagram is reduced is decided.
pub fn certificates_are_exact()
    ensures decided { (d : ℕ) → ReducedIsDecided d }
    ensures exact { (d : ℕ) → CertificatesAreExact d }
    ensures normal_forms { (d : ℕ) → NormalFormsHaveCertificates d }
{}

/// Without legs, both ends of a degeneracy have one normal form, and the normal form of an identity
/// diagram is the identity diagram of the normal form.
#[tactic(auto, using(crate::proofs::NormalDiagrams::degeneracies_keep_normal_forms, crate::proofs::NormalDiagrams::reduced_sources_are_normal, crate::proofs::NormalDiagrams::normal_diagrams_are_normal, crate::proofs::NormalDiagrams::identity_diagrams_keep_normal_forms, crate::proofs::ConstantForms::identity_towers_keep_normal_forms))]
pub fn degeneracies_keep_normal_forms()
    ensures ends { (d : ℕ) → DegeneraciesKeepNormalForms d }
    ensures reduced { (d : ℕ) → ReducedSourcesAreNormal d }
    ensures normal { (d : ℕ) → NormalDiagramsAreNormal d }
    ensures identity_diagrams { (d : ℕ) → IdentityDiagramsKeepNormalForms d }
    ensures towers { (d : ℕ) → IdentityTowersKeepNormalForms d }
{}

/// The labels of a diagram are those of its points, and each is below a dimension exactly if all
/// are.
pub fn points_have_the_labels()
    ensures points { (d : ℕ) → PointsHaveTheLabels d }
    ensures below { (d : ℕ) → LabelsAreBelow d }
{}

/// Both ends of a degeneracy have the same labels, and so have a diagram and its normal form.
#[tactic(auto, using(crate::proofs::KeptLabels::degeneracies_keep_labels, crate::proofs::KeptLabels::normal_forms_keep_labels))]
pub fn degeneracies_keep_labels()
    ensures ends { (d : ℕ) → DegeneraciesKeepLabels d }
    ensures normal_forms { (d : ℕ) → NormalFormsKeepLabels d }
{}

/// The normal form of a diagram that is M with identities at some depth is that of M under
/// identities.
#[tactic(auto, using(crate::proofs::ConstantForms::constants_have_one_normal_form))]
pub fn constants_have_one_normal_form()
    ensures { (d : ℕ) → ConstantsHaveOneNormalForm d }
{}

/// A diagram of length 1 whose singular slice has a label that its source has not keeps its height
/// in the normal form. So does the type of a generator.
#[tactic(auto, using(crate::proofs::KeptLabels::new_labels_stay, crate::proofs::KeptLabels::normal_types_have_length_one))]
pub fn new_labels_stay()
    ensures labels { (d : ℕ) → NewLabelsStay d }
    ensures types { (d : ℕ) → NormalTypesHaveLengthOne d }
{}

/// Identities are plain degeneracies, and composites of plain degeneracies are.
#[tactic(auto, using(crate::proofs::PlainShapes::identities_are_plain_degeneracies))]
pub fn plain_degeneracies_compose()
    ensures identities { (d : ℕ) → IdentitiesArePlainDegeneracies d }
    ensures composites { (d : ℕ) → PlainDegeneraciesCompose d }
{}

/// A valid arrow that a plain degeneracy follows is one if their composite is one.
pub fn plain_first_parts_are_degeneracies()
    ensures { (d : ℕ) → PlainFirstPartsAreDegeneracies d }
{}

/// The source of a plain degeneracy into a plain diagram is plain.
#[tactic(auto, using(crate::proofs::PlainShapes::plain_sources_are_plain))]
pub fn plain_sources_are_plain()
    ensures { (d : ℕ) → PlainSourcesArePlain d }
{}

/// A plain degeneracy into a plain diagram through which valid legs factor, and whose source is
/// reduced for the factors, its regular slices left alone, is the least plain one.
pub fn plain_reduced_means_least()
    ensures { (d : ℕ) → PlainReducedMeansLeast d }
{}

/// The least plain degeneracy for some legs is unique, source and arrow.
pub fn plain_least_is_unique()
    ensures { (d : ℕ) → PlainLeastIsUnique d }
{}

/// The plain normal form of a valid plain diagram relative to valid legs is the least plain
/// degeneracy for them: a plain degeneracy out of a valid plain diagram, through which the legs
/// factor by their factors, for which the diagram is reduced with its regular slices left alone.
#[tactic(auto, using(crate::proofs::PlainLeasts::plain_forms_are_reduced))]
pub fn plain_forms_are_least()
    ensures degeneracy { (d : ℕ) → PlainFormsAreDegeneracies d }
    ensures factors { (d : ℕ) → LegsFactorThroughPlainForms d }
    ensures reduced { (d : ℕ) → PlainFormsAreReduced d }
    ensures least { (d : ℕ) → PlainFormsAreLeast d }
{}

/// There is a least plain degeneracy into each valid plain diagram for each list of valid legs, and
/// it is the plain normal form.
#[tactic(auto, using(crate::proofs::PlainLeasts::plain_least_exists, crate::proofs::PlainLeasts::plain_least_is_plain_form))]
pub fn plain_least_exists()
    ensures exists { (d : ℕ) → PlainLeastExists d }
    ensures plain_normal_form { (d : ℕ) → PlainLeastIsPlainForm d }
{}

/// The plain normal form is the only plain degeneracy through which the legs factor whose source is
/// reduced for the factors, its regular slices left alone.
#[tactic(auto, using(crate::proofs::PlainLeasts::plain_least_is_reduced))]
pub fn plain_reduced_is_plain_form()
    ensures only { (d : ℕ) → PlainReducedIsPlainForm d }
    ensures reduced { (d : ℕ) → PlainLeastIsReduced d }
{}

/// The least plain degeneracy for the factors through a least plain one is the identity of its
/// source.
#[tactic(auto, using(crate::proofs::PlainLeasts::plain_least_of_factors_is_identity))]
pub fn plain_least_of_factors_is_identity()
    ensures { (d : ℕ) → PlainLeastOfFactorsIsIdentity d }
{}

/// A diagram that is not plain can be reduced for no legs, its regular slices left alone, though
/// its identity is not the least plain degeneracy.
pub fn plain_targets_are_needed()
    ensures { PlainTargetsAreNeeded }
{}

/// Whether two diagrams are the same is decided.
pub fn same_diagrams_are_decided()
    ensures { (d : ℕ) → SameDiagramsAreDecided d }
{}

/// Relabelling by a map under which greater dimensions stay greater keeps validity, identities,
/// composites, plainness, degeneracies and what is reduced, and so normal forms. It keeps cones and
/// types.
#[tactic(auto, using(crate::proofs::CarriedTypes::relabelling_keeps_types))]
pub fn relabelling_carries_over()
    ensures normal_forms { (d : ℕ) → RelabellingCarriesOver d }
    ensures cones { (d : ℕ) → RelabellingCarriesConesOver d }
    ensures types { (d : ℕ) → RelabellingKeepsTypes d }
{}

/// So does suspension.
#[tactic(auto, using(crate::proofs::CarriedTypes::suspension_keeps_types))]
pub fn suspension_carries_over()
    ensures normal_forms { (d : ℕ) → SuspensionCarriesOver d }
    ensures cones { (d : ℕ) → SuspensionCarriesConesOver d }
    ensures types { (d : ℕ) → SuspensionKeepsTypes d }
{}

/// A suspended label is the type over the two new labels.
#[tactic(auto, using(crate::proofs::CarriedTypes::suspended_labels_are_types))]
pub fn suspended_labels_are_types()
    ensures { SuspendedLabelsAreTypes }
{}
