ghost use Rattle.std.specs.Prelude.{◌≡◌, IfOk, IsSome, OnOk, length};
ghost use Rattle.hashcons.specs.Contents.{Grows, IsStore, diagram_at, noted_normal};
ghost use Rattle.hashcons.specs.NoteTables.{key_of};
ghost use Rattle.zigzag_maps.specs.Found.{IsValidMap};
ghost use Rattle.degeneracy.specs.DegeneracyTrees.{IsDegeneracyMap, IsFactorArrow};
ghost use Rattle.diagram_terms.specs.Tree.{Tree};
ghost use Rattle.normalise.specs.FormTrees.{normal_tree};
ghost use Rattle.normalise.specs.StoreForms.{AreFactorsOf, IsFactorOf, IsKeyOf, IsLegWith, legs_of};

use crate::keys::{copy_of, leg_map};
use degeneracy::factor;
use hashcons::{ArrowId, DiagramId, KnownNormal, NormalKey, Store};
use std::alloc::{AllocError, Global};
use zigzag_maps::Map;

/// Notes a normal form for its key, with the factors of the legs.
#[tactic(auto, using(crate::proofs::FormsInStore::forming))]
pub(crate) fn note_with_factors(
    alloc: Global,
    store: &mut Store,
    key: &NormalKey,
    source: DiagramId,
    arrow: ArrowId,
) -> Result<(), AllocError>
    requires key { IsKeyOf store.old (key_of key.now) }
    requires form { IsLegWith store.old (normal_tree (diagram_at store.old key.now.target) (legs_of store.old key.now.legs.items)) (source, arrow) }
    requires store { IsStore store.old }
    ensures grows { Grows store.old store.new }
    ensures noted { OnOk result (IsSome (noted_normal store.new (key_of key.now))) }
{
    let factors = factors_of(alloc, store, key, source, arrow)?;
    let copy = copy_of(alloc, key)?;
    let made = KnownNormal {
        source,
        arrow,
        factors,
    };
    store.note_normal(copy, made)
}

/// The factors of the legs of a key through its normal form, in their order.
#[tactic(auto, using(crate::proofs::FormsInStore::forming))]
fn factors_of(
    alloc: Global,
    store: &mut Store,
    key: &NormalKey,
    source: DiagramId,
    arrow: ArrowId,
) -> Result<Vec<ArrowId>, AllocError>
    requires key { IsKeyOf store.old (key_of key.now) }
    requires form { IsLegWith store.old (normal_tree (diagram_at store.old key.now.target) (legs_of store.old key.now.legs.items)) (source, arrow) }
    requires store { IsStore store.old }
    ensures grows { Grows store.old store.new }
    ensures factors { IfOk result (λ fs. AreFactorsOf store.new (key_of key.now) (source, arrow) (length key.now.legs.items) fs.items) }
{
    let through = Map {
        source,
        target: key.target,
        arrow,
    };
    let mut factors = Vec::new(alloc);
    for i in 0..key.legs.len() {
        let leg = leg_map(key, i);
        factors.push(factor_of(alloc, store, leg, through)?)?;
    }
    Ok(factors)
}

/// The factor of a map through a degeneracy through which it factors.
fn factor_of(alloc: Global, store: &mut Store, f: Map, through: Map) -> Result<ArrowId, AllocError>
    requires valid { IsValidMap store.old f }
    requires through { IsValidMap store.old through }
    requires meet { f.target ≡ through.target }
    requires degeneracy { IsDegeneracyMap store.old through }
    requires factors { (g : Tree) × IsFactorArrow store.old f through g }
    ensures grows { Grows store.old store.new }
    ensures factor { IfOk result (λ g. IsFactorOf store.new f through g) }
{
    match factor(alloc, store, f, through)? {
        Some(found) => Ok(found.arrow),
        None => unreachable!(),
    }
}
