ghost use Rattle.std.specs.Prelude.{◌≡◌, ◌<◌, ◌↔◌, IfOk, IsSome, IsTrue, Some, get_or, length};
ghost use Rattle.hashcons.specs.Contents.{IsStore, diagram_at, noted_normal};
ghost use Rattle.hashcons.specs.NormalTrees.{tree_leg_at};
ghost use Rattle.hashcons.specs.NoteTables.{key_of};
ghost use Rattle.degeneracy.specs.FactorTrees.{factor_tree};
ghost use Rattle.normalise.specs.FormTrees.{normal_tree};
ghost use Rattle.normalise.specs.NormalMaps.{as_noted};
ghost use Rattle.normalise.specs.StoreForms.{IsArrowOut, IsArrowWith, IsKeyOf, IsLegWith, legs_of};

use crate::normal::Normal;
use hashcons::{ArrowId, DiagramId, NormalKey, Store};
use std::alloc::{AllocError, Global};
use zigzag_maps::Map;

/// Whether a normal form is noted for a key.
pub(crate) fn is_known(store: &Store, key: &NormalKey) -> bool
    ensures known { IsTrue result ↔ IsSome (noted_normal store.now (key_of key.now)) }
    ensures store { IsStore store.now }
{
    store.known_normal(key).is_some()
}

/// The normal form that is noted for a key.
pub(crate) fn known_form(store: &Store, key: &NormalKey) -> (DiagramId, ArrowId)
    requires { IsSome (noted_normal store.now (key_of key.now)) }
    ensures form { IsLegWith store.now (normal_tree (diagram_at store.now key.now.target) (legs_of store.now key.now.legs.items)) result }
    ensures store { IsStore store.now }
{
    match store.known_normal(key) {
        Some(known) => (known.source, known.arrow),
        None => unreachable!(),
    }
}

/// The factor that is noted of the leg at `i` of a key.
pub(crate) fn known_factor(store: &Store, key: &NormalKey, i: usize) -> ArrowId
    requires noted { IsSome (noted_normal store.now (key_of key.now)) }
    requires key { IsKeyOf store.now (key_of key.now) }
    requires within { i < length key.now.legs.items }
    ensures out { IsArrowOut store.now (get_or key.now.legs.items i (0, 0)).0 result }
    ensures factor { IsArrowWith store.now (factor_tree
        (normal_tree (diagram_at store.now key.now.target) (legs_of store.now key.now.legs.items)).arrow
        (tree_leg_at (legs_of store.now key.now.legs.items) i).arrow) result }
{
    match store.known_normal(key) {
        Some(known) => known.factors[i],
        None => unreachable!(),
    }
}

/// What is noted for a key, as an answer.
pub(crate) fn known_answer(
    alloc: Global,
    store: &Store,
    key: &NormalKey,
) -> Result<Normal, AllocError>
    requires { IsSome (noted_normal store.now (key_of key.now)) }
    ensures target { IfOk result (λ n. n.map.target ≡ key.now.target) }
    ensures noted { IfOk result (λ n. noted_normal store.now (key_of key.now) ≡ Some (as_noted n)) }
    ensures store { IsStore store.now }
{
    match store.known_normal(key) {
        Some(known) => {
            let map = Map {
                source: known.source,
                target: key.target,
                arrow: known.arrow,
            };
            let factors = Vec::from_slice(alloc, known.factors.as_slice())?;
            Ok(Normal { map, factors })
        }
        None => unreachable!(),
    }
}
