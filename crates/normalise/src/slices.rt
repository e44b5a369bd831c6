ghost use Rattle.std.specs.Prelude.{◌≡◌, ◌<◌, ◌≤◌, IfOk, length, suc};
ghost use Rattle.diagram_terms.specs.Dimension.{dimension_of};
ghost use Rattle.diagram_terms.specs.Shape.{reg_at, sing_at};
ghost use Rattle.diagram_terms.specs.Tree.{sings};
ghost use Rattle.hashcons.specs.Contents.{arrow_at, diagram_at, leg_of};
ghost use Rattle.hashcons.specs.NoteTables.{key_of};
ghost use Rattle.zigzag_maps.specs.Found.{IsValidMap};
ghost use Rattle.normalise.specs.LegSlices.{regular_slice_trees, slice_trees_over, slices_to};
ghost use Rattle.normalise.specs.NormalMaps.{as_leg};
ghost use Rattle.normalise.specs.StoreForms.{AreLegsWith, IsKeyOf, IsKeyWith, legs_of};

use crate::keys::leg_map;
use hashcons::{ArrowId, DiagramId, NormalKey, Store};
use smallvec::SmallVec;
use std::alloc::{AllocError, Global};
use zigzag_maps::{Map, dual_of, reg_slice, sing_slice};

/// A regular slice of the target of a key, with the slices of the legs there, in their order.
pub(crate) fn regular_key(
    alloc: Global,
    store: &Store,
    key: &NormalKey,
    j: usize,
) -> Result<NormalKey, AllocError>
    requires key { IsKeyOf store.now (key_of key.now) }
    requires above { 0 < dimension_of (diagram_at store.now key.now.target) }
    requires within { j ≤ length (sings (diagram_at store.now key.now.target)) }
    ensures { IfOk result (λ k. IsKeyWith store.now (reg_at (diagram_at store.now key.now.target) j)
        (regular_slice_trees (legs_of store.now key.now.legs.items) j) (key_of k)) }
{
    let target = store.reg(key.target, j);
    let mut legs = SmallVec::new(alloc);
    for i in 0..key.legs.len() {
        let leg = leg_map(key, i);
        let slice = reg_slice(store, leg, j);
        legs.push((slice.source, slice.arrow))?;
    }
    Ok(NormalKey { target, legs })
}

/// The slices of the legs of a key at their heights that go to `k`, by leg and then by height. The
/// height behind `k` is `next`.
pub(crate) fn slices_over(
    alloc: Global,
    store: &Store,
    key: &NormalKey,
    k: usize,
    next: usize,
) -> Result<Vec<(DiagramId, ArrowId)>, AllocError>
    requires key { IsKeyOf store.now (key_of key.now) }
    requires above { 0 < dimension_of (diagram_at store.now key.now.target) }
    requires next { next ≡ suc k }
    ensures { IfOk result (λ xs. AreLegsWith store.now (sing_at (diagram_at store.now key.now.target) k)
        (slice_trees_over (legs_of store.now key.now.legs.items) k) xs.items) }
{
    let mut slices = Vec::new(alloc);
    for i in 0..key.legs.len() {
        let leg = leg_map(key, i);
        let found = slices_of(alloc, store, &leg, k, next)?;
        slices.extend_from_slice(found.as_slice())?;
    }
    Ok(slices)
}

/// The slices of a leg at its heights that go to `k`. Its heights do not fall, so these stand side by
/// side.
fn slices_of(
    alloc: Global,
    store: &Store,
    leg: &Map,
    k: usize,
    next: usize,
) -> Result<SmallVec<(DiagramId, ArrowId), 4>, AllocError>
    requires valid { IsValidMap store.now leg.now }
    requires above { 0 < dimension_of (arrow_at store.now leg.now.arrow) }
    requires next { next ≡ suc k }
    ensures { IfOk result (λ xs. AreLegsWith store.now (sing_at (diagram_at store.now leg.now.target) k)
        (slices_to k (leg_of store.now (as_leg leg.now))) xs.items) }
{
    let first = dual_of(store, leg.arrow, k);
    let end = dual_of(store, leg.arrow, next);
    let mut slices = SmallVec::new(alloc);
    for i in first..end {
        let slice = sing_slice(store, *leg, i);
        slices.push((slice.source, slice.arrow))?;
    }
    Ok(slices)
}
