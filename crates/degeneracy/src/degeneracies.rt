ghost use Rattle.std.specs.Prelude.{◌≡◌, ◌+◌, ◌<◌, ◌↔◌, ℕ, IfOk, IsTrue, length, slice_index, suc};
ghost use Rattle.diagram_terms.specs.Dimension.{dimension_of};
ghost use Rattle.diagram_terms.specs.Dual.{IsIncreasing, dual};
ghost use Rattle.diagram_terms.specs.Shape.{reg_at, sing_at, fwd_at, bwd_at};
ghost use Rattle.diagram_terms.specs.Tree.{from_at, heights, regs, sings, to_at};
ghost use Rattle.hashcons.specs.Contents.{Grows, IsArrowOf, IsStore, arrow_at, diagram_at};
ghost use Rattle.diagram_terms.specs.Operations.{composite_tree};
ghost use Rattle.zigzag_maps.specs.Found.{IsValidDiagram, IsValidMap};
ghost use Rattle.degeneracy.specs.DegeneracyTrees.{IsDegeneracyMap, IsDegeneracyTree};
ghost use Rattle.degeneracy.specs.DegeneracyKeeps.{AreDegeneracies, Decides};
ghost use Rattle.degeneracy.specs.DegeneracyShapes.{HasDegenerateRegs, HasDegenerateSings, IsDegenerateWhereMissed, HasDegenerateMissed};

use crate::degeneracy_kept::DegeneracyKept;
use hashcons::{AnyId, ArrowId, Store};
use std::alloc::{AllocError, Global};
use zigzag_maps::{Map, bwd_map, compose, dual_from, dual_of, fwd_map, reg_slice, sing_slice};

/// Whether a map is a degeneracy. Degeneracies compose and are mono (`degeneracies_compose` and
/// `degeneracies_are_mono` of `degeneracy_laws`), and a map with an inverse is an identity
/// (`invertible_arrows_are_identities` of `map_laws`).
pub fn is_degeneracy(alloc: Global, store: &mut Store, f: Map) -> Result<bool, AllocError>
    requires { IsValidMap store.old f }
    ensures grows { Grows store.old store.new }
    ensures exact { IfOk result (λ yes. IsTrue yes ↔ IsDegeneracyMap store.old f) }
{
    let dim = store.dim(AnyId::Arrow(f.arrow));
    let mut kept = DegeneracyKept::new(alloc);
    is_degeneracy_once(alloc, store, &mut kept, dim, f)
}

/// Whether a map of dimension `dim` is a degeneracy, where each map is worked out once.
#[cycle(degeneracies)]
#[tactic(auto, using(crate::proofs::DegeneraciesInStore::degenerating))]
fn is_degeneracy_once(
    alloc: Global,
    store: &mut Store,
    kept: &mut DegeneracyKept,
    dim: usize,
    f: Map,
) -> Result<bool, AllocError>
    requires valid { IsValidMap store.old f }
    requires dim { dim ≡ dimension_of (arrow_at store.old f.arrow) }
    requires kept { AreDegeneracies store.old kept.old }
    requires store { IsStore store.old }
    ensures { Decides store.old store.new kept.new (IsDegeneracyMap store.old f) result }
{
    if kept.has(&f) {
        return Ok(true);
    }
    if !has_shape(alloc, store, kept, dim, f)? {
        return Ok(false);
    }
    kept.keep(&f)?;
    Ok(true)
}

/// Whether a map that is not kept is a degeneracy, by its shape.
#[cycle(degeneracies)]
#[tactic(auto, using(crate::proofs::DegeneraciesInStore::degenerating))]
fn has_shape(
    alloc: Global,
    store: &mut Store,
    kept: &mut DegeneracyKept,
    dim: usize,
    f: Map,
) -> Result<bool, AllocError>
    requires valid { IsValidMap store.old f }
    requires dim { dim ≡ dimension_of (arrow_at store.old f.arrow) }
    requires kept { AreDegeneracies store.old kept.old }
    requires store { IsStore store.old }
    ensures { Decides store.old store.new kept.new (IsDegeneracyMap store.old f) result }
{
    if dim == 0 {
        return Ok(has_equal_ends(store, f.arrow));
    }
    if !rises(store, f.arrow) {
        return Ok(false);
    }
    if !regs_are_degeneracies(alloc, store, kept, dim, f)? {
        return Ok(false);
    }
    if !sings_are_degeneracies(alloc, store, kept, dim, f)? {
        return Ok(false);
    }
    missed_are_degeneracies(alloc, store, kept, dim, f)
}

/// Whether an arrow of dimension 0 goes from a label to the same label.
fn has_equal_ends(store: &Store, a: ArrowId) -> bool
    requires of_store { IsArrowOf store.now a }
    requires zero { dimension_of (arrow_at store.now a) ≡ 0 }
    ensures { IsTrue result ↔ (from_at (arrow_at store.now a) ≡ to_at (arrow_at store.now a)) }
{
    let (from, to) = store.pair(a);
    from == to
}

/// Whether each height of an arrow is below the next one.
fn rises(store: &Store, a: ArrowId) -> bool
    requires of_store { IsArrowOf store.now a }
    requires above { 0 < dimension_of (arrow_at store.now a) }
    ensures { IsTrue result ↔ IsIncreasing (heights (arrow_at store.now a)) }
{
    for i in 1..store.source_len(a) {
        if store.height(a, i) <= store.height(a, i - 1) {
            return false;
        }
    }
    true
}

/// Whether the regular slices of a map are degeneracies.
#[cycle(degeneracies)]
#[tactic(auto, using(crate::proofs::DegeneraciesInStore::degenerating))]
fn regs_are_degeneracies(
    alloc: Global,
    store: &mut Store,
    kept: &mut DegeneracyKept,
    dim: usize,
    f: Map,
) -> Result<bool, AllocError>
    requires valid { IsValidMap store.old f }
    requires dim { dim ≡ dimension_of (arrow_at store.old f.arrow) }
    requires above { 0 < dim }
    requires kept { AreDegeneracies store.old kept.old }
    requires store { IsStore store.old }
    ensures { Decides store.old store.new kept.new (HasDegenerateRegs (diagram_at store.old f.source)
        (diagram_at store.old f.target) (arrow_at store.old f.arrow)) result }
{
    for k in 0..store.regs_len(f.arrow) {
        let slice = reg_slice(store, f, k);
        if !is_degeneracy_once(alloc, store, kept, dim - 1, slice)? {
            return Ok(false);
        }
    }
    Ok(true)
}

/// Whether the singular slices of a map are degeneracies.
#[cycle(degeneracies)]
#[tactic(auto, using(crate::proofs::DegeneraciesInStore::degenerating))]
fn sings_are_degeneracies(
    alloc: Global,
    store: &mut Store,
    kept: &mut DegeneracyKept,
    dim: usize,
    f: Map,
) -> Result<bool, AllocError>
    requires valid { IsValidMap store.old f }
    requires dim { dim ≡ dimension_of (arrow_at store.old f.arrow) }
    requires above { 0 < dim }
    requires kept { AreDegeneracies store.old kept.old }
    requires store { IsStore store.old }
    ensures { Decides store.old store.new kept.new (HasDegenerateSings (diagram_at store.old f.source)
        (diagram_at store.old f.target) (arrow_at store.old f.arrow)) result }
{
    for i in 0..store.source_len(f.arrow) {
        let slice = sing_slice(store, f, i);
        if !is_degeneracy_once(alloc, store, kept, dim - 1, slice)? {
            return Ok(false);
        }
    }
    Ok(true)
}

/// Whether the composites into the singular slices at the heights to which none goes are
/// degeneracies.
#[cycle(degeneracies)]
#[tactic(auto, using(crate::proofs::DegeneraciesInStore::degenerating))]
fn missed_are_degeneracies(
    alloc: Global,
    store: &mut Store,
    kept: &mut DegeneracyKept,
    dim: usize,
    f: Map,
) -> Result<bool, AllocError>
    requires valid { IsValidMap store.old f }
    requires dim { dim ≡ dimension_of (arrow_at store.old f.arrow) }
    requires above { 0 < dim }
    requires kept { AreDegeneracies store.old kept.old }
    requires store { IsStore store.old }
    ensures { Decides store.old store.new kept.new (HasDegenerateMissed (diagram_at store.old f.source)
        (diagram_at store.old f.target) (arrow_at store.old f.arrow)) result }
{
    for k in 0..store.length(f.target) {
        if !edges_are_degeneracies(alloc, store, kept, dim, f, k, k + 1)? {
            return Ok(false);
        }
    }
    Ok(true)
}

/// Whether the two composites into the singular slice at `k` of the target are degeneracies, where
/// no height goes to `k`.
#[cycle(degeneracies)]
#[tactic(auto, using(crate::proofs::DegeneraciesInStore::degenerating))]
fn edges_are_degeneracies(
    alloc: Global,
    store: &mut Store,
    kept: &mut DegeneracyKept,
    dim: usize,
    f: Map,
    k: usize,
    next: usize,
) -> Result<bool, AllocError>
    requires valid { IsValidMap store.old f }
    requires dim { dim ≡ dimension_of (arrow_at store.old f.arrow) }
    requires above { 0 < dim }
    requires within { k < length (sings (diagram_at store.old f.target)) }
    requires next { next ≡ suc k }
    requires kept { AreDegeneracies store.old kept.old }
    requires store { IsStore store.old }
    ensures { Decides store.old store.new kept.new (IsDegenerateWhereMissed (diagram_at store.old f.source)
        (diagram_at store.old f.target) (arrow_at store.old f.arrow) k) result }
{
    let first = dual_of(store, f.arrow, k);
    if first != dual_from(store, f.arrow, first, next) {
        return Ok(true);
    }
    let fwd = fwd_map(store, f.target, k);
    let bwd = bwd_map(store, f.target, k);
    let before = reg_slice(store, f, k);
    let behind = reg_slice(store, f, next);
    if !edge_is_degeneracy(alloc, store, kept, dim - 1, fwd, before)? {
        return Ok(false);
    }
    edge_is_degeneracy(alloc, store, kept, dim - 1, bwd, behind)
}

/// Whether the composite of a leg after a slice is a degeneracy.
#[cycle(degeneracies)]
#[tactic(auto, using(crate::proofs::DegeneraciesInStore::degenerating))]
fn edge_is_degeneracy(
    alloc: Global,
    store: &mut Store,
    kept: &mut DegeneracyKept,
    dim: usize,
    leg: Map,
    slice: Map,
) -> Result<bool, AllocError>
    requires outer { IsValidMap store.old leg }
    requires inner { IsValidMap store.old slice }
    requires meet { diagram_at store.old slice.target ≡ diagram_at store.old leg.source }
    requires dim { dim ≡ dimension_of (arrow_at store.old slice.arrow) }
    requires kept { AreDegeneracies store.old kept.old }
    requires store { IsStore store.old }
    ensures { Decides store.old store.new kept.new (IsDegeneracyTree (diagram_at store.old slice.source)
        (diagram_at store.old leg.target) (composite_tree (arrow_at store.old leg.arrow) (arrow_at store.old slice.arrow))) result }
{
    let edge = compose(alloc, store, leg, slice)?;
    is_degeneracy_once(alloc, store, kept, dim, edge)
}
