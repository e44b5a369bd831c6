ghost use Rattle.std.specs.Prelude.{◌≡◌, ◌+◌, ◌<◌, ◌≤◌, IfOk, length, slice_index, IsOk, IsSome, Some};
ghost use Rattle.diagram_terms.specs.Dimension.{dimension_of};
ghost use Rattle.diagram_terms.specs.Dual.{after, dual};
ghost use Rattle.diagram_terms.specs.Shape.{reg_at, sing_at};
ghost use Rattle.diagram_terms.specs.Tree.{heights, regs, sings};
ghost use Rattle.hashcons.specs.Contents.{IsArrowOf, IsStore, arrow_at, noted_composite};
ghost use Rattle.hashcons.specs.Made.{MakesArrow, MakesArrows};
ghost use Rattle.zigzag_maps.specs.Found.{IsValidMap, MakesMap};
ghost use Rattle.diagram_terms.specs.Operations.{composite_tree};
ghost use Rattle.diagram_terms.specs.ValidTrees.{AreComposable};

use crate::map::Map;
use crate::sharing::put_sharing;
use hashcons::{AnyId, ArrowId, ArrowNode, Store};
use smallvec::SmallVec;
use std::alloc::{AllocError, Global};

/// The composite of two maps: first `f`, and then `g`.
pub fn compose(alloc: Global, store: &mut Store, g: Map, f: Map) -> Result<Map, AllocError>
    requires outer { IsValidMap store.old g }
    requires inner { IsValidMap store.old f }
    requires meet { f.target ≡ g.source }
    ensures source { IfOk result (λ m. m.source ≡ f.source) }
    ensures target { IfOk result (λ m. m.target ≡ g.target) }
    ensures made { MakesMap store.old store.new
        (composite_tree (arrow_at store.old g.arrow) (arrow_at store.old f.arrow)) result }
    ensures valid { IfOk result (IsValidMap store.new) }
    ensures noted { IfOk result (λ m. noted_composite store.new g.arrow f.arrow ≡ Some m.arrow) }
    ensures known { IsSome (noted_composite store.old g.arrow f.arrow) → IsOk result × (store.new ≡ store.old) }
{
    let dim = store.dim(AnyId::Arrow(f.arrow));
    let arrow = composite(alloc, store, dim, g.arrow, f.arrow)?;
    Ok(Map {
        source: f.source,
        target: g.target,
        arrow,
    })
}

/// The composite of two arrows of dimension `dim`, worked out once.
#[cycle(composites)]
#[tactic(auto, using(crate::proofs::CompositeSlices::composes))]
pub(crate) fn composite(
    alloc: Global,
    store: &mut Store,
    dim: usize,
    g: ArrowId,
    f: ArrowId,
) -> Result<ArrowId, AllocError>
    requires outer { IsArrowOf store.old g }
    requires inner { IsArrowOf store.old f }
    requires dim { dim ≡ dimension_of (arrow_at store.old f) }
    requires composable { AreComposable (arrow_at store.old g) (arrow_at store.old f) }
    ensures made { MakesArrow store.old store.new
        (composite_tree (arrow_at store.old g) (arrow_at store.old f)) result }
    ensures noted { IfOk result (λ h. noted_composite store.new g f ≡ Some h) }
    ensures known { IsSome (noted_composite store.old g f) → IsOk result × (store.new ≡ store.old) }
{
    if let Some(known) = store.known_composite(g, f) {
        return Ok(known);
    }
    let arrow = composite_anew(alloc, store, dim, g, f)?;
    store.note_composite(g, f, arrow)?;
    Ok(arrow)
}

/// The composite of two arrows that is not noted.
#[cycle(composites)]
#[tactic(auto, using(crate::proofs::CompositeSlices::composes))]
fn composite_anew(
    alloc: Global,
    store: &mut Store,
    dim: usize,
    g: ArrowId,
    f: ArrowId,
) -> Result<ArrowId, AllocError>
    requires outer { IsArrowOf store.old g }
    requires inner { IsArrowOf store.old f }
    requires dim { dim ≡ dimension_of (arrow_at store.old f) }
    requires composable { AreComposable (arrow_at store.old g) (arrow_at store.old f) }
    requires store { IsStore store.old }
    ensures { MakesArrow store.old store.new
        (composite_tree (arrow_at store.old g) (arrow_at store.old f)) result }
{
    if dim == 0 {
        return composite_of_pairs(store, g, f);
    }
    let heights = composite_heights(alloc, store, g, f)?;
    let regs = regular_composites(alloc, store, dim, g, f)?;
    let sings = singular_composites(alloc, store, dim, g, f)?;
    // where both are plain, the regular slices are those of g
    put_sharing(store, g, heights, regs, sings)
}

/// The composite of two arrows of dimension 0: the pair of the first label and the last.
fn composite_of_pairs(store: &mut Store, g: ArrowId, f: ArrowId) -> Result<ArrowId, AllocError>
    requires outer { IsArrowOf store.old g }
    requires inner { IsArrowOf store.old f }
    requires outer_zero { dimension_of (arrow_at store.old g) ≡ 0 }
    requires inner_zero { dimension_of (arrow_at store.old f) ≡ 0 }
    ensures { MakesArrow store.old store.new
        (composite_tree (arrow_at store.old g) (arrow_at store.old f)) result }
{
    let (_, last) = store.pair(g);
    let (first, _) = store.pair(f);
    store.put_arrow(ArrowNode::Zero(first, last))
}

/// Where the composite sends the heights of its source.
#[tactic(auto, using(crate::proofs::CompositeSlices::composes))]
fn composite_heights(
    alloc: Global,
    store: &Store,
    g: ArrowId,
    f: ArrowId,
) -> Result<SmallVec<usize, 4>, AllocError>
    requires outer { IsArrowOf store.now g }
    requires inner { IsArrowOf store.now f }
    requires composable { AreComposable (arrow_at store.now g) (arrow_at store.now f) }
    requires above { 0 < dimension_of (arrow_at store.now f) }
    ensures { IfOk result (λ hs. hs.items ≡ after (heights (arrow_at store.now g)) (heights (arrow_at store.now f))) }
{
    let mut heights = SmallVec::new(alloc);
    for i in 0..store.source_len(f) {
        heights.push(store.height(g, store.height(f, i)))?;
    }
    Ok(heights)
}

/// The regular slices of a composite: those of `g`, each after that of `f` at its dual.
#[cycle(composites)]
#[tactic(auto, using(crate::proofs::CompositeSlices::composes))]
fn regular_composites(
    alloc: Global,
    store: &mut Store,
    dim: usize,
    g: ArrowId,
    f: ArrowId,
) -> Result<SmallVec<ArrowId, 4>, AllocError>
    requires outer { IsArrowOf store.old g }
    requires inner { IsArrowOf store.old f }
    requires composable { AreComposable (arrow_at store.old g) (arrow_at store.old f) }
    requires dim { dim ≡ dimension_of (arrow_at store.old f) }
    requires above { 0 < dim }
    requires store { IsStore store.old }
    ensures { MakesArrows store.old store.new (length (regs (arrow_at store.old g)))
        (λ k. composite_tree (reg_at (arrow_at store.old g) k)
        (reg_at (arrow_at store.old f) (dual (heights (arrow_at store.old g)) k))) result }
{
    let mut ids = SmallVec::new(alloc);
    let outer = store.arrow_reg(g, 0);
    let inner = store.arrow_reg(f, 0);
    ids.push(composite(alloc, store, dim - 1, outer, inner)?)?;
    let mut below = 0;
    for k in 0..store.target_len(g) {
        below = dual_from(store, g, below, k + 1);
        let outer = store.arrow_reg(g, k + 1);
        let inner = store.arrow_reg(f, below);
        ids.push(composite(alloc, store, dim - 1, outer, inner)?)?;
    }
    Ok(ids)
}

/// The singular slices of a composite: those of `f`, each before that of `g` at its height.
#[cycle(composites)]
#[tactic(auto, using(crate::proofs::CompositeSlices::composes))]
fn singular_composites(
    alloc: Global,
    store: &mut Store,
    dim: usize,
    g: ArrowId,
    f: ArrowId,
) -> Result<SmallVec<ArrowId, 4>, AllocError>
    requires outer { IsArrowOf store.old g }
    requires inner { IsArrowOf store.old f }
    requires composable { AreComposable (arrow_at store.old g) (arrow_at store.old f) }
    requires dim { dim ≡ dimension_of (arrow_at store.old f) }
    requires above { 0 < dim }
    requires store { IsStore store.old }
    ensures { MakesArrows store.old store.new (length (heights (arrow_at store.old f)))
        (λ i. composite_tree (sing_at (arrow_at store.old g) (slice_index (heights (arrow_at store.old f)) i))
        (sing_at (arrow_at store.old f) i)) result }
{
    let mut ids = SmallVec::new(alloc);
    for i in 0..store.source_len(f) {
        let outer = store.arrow_sing(g, store.height(f, i));
        let inner = store.arrow_sing(f, i);
        ids.push(composite(alloc, store, dim - 1, outer, inner)?)?;
    }
    Ok(ids)
}

/// The dual of an arrow's heights at `k`, where at least `from` of them are below `k`.
pub fn dual_from(store: &Store, a: ArrowId, from: usize, k: usize) -> usize
    requires of_store { IsArrowOf store.now a }
    requires above { 0 < dimension_of (arrow_at store.now a) }
    requires within { from ≤ dual (heights (arrow_at store.now a)) k }
    ensures { result ≡ dual (heights (arrow_at store.now a)) k }
{
    let end = store.source_len(a);
    let mut at = from;
    while at < end && store.height(a, at) < k {
        at += 1;
    }
    at
}
