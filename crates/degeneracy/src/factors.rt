ghost use Rattle.std.specs.Prelude.{◌≡◌, ◌+◌, ◌<◌, ◌↔◌, ℕ, IfOk, IfSome, IsTrue, None, length, map, List};
ghost use Rattle.diagram_terms.specs.Dimension.{dimension_of};
ghost use Rattle.diagram_terms.specs.Dual.{dual};
ghost use Rattle.diagram_terms.specs.Tree.{Tree, heights, regs, sings};
ghost use Rattle.hashcons.specs.Contents.{Grows, IsArrowOf, IsStore, arrow_at};
ghost use Rattle.zigzag_maps.specs.Found.{IsValidMap};
ghost use Rattle.degeneracy.specs.FoundFactors.{FoundIf, AreArrowsFound, IsFactorFound};
ghost use Rattle.degeneracy.specs.DegeneracyTrees.{IsDegeneracyMap, IsFactorArrow, IsFactorMap};
ghost use Rattle.degeneracy.specs.FactorKeeps.{AreFactors, Finds};
ghost use Rattle.degeneracy.specs.FactorTrees.{AreIntoOne, are_hit, regs_factor, sings_factor, reg_factor, sing_factor, slices_over};

use crate::factor_kept::FactorKept;
use hashcons::{AnyId, ArrowId, ArrowNode, Store};
use smallvec::SmallVec;
use std::alloc::{AllocError, Global};
use zigzag_maps::{Map, dual_from};

/// The one map `g` after which `e` is `f`, and none exactly where there is none. That there is one at
/// most is a law (`degeneracies_are_mono` of `degeneracy_laws`).
pub fn factor(alloc: Global, store: &mut Store, f: Map, e: Map) -> Result<Option<Map>, AllocError>
    requires valid { IsValidMap store.old f }
    requires through { IsValidMap store.old e }
    requires meet { f.target ≡ e.target }
    requires degeneracy { IsDegeneracyMap store.old e }
    ensures grows { Grows store.old store.new }
    ensures some { IfOk result (λ found. IfSome found (IsFactorMap store.new f e)) }
    ensures none { IfOk result (λ found. (found ≡ None) ↔ ((g : Tree) → IsFactorArrow store.old f e g → ⊥)) }
{
    let dim = store.dim(AnyId::Arrow(f.arrow));
    let mut kept = FactorKept::new(alloc);
    let Some(arrow) = factor_once(alloc, store, &mut kept, dim, e.arrow, f.arrow)? else {
        return Ok(None);
    };
    Ok(Some(Map {
        source: f.source,
        target: e.source,
        arrow,
    }))
}

/// The factor of `f` through `e`, arrows of dimension `dim`, where each pair is worked out once.
#[cycle(factors)]
#[tactic(auto, using(crate::proofs::FactorsInStore::factoring))]
pub(crate) fn factor_once(
    alloc: Global,
    store: &mut Store,
    kept: &mut FactorKept,
    dim: usize,
    e: ArrowId,
    f: ArrowId,
) -> Result<Option<ArrowId>, AllocError>
    requires outer { IsArrowOf store.old e }
    requires inner { IsArrowOf store.old f }
    requires dim { dim ≡ dimension_of (arrow_at store.old f) }
    requires meet { AreIntoOne (arrow_at store.old e) (arrow_at store.old f) }
    requires kept { AreFactors store.old kept.old }
    requires store { IsStore store.old }
    ensures { Finds store.old store.new kept.new
        (IsFactorFound store.new (arrow_at store.old e) (arrow_at store.old f)) result }
{
    if let Some(known) = kept.known(e, f) {
        return Ok(Some(known));
    }
    let Some(found) = factor_anew(alloc, store, kept, dim, e, f)? else {
        return Ok(None);
    };
    kept.keep(e, f, found)?;
    Ok(Some(found))
}

/// The factor that is not kept.
#[cycle(factors)]
#[tactic(auto, using(crate::proofs::FactorsInStore::factoring))]
fn factor_anew(
    alloc: Global,
    store: &mut Store,
    kept: &mut FactorKept,
    dim: usize,
    e: ArrowId,
    f: ArrowId,
) -> Result<Option<ArrowId>, AllocError>
    requires outer { IsArrowOf store.old e }
    requires inner { IsArrowOf store.old f }
    requires dim { dim ≡ dimension_of (arrow_at store.old f) }
    requires meet { AreIntoOne (arrow_at store.old e) (arrow_at store.old f) }
    requires kept { AreFactors store.old kept.old }
    requires store { IsStore store.old }
    ensures { Finds store.old store.new kept.new
        (IsFactorFound store.new (arrow_at store.old e) (arrow_at store.old f)) result }
{
    if dim == 0 {
        return factor_of_pairs(store, kept, e, f);
    }
    let Some(heights) = heights_between(alloc, store, e, f)? else {
        return Ok(None);
    };
    let Some(all) = regular_factors(alloc, store, kept, dim, e, f)? else {
        return Ok(None);
    };
    let Some(sings) = singular_factors(alloc, store, kept, dim, e, f, &heights)? else {
        return Ok(None);
    };
    let regs = regulars_over(alloc, store, e, &all)?;
    let arrow = store.put_arrow(ArrowNode::Zig {
        heights,
        regs,
        sings,
    })?;
    Ok(Some(arrow))
}

/// The factor of arrows of dimension 0: from the source of `f` to that of `e`.
fn factor_of_pairs(
    store: &mut Store,
    kept: &FactorKept,
    e: ArrowId,
    f: ArrowId,
) -> Result<Option<ArrowId>, AllocError>
    requires outer { IsArrowOf store.old e }
    requires inner { IsArrowOf store.old f }
    requires outer_zero { dimension_of (arrow_at store.old e) ≡ 0 }
    requires inner_zero { dimension_of (arrow_at store.old f) ≡ 0 }
    requires kept { AreFactors store.old kept.now }
    ensures { Finds store.old store.new kept.now
        (IsFactorFound store.new (arrow_at store.old e) (arrow_at store.old f)) result }
{
    let (from, _) = store.pair(f);
    let (to, _) = store.pair(e);
    let arrow = store.put_arrow(ArrowNode::Zero(from, to))?;
    Ok(Some(arrow))
}

/// The heights of `e` that go where those of `f` do, in order, or none where one is missing.
fn heights_between(
    alloc: Global,
    store: &Store,
    e: ArrowId,
    f: ArrowId,
) -> Result<Option<SmallVec<usize, 4>>, AllocError>
    requires outer { IsArrowOf store.now e }
    requires inner { IsArrowOf store.now f }
    requires outer_above { 0 < dimension_of (arrow_at store.now e) }
    requires inner_above { 0 < dimension_of (arrow_at store.now f) }
    ensures { IfOk result (FoundIf (are_hit (heights (arrow_at store.now e)) (heights (arrow_at store.now f)))
        (λ hs. hs.items ≡ map (dual (heights (arrow_at store.now e))) (heights (arrow_at store.now f)))) }
{
    let end = store.source_len(e);
    let mut heights = SmallVec::new(alloc);
    let mut at = 0;
    for i in 0..store.source_len(f) {
        let k = store.height(f, i);
        at = dual_from(store, e, at, k);
        if at == end || store.height(e, at) != k {
            return Ok(None);
        }
        heights.push(at)?;
    }
    Ok(Some(heights))
}

/// The factors of all regular slices, in order, or none where one has none.
#[cycle(factors)]
#[tactic(auto, using(crate::proofs::FactorsInStore::factoring))]
fn regular_factors(
    alloc: Global,
    store: &mut Store,
    kept: &mut FactorKept,
    dim: usize,
    e: ArrowId,
    f: ArrowId,
) -> Result<Option<SmallVec<ArrowId, 4>>, AllocError>
    requires outer { IsArrowOf store.old e }
    requires inner { IsArrowOf store.old f }
    requires dim { dim ≡ dimension_of (arrow_at store.old f) }
    requires above { 0 < dim }
    requires meet { AreIntoOne (arrow_at store.old e) (arrow_at store.old f) }
    requires kept { AreFactors store.old kept.old }
    requires store { IsStore store.old }
    ensures { Finds store.old store.new kept.new
        (AreArrowsFound store.new (regs_factor (arrow_at store.old e) (arrow_at store.old f))
        (length (regs (arrow_at store.old e))) (reg_factor (arrow_at store.old e) (arrow_at store.old f))) result }
{
    let mut ids = SmallVec::new(alloc);
    for k in 0..store.regs_len(e) {
        let outer = store.arrow_reg(e, k);
        let inner = store.arrow_reg(f, k);
        let Some(found) = factor_once(alloc, store, kept, dim - 1, outer, inner)? else {
            return Ok(None);
        };
        ids.push(found)?;
    }
    Ok(Some(ids))
}

/// The factors of the singular slices, in order, or none where one has none.
#[cycle(factors)]
#[tactic(auto, using(crate::proofs::FactorsInStore::factoring))]
fn singular_factors(
    alloc: Global,
    store: &mut Store,
    kept: &mut FactorKept,
    dim: usize,
    e: ArrowId,
    f: ArrowId,
    places: &SmallVec<usize, 4>,
) -> Result<Option<SmallVec<ArrowId, 4>>, AllocError>
    requires outer { IsArrowOf store.old e }
    requires inner { IsArrowOf store.old f }
    requires dim { dim ≡ dimension_of (arrow_at store.old f) }
    requires above { 0 < dim }
    requires meet { AreIntoOne (arrow_at store.old e) (arrow_at store.old f) }
    requires hit { IsTrue (are_hit (heights (arrow_at store.old e)) (heights (arrow_at store.old f))) }
    requires places { places.now.items ≡ map (dual (heights (arrow_at store.old e))) (heights (arrow_at store.old f)) }
    requires kept { AreFactors store.old kept.old }
    requires store { IsStore store.old }
    ensures { Finds store.old store.new kept.new
        (AreArrowsFound store.new (sings_factor (arrow_at store.old e) (arrow_at store.old f))
        (length (heights (arrow_at store.old f))) (sing_factor (arrow_at store.old e) (arrow_at store.old f))) result }
{
    let mut ids = SmallVec::new(alloc);
    for i in 0..store.source_len(f) {
        let outer = store.arrow_sing(e, places[i]);
        let inner = store.arrow_sing(f, i);
        let Some(found) = factor_once(alloc, store, kept, dim - 1, outer, inner)? else {
            return Ok(None);
        };
        ids.push(found)?;
    }
    Ok(Some(ids))
}

/// Those among the regular factors `all` that stand over the regular heights of the source of `e`.
fn regulars_over(
    alloc: Global,
    store: &Store,
    e: ArrowId,
    all: &SmallVec<ArrowId, 4>,
) -> Result<SmallVec<ArrowId, 4>, AllocError>
    requires outer { IsArrowOf store.now e }
    requires above { 0 < dimension_of (arrow_at store.now e) }
    requires len { length all.now.items ≡ length (regs (arrow_at store.now e)) }
    ensures { IfOk result (λ ids. ids.items ≡ slices_over (arrow_at store.now e) all.now.items) }
{
    let mut ids = SmallVec::new(alloc);
    for j in 0..store.source_len(e) {
        ids.push(all[store.height(e, j)])?;
    }
    ids.push(all[store.target_len(e)])?;
    Ok(ids)
}
