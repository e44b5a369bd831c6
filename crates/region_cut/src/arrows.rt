ghost use Rattle.std.specs.Prelude.{◌≡◌, ◌+◌, ◌-◌, IfOk, suc};
ghost use Rattle.diagram_terms.specs.Decoded.{arr, arr_tree};
ghost use Rattle.diagram_terms.specs.Dual.{dual};
ghost use Rattle.diagram_terms.specs.Tree.{heights};
ghost use Rattle.hashcons.specs.Contents.{IsArrowOf, IsStore, arrow_at};
ghost use Rattle.hashcons.specs.Made.{MakesArrow, MakesArrows};
ghost use Rattle.diagram_terms.specs.Cuts.{cut_arrow};
ghost use Rattle.diagram_terms.specs.Regions.{tab_from};
ghost use Rattle.region_cut.specs.OverRegions.{IsOverSome};
ghost use Rattle.region_cut.specs.CutTrees.{cut_arrow_reg, cut_arrow_sing, cut_height};
ghost use Rattle.region_cut.specs.RegionValues.{region_of};

use crate::region::Region;
use hashcons::{ArrowId, ArrowNode, Store};
use smallvec::SmallVec;
use std::alloc::{AllocError, Global};
use zigzag_maps::dual_of;

/// The cut of an arrow of dimension `dim`.
#[cycle(arrows)]
#[tactic(auto, using(crate::proofs::CutSteps::growing))]
pub(crate) fn arrow_cut(
    alloc: Global,
    store: &mut Store,
    dim: usize,
    f: ArrowId,
    region: &Region,
) -> Result<ArrowId, AllocError>
    requires of_store { IsArrowOf store.old f }
    requires store { IsStore store.old }
    requires over { IsOverSome dim (arrow_at store.old f) (region_of dim region.now) }
    ensures { MakesArrow store.old store.new
        (arr_tree dim (cut_arrow dim (arr dim (arrow_at store.old f)) (region_of dim region.now))) result }
{
    if dim == 0 {
        return Ok(f);
    }
    zag_cut(alloc, store, dim - 1, f, region)
}

/// The cut of an arrow that has slices, of dimension `below`.
#[cycle(arrows)]
#[tactic(auto, using(crate::proofs::CutSteps::growing))]
fn zag_cut(
    alloc: Global,
    store: &mut Store,
    below: usize,
    f: ArrowId,
    region: &Region,
) -> Result<ArrowId, AllocError>
    requires of_store { IsArrowOf store.old f }
    requires store { IsStore store.old }
    requires over { IsOverSome (suc below) (arrow_at store.old f) (region_of (suc below) region.now) }
    ensures { MakesArrow store.old store.new
        (arr_tree (suc below) (cut_arrow (suc below) (arr (suc below) (arrow_at store.old f)) (region_of (suc below) region.now))) result }
{
    let first = dual_of(store, f, region.from());
    let last = dual_of(store, f, region.to());
    let heights = cut_heights(alloc, store, below, f, region, first, last)?;
    let regs = cut_arrow_regs(alloc, store, below, f, region)?;
    let sings = cut_arrow_sings(alloc, store, below, f, region, first, last)?;
    store.put_arrow(ArrowNode::Zig {
        heights,
        regs,
        sings,
    })
}

/// Where the heights from `first` on, below `last`, go, counted from the first height that is kept.
#[tactic(auto, using(crate::proofs::CutSteps::growing))]
fn cut_heights(
    alloc: Global,
    store: &Store,
    below: usize,
    f: ArrowId,
    region: &Region,
    first: usize,
    last: usize,
) -> Result<SmallVec<usize, 4>, AllocError>
    requires of_store { IsArrowOf store.now f }
    requires over { IsOverSome (suc below) (arrow_at store.now f) (region_of (suc below) region.now) }
    requires first { first ≡ dual (heights (arrow_at store.now f)) (region_of (suc below) region.now).from }
    requires last { last ≡ dual (heights (arrow_at store.now f)) (region_of (suc below) region.now).to }
    ensures { IfOk result (λ hs. hs.items
        ≡ tab_from (cut_height below (arrow_at store.now f) (region_of (suc below) region.now)) first (last - first)) }
{
    let mut heights = SmallVec::new(alloc);
    let from = region.from();
    for i in 0..last - first {
        heights.push(store.height(f, first + i) - from)?;
    }
    Ok(heights)
}

/// The cuts of the regular slices that are kept.
#[cycle(arrows)]
#[tactic(auto, using(crate::proofs::CutSteps::growing))]
fn cut_arrow_regs(
    alloc: Global,
    store: &mut Store,
    below: usize,
    f: ArrowId,
    region: &Region,
) -> Result<SmallVec<ArrowId, 4>, AllocError>
    requires of_store { IsArrowOf store.old f }
    requires store { IsStore store.old }
    requires over { IsOverSome (suc below) (arrow_at store.old f) (region_of (suc below) region.now) }
    ensures { MakesArrows store.old store.new
        (suc ((region_of (suc below) region.now).to - (region_of (suc below) region.now).from))
        (λ j. arr_tree below (cut_arrow_reg below (arrow_at store.old f) (region_of (suc below) region.now)
        ((region_of (suc below) region.now).from + j))) result }
{
    let mut ids = SmallVec::new(alloc);
    let from = region.from();
    let inner = region.regs();
    let head = store.arrow_reg(f, from);
    ids.push(arrow_cut(alloc, store, below, head, &inner[0])?)?;
    for j in 0..region.to() - from {
        let slice = store.arrow_reg(f, from + (j + 1));
        ids.push(arrow_cut(alloc, store, below, slice, &inner[j + 1])?)?;
    }
    Ok(ids)
}

/// The cuts of the singular slices from `first` on, below `last`.
#[cycle(arrows)]
#[tactic(auto, using(crate::proofs::CutSteps::growing))]
fn cut_arrow_sings(
    alloc: Global,
    store: &mut Store,
    below: usize,
    f: ArrowId,
    region: &Region,
    first: usize,
    last: usize,
) -> Result<SmallVec<ArrowId, 4>, AllocError>
    requires of_store { IsArrowOf store.old f }
    requires store { IsStore store.old }
    requires over { IsOverSome (suc below) (arrow_at store.old f) (region_of (suc below) region.now) }
    requires first { first ≡ dual (heights (arrow_at store.old f)) (region_of (suc below) region.now).from }
    requires last { last ≡ dual (heights (arrow_at store.old f)) (region_of (suc below) region.now).to }
    ensures { MakesArrows store.old store.new (last - first)
        (λ i. arr_tree below (cut_arrow_sing below (arrow_at store.old f) (region_of (suc below) region.now) (first + i))) result }
{
    let mut ids = SmallVec::new(alloc);
    let from = region.from();
    let inner = region.sings();
    for i in 0..last - first {
        let slice = store.arrow_sing(f, first + i);
        let at = store.height(f, first + i) - from;
        ids.push(arrow_cut(alloc, store, below, slice, &inner[at])?)?;
    }
    Ok(ids)
}
