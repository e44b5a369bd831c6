ghost use Rattle.std.specs.Prelude.{◌≡◌, ◌-◌, IfOk, suc};
ghost use Rattle.diagram_terms.specs.Decoded.{dia, arr};
ghost use Rattle.diagram_terms.specs.Dual.{dual};
ghost use Rattle.diagram_terms.specs.Shape.{IsDiagram};
ghost use Rattle.diagram_terms.specs.Tree.{heights};
ghost use Rattle.hashcons.specs.Contents.{IsArrowOf, IsDiagramOf, arrow_at, diagram_at};
ghost use Rattle.diagram_terms.specs.Preimages.{preimage as preimage_of, reg_preimage, sing_preimage};
ghost use Rattle.diagram_terms.specs.Regions.{tab_from};
ghost use Rattle.zigzag_maps.specs.Found.{IsValidMap};
ghost use Rattle.region_cut.specs.OverRegions.{IsOver};
ghost use Rattle.region_cut.specs.RegionValues.{AreRegionValues, IsClosedIn, IsPreimageOf, IsRegionValue, region_of};

use crate::region::Region;
use hashcons::{AnyId, ArrowId, DiagramId, Store};
use std::alloc::{AllocError, Global};
use zigzag_maps::{Map, dual_of};

/// The preimage under a map of a closed region of its target.
pub fn preimage(alloc: Global, store: &Store, f: Map, region: &Region) -> Result<Region, AllocError>
    requires map { IsValidMap store.now f }
    requires closed { IsClosedIn (diagram_at store.now f.target) region.now }
    ensures is { IfOk result (IsPreimageOf (diagram_at store.now f.source) (arrow_at store.now f.arrow) region.now) }
    ensures closed { IfOk result (IsClosedIn (diagram_at store.now f.source)) }
{
    let dim = store.dim(AnyId::Diagram(f.source));
    preimage_along(alloc, store, dim, f.source, f.arrow, region)
}

/// The preimage under an arrow of dimension `dim` out of `source`.
#[cycle(preimages)]
pub(crate) fn preimage_along(
    alloc: Global,
    store: &Store,
    dim: usize,
    source: DiagramId,
    f: ArrowId,
    region: &Region,
) -> Result<Region, AllocError>
    requires source { IsDiagramOf store.now source }
    requires arrow { IsArrowOf store.now f }
    requires shape { IsDiagram dim (diagram_at store.now source) }
    requires over { IsOver dim (dia dim (diagram_at store.now source)) (arrow_at store.now f) (region_of dim region.now) }
    ensures { IfOk result (IsRegionValue dim
        (preimage_of dim (dia dim (diagram_at store.now source)) (arr dim (arrow_at store.now f)) (region_of dim region.now))) }
{
    if dim == 0 {
        return Ok(Region::All);
    }
    let below = dim - 1;
    let first = dual_of(store, f, region.from());
    let last = dual_of(store, f, region.to());
    let sings = singular_preimages(alloc, store, below, source, f, region, first, last)?;
    let regs = regular_preimages(alloc, store, below, source, f, region, first, last, &sings)?;
    Ok(Region::Span {
        from: first,
        to: last,
        regs,
        sings,
    })
}

/// The preimages at the singular heights from `first` on, below `last`.
#[cycle(preimages)]
fn singular_preimages(
    alloc: Global,
    store: &Store,
    below: usize,
    source: DiagramId,
    f: ArrowId,
    region: &Region,
    first: usize,
    last: usize,
) -> Result<Vec<Region>, AllocError>
    requires source { IsDiagramOf store.now source }
    requires arrow { IsArrowOf store.now f }
    requires shape { IsDiagram (suc below) (diagram_at store.now source) }
    requires over { IsOver (suc below) (dia (suc below) (diagram_at store.now source)) (arrow_at store.now f) (region_of (suc below) region.now) }
    requires first { first ≡ dual (heights (arrow_at store.now f)) (region_of (suc below) region.now).from }
    requires last { last ≡ dual (heights (arrow_at store.now f)) (region_of (suc below) region.now).to }
    ensures { IfOk result (λ made. AreRegionValues below
        (tab_from (sing_preimage below (preimage_of below) (dia (suc below) (diagram_at store.now source))
        (arr (suc below) (arrow_at store.now f)) (region_of (suc below) region.now)) first (last - first)) made.items) }
{
    let mut made = Vec::new(alloc);
    let inner = region.sings();
    let from = region.from();
    for i in 0..last - first {
        let slice = store.sing(source, first + i);
        let arrow = store.arrow_sing(f, first + i);
        let at = store.height(f, first + i) - from;
        made.push(preimage_along(alloc, store, below, slice, arrow, &inner[at])?)?;
    }
    Ok(made)
}

/// The preimages at the regular heights from `first` to `last`, where `sings` are those at the
/// singular ones between: along the leg backward from a height after the first, along the leg
/// forward from the first, and under the regular slice of the arrow if that is the only one.
#[cycle(preimages)]
fn regular_preimages(
    alloc: Global,
    store: &Store,
    below: usize,
    source: DiagramId,
    f: ArrowId,
    region: &Region,
    first: usize,
    last: usize,
    sings: &[Region],
) -> Result<Vec<Region>, AllocError>
    requires source { IsDiagramOf store.now source }
    requires arrow { IsArrowOf store.now f }
    requires shape { IsDiagram (suc below) (diagram_at store.now source) }
    requires over { IsOver (suc below) (dia (suc below) (diagram_at store.now source)) (arrow_at store.now f) (region_of (suc below) region.now) }
    requires first { first ≡ dual (heights (arrow_at store.now f)) (region_of (suc below) region.now).from }
    requires last { last ≡ dual (heights (arrow_at store.now f)) (region_of (suc below) region.now).to }
    requires sings { AreRegionValues below
        (tab_from (sing_preimage below (preimage_of below) (dia (suc below) (diagram_at store.now source))
        (arr (suc below) (arrow_at store.now f)) (region_of (suc below) region.now)) first (last - first)) sings.now }
    ensures { IfOk result (λ made. AreRegionValues below
        (tab_from (reg_preimage below (preimage_of below) (dia (suc below) (diagram_at store.now source))
        (arr (suc below) (arrow_at store.now f)) (region_of (suc below) region.now)) first (suc (last - first))) made.items) }
{
    let mut made = Vec::new(alloc);
    made.push(first_preimage(alloc, store, below, source, f, region, first, last, sings)?)?;
    for i in 0..last - first {
        let slice = store.reg(source, first + i + 1);
        let leg = store.bwd(source, first + i);
        made.push(preimage_along(alloc, store, below, slice, leg, &sings[i])?)?;
    }
    Ok(made)
}

/// The preimage at the regular height `first`.
#[cycle(preimages)]
fn first_preimage(
    alloc: Global,
    store: &Store,
    below: usize,
    source: DiagramId,
    f: ArrowId,
    region: &Region,
    first: usize,
    last: usize,
    sings: &[Region],
) -> Result<Region, AllocError>
    requires source { IsDiagramOf store.now source }
    requires arrow { IsArrowOf store.now f }
    requires shape { IsDiagram (suc below) (diagram_at store.now source) }
    requires over { IsOver (suc below) (dia (suc below) (diagram_at store.now source)) (arrow_at store.now f) (region_of (suc below) region.now) }
    requires first { first ≡ dual (heights (arrow_at store.now f)) (region_of (suc below) region.now).from }
    requires last { last ≡ dual (heights (arrow_at store.now f)) (region_of (suc below) region.now).to }
    requires sings { AreRegionValues below
        (tab_from (sing_preimage below (preimage_of below) (dia (suc below) (diagram_at store.now source))
        (arr (suc below) (arrow_at store.now f)) (region_of (suc below) region.now)) first (last - first)) sings.now }
    ensures { IfOk result (IsRegionValue below
        (reg_preimage below (preimage_of below) (dia (suc below) (diagram_at store.now source))
        (arr (suc below) (arrow_at store.now f)) (region_of (suc below) region.now) first)) }
{
    let slice = store.reg(source, first);
    if first < last {
        let leg = store.fwd(source, first);
        return preimage_along(alloc, store, below, slice, leg, &sings[0]);
    }
    let arrow = store.arrow_reg(f, region.from());
    preimage_along(alloc, store, below, slice, arrow, &region.regs()[0])
}
