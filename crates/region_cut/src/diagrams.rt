ghost use Rattle.std.specs.Prelude.{◌≡◌, ◌+◌, ◌-◌, suc};
ghost use Rattle.diagram_terms.specs.Decoded.{arr_tree, dia, dia_tree};
ghost use Rattle.hashcons.specs.Contents.{IsDiagramOf, IsStore, diagram_at};
ghost use Rattle.hashcons.specs.Made.{MakesArrows, MakesDiagram};
ghost use Rattle.diagram_terms.specs.Cuts.{cut_diagram};
ghost use Rattle.region_cut.specs.OverRegions.{HasRegion};
ghost use Rattle.region_cut.specs.CutTrees.{MakesDiagrams, cut_bwd, cut_fwd, cut_reg, cut_sing};
ghost use Rattle.region_cut.specs.RegionValues.{region_of};

use crate::arrows::arrow_cut;
use crate::region::Region;
use hashcons::{ArrowId, DiagramId, DiagramNode, Store};
use smallvec::SmallVec;
use std::alloc::{AllocError, Global};

/// The cut of a diagram of dimension `dim`.
#[cycle(diagrams)]
#[tactic(auto, using(crate::proofs::CutSteps::growing))]
pub(crate) fn diagram_cut(
    alloc: Global,
    store: &mut Store,
    dim: usize,
    d: DiagramId,
    region: &Region,
) -> Result<DiagramId, AllocError>
    requires of_store { IsDiagramOf store.old d }
    requires store { IsStore store.old }
    requires has { HasRegion dim (diagram_at store.old d) (region_of dim region.now) }
    ensures { MakesDiagram store.old store.new
        (dia_tree dim (cut_diagram dim (dia dim (diagram_at store.old d)) (region_of dim region.now))) result }
{
    if dim == 0 {
        return Ok(d);
    }
    zig_cut(alloc, store, dim - 1, d, region)
}

/// The cut of a diagram that has slices, of dimension `below`.
#[cycle(diagrams)]
#[tactic(auto, using(crate::proofs::CutSteps::growing))]
fn zig_cut(
    alloc: Global,
    store: &mut Store,
    below: usize,
    d: DiagramId,
    region: &Region,
) -> Result<DiagramId, AllocError>
    requires of_store { IsDiagramOf store.old d }
    requires store { IsStore store.old }
    requires has { HasRegion (suc below) (diagram_at store.old d) (region_of (suc below) region.now) }
    ensures { MakesDiagram store.old store.new
        (dia_tree (suc below) (cut_diagram (suc below) (dia (suc below) (diagram_at store.old d)) (region_of (suc below) region.now))) result }
{
    let regs = cut_regs(alloc, store, below, d, region)?;
    let sings = cut_sings(alloc, store, below, d, region)?;
    let fwds = cut_fwds(alloc, store, below, d, region)?;
    let bwds = cut_bwds(alloc, store, below, d, region)?;
    store.put_diagram(DiagramNode::Zig {
        regs,
        sings,
        fwds,
        bwds,
    })
}

/// The cuts of the regular slices that are kept.
#[cycle(diagrams)]
#[tactic(auto, using(crate::proofs::CutSteps::growing))]
fn cut_regs(
    alloc: Global,
    store: &mut Store,
    below: usize,
    d: DiagramId,
    region: &Region,
) -> Result<SmallVec<DiagramId, 4>, AllocError>
    requires of_store { IsDiagramOf store.old d }
    requires store { IsStore store.old }
    requires has { HasRegion (suc below) (diagram_at store.old d) (region_of (suc below) region.now) }
    ensures { MakesDiagrams store.old store.new
        (suc ((region_of (suc below) region.now).to - (region_of (suc below) region.now).from))
        (λ j. dia_tree below (cut_reg below (diagram_at store.old d) (region_of (suc below) region.now)
        ((region_of (suc below) region.now).from + j))) result }
{
    let mut ids = SmallVec::new(alloc);
    let from = region.from();
    let inner = region.regs();
    let head = store.reg(d, from);
    ids.push(diagram_cut(alloc, store, below, head, &inner[0])?)?;
    for j in 0..region.to() - from {
        let slice = store.reg(d, from + (j + 1));
        ids.push(diagram_cut(alloc, store, below, slice, &inner[j + 1])?)?;
    }
    Ok(ids)
}

/// The cuts of the singular slices that are kept.
#[cycle(diagrams)]
#[tactic(auto, using(crate::proofs::CutSteps::growing))]
fn cut_sings(
    alloc: Global,
    store: &mut Store,
    below: usize,
    d: DiagramId,
    region: &Region,
) -> Result<SmallVec<DiagramId, 4>, AllocError>
    requires of_store { IsDiagramOf store.old d }
    requires store { IsStore store.old }
    requires has { HasRegion (suc below) (diagram_at store.old d) (region_of (suc below) region.now) }
    ensures { MakesDiagrams store.old store.new
        ((region_of (suc below) region.now).to - (region_of (suc below) region.now).from)
        (λ i. dia_tree below (cut_sing below (diagram_at store.old d) (region_of (suc below) region.now)
        ((region_of (suc below) region.now).from + i))) result }
{
    let mut ids = SmallVec::new(alloc);
    let from = region.from();
    let inner = region.sings();
    for i in 0..region.to() - from {
        let slice = store.sing(d, from + i);
        ids.push(diagram_cut(alloc, store, below, slice, &inner[i])?)?;
    }
    Ok(ids)
}

/// The cuts of the legs forward that are kept.
#[tactic(auto, using(crate::proofs::CutSteps::growing))]
fn cut_fwds(
    alloc: Global,
    store: &mut Store,
    below: usize,
    d: DiagramId,
    region: &Region,
) -> Result<SmallVec<ArrowId, 4>, AllocError>
    requires of_store { IsDiagramOf store.old d }
    requires store { IsStore store.old }
    requires has { HasRegion (suc below) (diagram_at store.old d) (region_of (suc below) region.now) }
    ensures { MakesArrows store.old store.new
        ((region_of (suc below) region.now).to - (region_of (suc below) region.now).from)
        (λ k. arr_tree below (cut_fwd below (diagram_at store.old d) (region_of (suc below) region.now)
        ((region_of (suc below) region.now).from + k))) result }
{
    let mut ids = SmallVec::new(alloc);
    let from = region.from();
    let inner = region.sings();
    for k in 0..region.to() - from {
        let leg = store.fwd(d, from + k);
        ids.push(arrow_cut(alloc, store, below, leg, &inner[k])?)?;
    }
    Ok(ids)
}

/// The cuts of the legs backward that are kept.
#[tactic(auto, using(crate::proofs::CutSteps::growing))]
fn cut_bwds(
    alloc: Global,
    store: &mut Store,
    below: usize,
    d: DiagramId,
    region: &Region,
) -> Result<SmallVec<ArrowId, 4>, AllocError>
    requires of_store { IsDiagramOf store.old d }
    requires store { IsStore store.old }
    requires has { HasRegion (suc below) (diagram_at store.old d) (region_of (suc below) region.now) }
    ensures { MakesArrows store.old store.new
        ((region_of (suc below) region.now).to - (region_of (suc below) region.now).from)
        (λ k. arr_tree below (cut_bwd below (diagram_at store.old d) (region_of (suc below) region.now)
        ((region_of (suc below) region.now).from + k))) result }
{
    let mut ids = SmallVec::new(alloc);
    let from = region.from();
    let inner = region.sings();
    for k in 0..region.to() - from {
        let leg = store.bwd(d, from + k);
        ids.push(arrow_cut(alloc, store, below, leg, &inner[k])?)?;
    }
    Ok(ids)
}
