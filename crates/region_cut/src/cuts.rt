ghost use Rattle.std.specs.Prelude.{◌≡◌, IfOk};
ghost use Rattle.hashcons.specs.Contents.{arrow_at, diagram_at};
ghost use Rattle.hashcons.specs.Made.{MakesDiagram};
ghost use Rattle.zigzag_maps.specs.Found.{IsValidDiagram, IsValidMap, MakesMap};
ghost use Rattle.region_cut.specs.CutTrees.{cut_arrow_tree, cut_diagram_tree, cut_source_tree};
ghost use Rattle.region_cut.specs.RegionValues.{IsClosedIn};

use crate::arrows::arrow_cut;
use crate::diagrams::diagram_cut;
use crate::preimages::preimage;
use crate::region::Region;
use hashcons::{AnyId, DiagramId, Store};
use std::alloc::{AllocError, Global};
use zigzag_maps::Map;

/// The cut of a diagram at a closed region of it.
pub fn cut_diagram(
    alloc: Global,
    store: &mut Store,
    d: DiagramId,
    region: &Region,
) -> Result<DiagramId, AllocError>
    requires valid { IsValidDiagram store.old d }
    requires closed { IsClosedIn (diagram_at store.old d) region.now }
    ensures made { MakesDiagram store.old store.new (cut_diagram_tree (diagram_at store.old d) region.now) result }
    ensures valid { IfOk result (IsValidDiagram store.new) }
{
    let dim = store.dim(AnyId::Diagram(d));
    diagram_cut(alloc, store, dim, d, region)
}

/// The cut of a map at a closed region of its target: from the cut of its source at the preimage to
/// the cut of its target.
#[tactic(auto, using(crate::proofs::CutSteps::growing))]
pub fn cut_arrow(
    alloc: Global,
    store: &mut Store,
    f: Map,
    region: &Region,
) -> Result<Map, AllocError>
    requires map { IsValidMap store.old f }
    requires closed { IsClosedIn (diagram_at store.old f.target) region.now }
    ensures source { IfOk result (λ m. diagram_at store.new m.source
        ≡ cut_source_tree (diagram_at store.old f.source) (arrow_at store.old f.arrow) region.now) }
    ensures target { IfOk result (λ m. diagram_at store.new m.target
        ≡ cut_diagram_tree (diagram_at store.old f.target) region.now) }
    ensures made { MakesMap store.old store.new (cut_arrow_tree (arrow_at store.old f.arrow) region.now) result }
    ensures valid { IfOk result (IsValidMap store.new) }
{
    let Map {
        source: from,
        target: to,
        arrow: along,
    } = f;
    let pulled = preimage(alloc, store, f, region)?;
    let source = cut_diagram(alloc, store, from, &pulled)?;
    let target = cut_diagram(alloc, store, to, region)?;
    let dim = store.dim(AnyId::Arrow(along));
    let arrow = arrow_cut(alloc, store, dim, along, region)?;
    Ok(Map {
        source,
        target,
        arrow,
    })
}
