ghost use Rattle.std.specs.Prelude.{◌≡◌, ◌+◌, ◌<◌, length, slice_index};
ghost use Rattle.diagram_terms.specs.Dimension.{dimension_of};
ghost use Rattle.diagram_terms.specs.Dual.{dual};
ghost use Rattle.diagram_terms.specs.Shape.{bwd_at, fwd_at, reg_at, sing_at};
ghost use Rattle.diagram_terms.specs.Tree.{heights, regs, sings};
ghost use Rattle.hashcons.specs.Contents.{IsArrowOf, arrow_at, diagram_at};
ghost use Rattle.zigzag_maps.specs.Found.{IsValidDiagram, IsValidMap};
ghost use Rattle.zigzag_maps.specs.MapTrees.{IsMapWith};

use crate::map::Map;
use hashcons::{ArrowId, DiagramId, Store};

/// How many heights of an arrow are below `k`: the dual of its heights at `k`.
pub fn dual_of(store: &Store, a: ArrowId, k: usize) -> usize
    requires of_store { IsArrowOf store.now a }
    requires above { 0 < dimension_of (arrow_at store.now a) }
    ensures { result ≡ dual (heights (arrow_at store.now a)) k }
{
    let mut low = 0;
    let mut high = store.source_len(a);
    while low < high {
        let middle = low + (high - low) / 2;
        if store.height(a, middle) < k {
            low = middle + 1;
        } else {
            high = middle;
        }
    }
    low
}

/// The regular slice of a map at the regular height `k` of its target.
pub fn reg_slice(store: &Store, f: Map, k: usize) -> Map
    requires valid { IsValidMap store.now f }
    requires above { 0 < dimension_of (arrow_at store.now f.arrow) }
    requires within { k < length (regs (arrow_at store.now f.arrow)) }
    ensures valid { IsValidMap store.now result }
    ensures is { IsMapWith store.now (reg_at (diagram_at store.now f.source) (dual (heights (arrow_at store.now f.arrow)) k))
        (reg_at (diagram_at store.now f.target) k) (reg_at (arrow_at store.now f.arrow) k) result }
{
    Map {
        source: store.reg(f.source, dual_of(store, f.arrow, k)),
        target: store.reg(f.target, k),
        arrow: store.arrow_reg(f.arrow, k),
    }
}

/// The singular slice of a map at the height `i` of its source.
pub fn sing_slice(store: &Store, f: Map, i: usize) -> Map
    requires valid { IsValidMap store.now f }
    requires above { 0 < dimension_of (arrow_at store.now f.arrow) }
    requires within { i < length (heights (arrow_at store.now f.arrow)) }
    ensures valid { IsValidMap store.now result }
    ensures is { IsMapWith store.now (sing_at (diagram_at store.now f.source) i)
        (sing_at (diagram_at store.now f.target) (slice_index (heights (arrow_at store.now f.arrow)) i))
        (sing_at (arrow_at store.now f.arrow) i) result }
{
    Map {
        source: store.sing(f.source, i),
        target: store.sing(f.target, store.height(f.arrow, i)),
        arrow: store.arrow_sing(f.arrow, i),
    }
}

/// The leg forward of a diagram at the height `k`, from the regular slice before it.
pub fn fwd_map(store: &Store, d: DiagramId, k: usize) -> Map
    requires valid { IsValidDiagram store.now d }
    requires above { 0 < dimension_of (diagram_at store.now d) }
    requires within { k < length (sings (diagram_at store.now d)) }
    ensures valid { IsValidMap store.now result }
    ensures is { IsMapWith store.now (reg_at (diagram_at store.now d) k)
        (sing_at (diagram_at store.now d) k) (fwd_at (diagram_at store.now d) k) result }
{
    Map {
        source: store.reg(d, k),
        target: store.sing(d, k),
        arrow: store.fwd(d, k),
    }
}

/// The leg backward of a diagram at the height `k`, from the regular slice behind it.
pub fn bwd_map(store: &Store, d: DiagramId, k: usize) -> Map
    requires valid { IsValidDiagram store.now d }
    requires above { 0 < dimension_of (diagram_at store.now d) }
    requires within { k < length (sings (diagram_at store.now d)) }
    requires fits { k < usize.MAX }
    ensures valid { IsValidMap store.now result }
    ensures is { IsMapWith store.now (reg_at (diagram_at store.now d) (k + 1))
        (sing_at (diagram_at store.now d) k) (bwd_at (diagram_at store.now d) k) result }
{
    Map {
        source: store.reg(d, k + 1),
        target: store.sing(d, k),
        arrow: store.bwd(d, k),
    }
}
