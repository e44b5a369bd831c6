ghost use Rattle.std.specs.Prelude.{◌≡◌, ◌+◌, ◌<◌, IfOk, length};
ghost use Rattle.diagram_terms.specs.Dimension.{dimension_of};
ghost use Rattle.diagram_terms.specs.Dual.{upto};
ghost use Rattle.diagram_terms.specs.Shape.{reg_at, sing_at};
ghost use Rattle.diagram_terms.specs.Tree.{sings};
ghost use Rattle.hashcons.specs.Contents.{IsDiagramOf, IsStore, diagram_at};
ghost use Rattle.hashcons.specs.Made.{MakesArrow, MakesArrows};
ghost use Rattle.zigzag_maps.specs.Found.{IsValidDiagram, IsValidMap, MakesMap};
ghost use Rattle.diagram_terms.specs.Operations.{identity_tree};

use crate::map::Map;
use hashcons::{AnyId, ArrowId, ArrowNode, DiagramId, Store};
use smallvec::SmallVec;
use std::alloc::{AllocError, Global};

/// The identity map of a diagram.
pub fn identity(alloc: Global, store: &mut Store, d: DiagramId) -> Result<Map, AllocError>
    requires of_store { IsDiagramOf store.old d }
    ensures source { IfOk result (λ m. m.source ≡ d) }
    ensures target { IfOk result (λ m. m.target ≡ d) }
    ensures made { MakesMap store.old store.new (identity_tree (diagram_at store.old d)) result }
    ensures valid { IsValidDiagram store.old d → IfOk result (IsValidMap store.new) }
{
    let dim = store.dim(AnyId::Diagram(d));
    let arrow = identity_arrow(alloc, store, dim, d)?;
    Ok(Map {
        source: d,
        target: d,
        arrow,
    })
}

/// The identity arrow of a diagram of dimension `dim`, worked out once.
#[cycle(identities)]
#[tactic(auto, using(crate::proofs::IdentitySlices::identifies))]
pub(crate) fn identity_arrow(
    alloc: Global,
    store: &mut Store,
    dim: usize,
    d: DiagramId,
) -> Result<ArrowId, AllocError>
    requires of_store { IsDiagramOf store.old d }
    requires dim { dim ≡ dimension_of (diagram_at store.old d) }
    ensures { MakesArrow store.old store.new (identity_tree (diagram_at store.old d)) result }
{
    if let Some(known) = store.known_identity(d) {
        return Ok(known);
    }
    let arrow = identity_anew(alloc, store, dim, d)?;
    store.note_identity(d, arrow)?;
    Ok(arrow)
}

/// The identity arrow of a diagram for which none is noted.
#[cycle(identities)]
#[tactic(auto, using(crate::proofs::IdentitySlices::identifies))]
fn identity_anew(
    alloc: Global,
    store: &mut Store,
    dim: usize,
    d: DiagramId,
) -> Result<ArrowId, AllocError>
    requires of_store { IsDiagramOf store.old d }
    requires dim { dim ≡ dimension_of (diagram_at store.old d) }
    requires store { IsStore store.old }
    ensures { MakesArrow store.old store.new (identity_tree (diagram_at store.old d)) result }
{
    if dim == 0 {
        let x = store.label(d);
        return store.put_arrow(ArrowNode::Zero(x, x));
    }
    let heights = heights_below(alloc, store.length(d))?;
    let regs = regular_identities(alloc, store, dim, d)?;
    let sings = singular_identities(alloc, store, dim, d)?;
    store.put_arrow(ArrowNode::Zig {
        heights,
        regs,
        sings,
    })
}

/// The identities of the regular slices of a diagram, in order.
#[cycle(identities)]
#[tactic(auto, using(crate::proofs::IdentitySlices::identifies))]
fn regular_identities(
    alloc: Global,
    store: &mut Store,
    dim: usize,
    d: DiagramId,
) -> Result<SmallVec<ArrowId, 4>, AllocError>
    requires of_store { IsDiagramOf store.old d }
    requires dim { dim ≡ dimension_of (diagram_at store.old d) }
    requires above { 0 < dim }
    requires store { IsStore store.old }
    ensures { MakesArrows store.old store.new (length (sings (diagram_at store.old d)) + 1)
        (λ j. identity_tree (reg_at (diagram_at store.old d) j)) result }
{
    let mut ids = SmallVec::new(alloc);
    let first = store.reg(d, 0);
    ids.push(identity_arrow(alloc, store, dim - 1, first)?)?;
    for i in 0..store.length(d) {
        let slice = store.reg(d, i + 1);
        ids.push(identity_arrow(alloc, store, dim - 1, slice)?)?;
    }
    Ok(ids)
}

/// The identities of the singular slices of a diagram, in order.
#[cycle(identities)]
#[tactic(auto, using(crate::proofs::IdentitySlices::identifies))]
fn singular_identities(
    alloc: Global,
    store: &mut Store,
    dim: usize,
    d: DiagramId,
) -> Result<SmallVec<ArrowId, 4>, AllocError>
    requires of_store { IsDiagramOf store.old d }
    requires dim { dim ≡ dimension_of (diagram_at store.old d) }
    requires above { 0 < dim }
    requires store { IsStore store.old }
    ensures { MakesArrows store.old store.new (length (sings (diagram_at store.old d)))
        (λ i. identity_tree (sing_at (diagram_at store.old d) i)) result }
{
    let mut ids = SmallVec::new(alloc);
    for i in 0..store.length(d) {
        let slice = store.sing(d, i);
        ids.push(identity_arrow(alloc, store, dim - 1, slice)?)?;
    }
    Ok(ids)
}

/// The heights below `n`, in order.
#[tactic(auto, using(crate::proofs::IdentitySlices::upto_more))]
fn heights_below(alloc: Global, n: usize) -> Result<SmallVec<usize, 4>, AllocError>
    ensures { IfOk result (λ heights. heights.items ≡ upto n) }
{
    let mut heights = SmallVec::new(alloc);
    for i in 0..n {
        heights.push(i)?;
    }
    Ok(heights)
}
