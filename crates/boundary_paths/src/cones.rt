ghost use Rattle.std.specs.Prelude.{◌≡◌, ◌<◌, [], ◌∷◌, IfOk, length, replicate};
ghost use Rattle.diagram_terms.specs.ConeTrees.{cone_tree, mid_tree, type_tree, HasLabelsBelowTree};
ghost use Rattle.diagram_terms.specs.Dual.{AreBelow};
ghost use Rattle.diagram_terms.specs.Nodes.{picked};
ghost use Rattle.diagram_terms.specs.Operations.{identity_tree};
ghost use Rattle.diagram_terms.specs.Shape.{sing_at};
ghost use Rattle.diagram_terms.specs.Slices.{AreParallel};
ghost use Rattle.diagram_terms.specs.Tree.{sings};
ghost use Rattle.hashcons.specs.Contents.{IsDiagramOf, Grows, IsStore, diagram_at};
ghost use Rattle.hashcons.specs.Made.{MakesDiagram, MakesArrows};
ghost use Rattle.zigzag_maps.specs.Found.{MakesMap};
ghost use Rattle.zigzag_maps.specs.DiagramTests.{IsDiagramAt};
ghost use Rattle.plain_maps.specs.ValidPlain.{IsValidPlain, IsValidPlainMap};
ghost use Rattle.boundary_paths.specs.Cones.{MakesCone, AreCones};

use crate::made::MadeCones;
use crate::slices::{source, target};
use diagram_terms::Label;
use hashcons::{AnyId, ArrowId, ArrowNode, DiagramId, DiagramNode, Store};
use smallvec::SmallVec;
use std::alloc::{AllocError, Global};
use zigzag_maps::{Map, identity};

/// The cone over a diagram with a label above its labels. The cone over each diagram inside it is made
/// once.
pub fn cone(alloc: Global, store: &mut Store, d: DiagramId, x: Label) -> Result<Map, AllocError>
    requires diagram { IsValidPlain store.old d }
    requires labels { HasLabelsBelowTree x.dim (diagram_at store.old d) }
    ensures source { IfOk result (λ m. m.source ≡ d) }
    ensures target { IfOk result (λ m.
        diagram_at store.new m.target ≡ mid_tree (diagram_at store.old d) x) }
    ensures made { MakesMap store.old store.new (cone_tree (diagram_at store.old d) x) result }
    ensures valid { IfOk result (IsValidPlainMap store.new) }
{
    let dim = store.dim(AnyId::Diagram(d));
    let mut made = MadeCones::new(alloc);
    cone_of(alloc, store, &mut made, dim, d, x)
}

/// The type of a generator with the label `x`, the source `s` and the target `t`: the cones over `s`
/// and `t`, as the legs of one singular slice.
pub fn type_over(
    alloc: Global,
    store: &mut Store,
    s: DiagramId,
    t: DiagramId,
    x: Label,
) -> Result<DiagramId, AllocError>
    requires source { IsValidPlain store.old s }
    requires target { IsValidPlain store.old t }
    requires source_labels { HasLabelsBelowTree x.dim (diagram_at store.old s) }
    requires target_labels { HasLabelsBelowTree x.dim (diagram_at store.old t) }
    requires parallel { AreParallel (diagram_at store.old s) (diagram_at store.old t) }
    ensures made { MakesDiagram store.old store.new
        (type_tree (diagram_at store.old s) (diagram_at store.old t) x) result }
    ensures valid { IfOk result (IsValidPlain store.new) }
{
    let dim = store.dim(AnyId::Diagram(s));
    let mut made = MadeCones::new(alloc);
    cospan_of_cones(alloc, store, &mut made, dim, s, t, x)
}

/// The cone over a diagram of dimension `dim`, made once.
#[cycle(cones)]
#[tactic(auto, using(crate::proofs::ConeSteps::cones))]
fn cone_of(
    alloc: Global,
    store: &mut Store,
    made: &mut MadeCones,
    dim: usize,
    d: DiagramId,
    x: Label,
) -> Result<Map, AllocError>
    requires diagram { IsDiagramAt store.old dim d }
    requires cones { AreCones store.old x made.old }
    requires store { IsStore store.old }
    ensures made { MakesCone store.old store.new x d result }
    ensures cones { AreCones store.new x made.new }
{
    if let Some(known) = made.over(d) {
        return Ok(known);
    }
    let cone = cone_anew(alloc, store, made, dim, d, x)?;
    made.keep(&cone)?;
    Ok(cone)
}

#[cycle(cones)]
#[tactic(auto, using(crate::proofs::ConeSteps::cones))]
fn cone_anew(
    alloc: Global,
    store: &mut Store,
    made: &mut MadeCones,
    dim: usize,
    d: DiagramId,
    x: Label,
) -> Result<Map, AllocError>
    requires diagram { IsDiagramAt store.old dim d }
    requires cones { AreCones store.old x made.old }
    requires store { IsStore store.old }
    ensures made { MakesCone store.old store.new x d result }
    ensures cones { AreCones store.new x made.new }
{
    if dim == 0 {
        return cone_over_label(store, d, x);
    }
    let heights = zeros(alloc, store.length(d))?;
    let from = source(store, d);
    let to = target(store, d);
    let middle = cospan_of_cones(alloc, store, made, dim - 1, from, to, x)?;
    let sings = singular_cones(alloc, store, made, dim, d, x)?;
    let regs = identities(alloc, store, from, to)?;
    let arrow = store.put_arrow(ArrowNode::Zig {
        heights,
        regs,
        sings,
    })?;
    Ok(Map {
        source: d,
        target: middle,
        arrow,
    })
}

#[tactic(auto, using(diagram_terms::proofs::Dimensions::labels))]
fn cone_over_label(store: &mut Store, d: DiagramId, x: Label) -> Result<Map, AllocError>
    requires { IsDiagramAt store.old 0 d }
    ensures { MakesCone store.old store.new x d result }
{
    let y = store.label(d);
    let target = store.put_diagram(DiagramNode::Zero(x))?;
    let arrow = store.put_arrow(ArrowNode::Zero(y, x))?;
    Ok(Map {
        source: d,
        target,
        arrow,
    })
}

/// The cospan of the cones over two diagrams of dimension `dim`, which have one target.
#[cycle(cones)]
#[tactic(auto, using(crate::proofs::ConeSteps::cones))]
fn cospan_of_cones(
    alloc: Global,
    store: &mut Store,
    made: &mut MadeCones,
    dim: usize,
    s: DiagramId,
    t: DiagramId,
    x: Label,
) -> Result<DiagramId, AllocError>
    requires source { IsDiagramAt store.old dim s }
    requires target { IsDiagramAt store.old dim t }
    requires cones { AreCones store.old x made.old }
    requires store { IsStore store.old }
    ensures made { MakesDiagram store.old store.new
        (type_tree (diagram_at store.old s) (diagram_at store.old t) x) result }
    ensures cones { AreCones store.new x made.new }
{
    let first = cone_of(alloc, store, made, dim, s, x)?;
    let second = cone_of(alloc, store, made, dim, t, x)?;
    let node = DiagramNode::Zig {
        regs: SmallVec::from_slice(alloc, &[s, t])?,
        sings: SmallVec::from_slice(alloc, &[first.target])?,
        fwds: SmallVec::from_slice(alloc, &[first.arrow])?,
        bwds: SmallVec::from_slice(alloc, &[second.arrow])?,
    };
    store.put_diagram(node)
}

/// The cones over the singular slices of a diagram, in order.
#[cycle(cones)]
#[tactic(auto, using(crate::proofs::ConeSteps::cones))]
fn singular_cones(
    alloc: Global,
    store: &mut Store,
    made: &mut MadeCones,
    dim: usize,
    d: DiagramId,
    x: Label,
) -> Result<SmallVec<ArrowId, 4>, AllocError>
    requires diagram { IsDiagramAt store.old dim d }
    requires above { 0 < dim }
    requires cones { AreCones store.old x made.old }
    requires store { IsStore store.old }
    ensures made { MakesArrows store.old store.new (length (sings (diagram_at store.old d)))
        (λ i. cone_tree (sing_at (diagram_at store.old d) i) x) result }
    ensures cones { AreCones store.new x made.new }
{
    let mut ids = SmallVec::new(alloc);
    for i in 0..store.length(d) {
        let slice = store.sing(d, i);
        let cone = cone_of(alloc, store, made, dim - 1, slice, x)?;
        ids.push(cone.arrow)?;
    }
    Ok(ids)
}

/// The identities of two diagrams.
#[tactic(auto, using(crate::proofs::ConeSteps::cones))]
fn identities(
    alloc: Global,
    store: &mut Store,
    s: DiagramId,
    t: DiagramId,
) -> Result<SmallVec<ArrowId, 4>, AllocError>
    requires source { IsDiagramOf store.old s }
    requires target { IsDiagramOf store.old t }
    ensures grows { Grows store.old store.new }
    ensures of_store { IfOk result (λ ids. AreBelow ids.items (length store.new.arrows)) }
    ensures trees { IfOk result (λ ids. picked store.new.arrows ids.items
        ≡ identity_tree (diagram_at store.old s) ∷ identity_tree (diagram_at store.old t) ∷ []) }
{
    let first = identity(alloc, store, s)?;
    let last = identity(alloc, store, t)?;
    SmallVec::from_slice(alloc, &[first.arrow, last.arrow])
}

/// The height 0, `n` times.
fn zeros(alloc: Global, n: usize) -> Result<SmallVec<usize, 4>, AllocError>
    ensures { IfOk result (λ heights. heights.items ≡ replicate n 0) }
{
    let mut heights = SmallVec::new(alloc);
    for _ in 0..n {
        heights.push(0)?;
    }
    Ok(heights)
}
