ghost use Rattle.std.specs.Prelude.{◌≡◌, ◌+◌, ◌<◌, IfOk, length};
ghost use Rattle.diagram_terms.specs.Dimension.{dimension_of};
ghost use Rattle.diagram_terms.specs.Dual.{upto};
ghost use Rattle.diagram_terms.specs.Operations.{identity_tree};
ghost use Rattle.diagram_terms.specs.Shape.{reg_at, sing_at};
ghost use Rattle.diagram_terms.specs.Tree.{heights, regs, sings};
ghost use Rattle.hashcons.specs.Contents.{Grows, IsArrowOf, IsDiagramOf, IsStore, arrow_at, diagram_at};
ghost use Rattle.hashcons.specs.Gathers.{Gathers};
ghost use Rattle.hashcons.specs.Made.{MakesArrow, MakesArrows, MakesDiagram};
ghost use Rattle.zigzag_maps.specs.Found.{IsValidMap};
ghost use Rattle.degeneracy.specs.DegeneracyTrees.{IsDegeneracyMap};
ghost use Rattle.degeneracy.specs.SplitTrees.{AreParts, middle_bwd, middle_fwd, middle_reg, middle_sing, middle_tree, parallel_sing, parallel_tree, simple_reg, simple_tree};

use hashcons::{ArrowId, ArrowNode, DiagramId, DiagramNode, Store};
use smallvec::SmallVec;
use std::alloc::{AllocError, Global};
use zigzag_maps::{Map, compose, dual_of, fwd_map, identity, reg_slice};

/// The two parts of a degeneracy `d` above dimension 0: the simple one, and the parallel one, which
/// follows it. Their composite is `d`, and no other two parts have this composite
/// (`degeneracies_split_once` of `degeneracy_laws`).
#[tactic(auto, using(crate::proofs::DegeneraciesInStore::degenerating))]
pub fn split(alloc: Global, store: &mut Store, d: Map) -> Result<(Map, Map), AllocError>
    requires valid { IsValidMap store.old d }
    requires degeneracy { IsDegeneracyMap store.old d }
    requires above { 0 < dimension_of (arrow_at store.old d.arrow) }
    ensures grows { Grows store.old store.new }
    ensures parts { IfOk result (AreParts store.new d) }
{
    let identities = regular_identities(alloc, store, &d)?;
    let between = middle(alloc, store, &d, &identities)?;
    let simple = simple_part(alloc, store, &d, identities)?;
    let parallel = parallel_part(alloc, store, &d)?;
    let first = Map {
        source: d.source,
        target: between,
        arrow: simple,
    };
    let second = Map {
        source: between,
        target: d.target,
        arrow: parallel,
    };
    Ok((first, second))
}

/// The identities of the sources of the regular slices of `f`, in order.
#[tactic(auto, using(crate::proofs::DegeneraciesInStore::degenerating))]
fn regular_identities(
    alloc: Global,
    store: &mut Store,
    f: &Map,
) -> Result<SmallVec<ArrowId, 4>, AllocError>
    requires valid { IsValidMap store.old f.now }
    requires above { 0 < dimension_of (arrow_at store.old f.now.arrow) }
    ensures { MakesArrows store.old store.new (length (regs (arrow_at store.old f.now.arrow)))
        (simple_reg (diagram_at store.old f.now.source) (arrow_at store.old f.now.arrow)) result }
{
    let mut ids = SmallVec::new(alloc);
    for k in 0..store.regs_len(f.arrow) {
        let slice = reg_slice(store, *f, k);
        let made = identity(alloc, store, slice.source)?;
        ids.push(made.arrow)?;
    }
    Ok(ids)
}

/// What stands between the parts: the target of `f` with the heights to which one goes as they are
/// in the source, and with identities of the regular slices of the source at the others.
#[tactic(auto, using(crate::proofs::DegeneraciesInStore::degenerating))]
fn middle(
    alloc: Global,
    store: &mut Store,
    f: &Map,
    identities: &SmallVec<ArrowId, 4>,
) -> Result<DiagramId, AllocError>
    requires valid { IsValidMap store.old f.now }
    requires above { 0 < dimension_of (arrow_at store.old f.now.arrow) }
    requires identities { Gathers store.old.arrows identities.now.items (length (regs (arrow_at store.old f.now.arrow)))
        (simple_reg (diagram_at store.old f.now.source) (arrow_at store.old f.now.arrow)) }
    ensures { MakesDiagram store.old store.new (middle_tree
        (diagram_at store.old f.now.source) (diagram_at store.old f.now.target) (arrow_at store.old f.now.arrow)) result }
{
    let regs = middle_regs(alloc, store, f)?;
    let sings = middle_sings(alloc, store, f)?;
    let fwds = middle_fwds(alloc, store, f, identities)?;
    let bwds = middle_bwds(alloc, store, f, identities)?;
    store.put_diagram(DiagramNode::Zig {
        regs,
        sings,
        fwds,
        bwds,
    })
}

#[tactic(auto, using(crate::proofs::DegeneraciesInStore::degenerating))]
fn middle_regs(alloc: Global, store: &Store, f: &Map) -> Result<SmallVec<DiagramId, 4>, AllocError>
    requires valid { IsValidMap store.now f.now }
    requires above { 0 < dimension_of (arrow_at store.now f.now.arrow) }
    ensures { IfOk result (λ ids. Gathers store.now.diagrams ids.items (length (regs (arrow_at store.now f.now.arrow)))
        (middle_reg (diagram_at store.now f.now.source) (arrow_at store.now f.now.arrow))) }
{
    let mut ids = SmallVec::new(alloc);
    for k in 0..store.regs_len(f.arrow) {
        let slice = reg_slice(store, *f, k);
        ids.push(slice.source)?;
    }
    Ok(ids)
}

#[tactic(auto, using(crate::proofs::DegeneraciesInStore::degenerating))]
fn middle_sings(alloc: Global, store: &Store, f: &Map) -> Result<SmallVec<DiagramId, 4>, AllocError>
    requires valid { IsValidMap store.now f.now }
    requires above { 0 < dimension_of (arrow_at store.now f.now.arrow) }
    ensures { IfOk result (λ ids. Gathers store.now.diagrams ids.items (length (sings (diagram_at store.now f.now.target)))
        (middle_sing (diagram_at store.now f.now.source) (arrow_at store.now f.now.arrow))) }
{
    let mut ids = SmallVec::new(alloc);
    for k in 0..store.length(f.target) {
        ids.push(middle_sing(store, f, k))?;
    }
    Ok(ids)
}

/// The singular slice at `k` of what stands between the parts.
fn middle_sing(store: &Store, f: &Map, k: usize) -> DiagramId
    requires valid { IsValidMap store.now f.now }
    requires above { 0 < dimension_of (arrow_at store.now f.now.arrow) }
    requires within { k < length (sings (diagram_at store.now f.now.target)) }
    requires fits { k < usize.MAX }
    ensures of_store { IsDiagramOf store.now result }
    ensures tree { diagram_at store.now result ≡ middle_sing (diagram_at store.now f.now.source) (arrow_at store.now f.now.arrow) k }
{
    let at = dual_of(store, f.arrow, k);
    if at < dual_of(store, f.arrow, k + 1) {
        store.sing(f.source, at)
    } else {
        store.reg(f.source, at)
    }
}

#[tactic(auto, using(crate::proofs::DegeneraciesInStore::degenerating))]
fn middle_fwds(
    alloc: Global,
    store: &Store,
    f: &Map,
    identities: &SmallVec<ArrowId, 4>,
) -> Result<SmallVec<ArrowId, 4>, AllocError>
    requires valid { IsValidMap store.now f.now }
    requires above { 0 < dimension_of (arrow_at store.now f.now.arrow) }
    requires identities { Gathers store.now.arrows identities.now.items (length (regs (arrow_at store.now f.now.arrow)))
        (simple_reg (diagram_at store.now f.now.source) (arrow_at store.now f.now.arrow)) }
    ensures { IfOk result (λ ids. Gathers store.now.arrows ids.items (length (sings (diagram_at store.now f.now.target)))
        (middle_fwd (diagram_at store.now f.now.source) (arrow_at store.now f.now.arrow))) }
{
    let mut ids = SmallVec::new(alloc);
    for k in 0..store.length(f.target) {
        ids.push(middle_fwd(store, f, k, identities))?;
    }
    Ok(ids)
}

/// The leg forward at `k` of what stands between the parts.
fn middle_fwd(store: &Store, f: &Map, k: usize, identities: &SmallVec<ArrowId, 4>) -> ArrowId
    requires valid { IsValidMap store.now f.now }
    requires above { 0 < dimension_of (arrow_at store.now f.now.arrow) }
    requires within { k < length (sings (diagram_at store.now f.now.target)) }
    requires fits { k < usize.MAX }
    requires identities { Gathers store.now.arrows identities.now.items (length (regs (arrow_at store.now f.now.arrow)))
        (simple_reg (diagram_at store.now f.now.source) (arrow_at store.now f.now.arrow)) }
    ensures of_store { IsArrowOf store.now result }
    ensures tree { arrow_at store.now result ≡ middle_fwd (diagram_at store.now f.now.source) (arrow_at store.now f.now.arrow) k }
{
    let at = dual_of(store, f.arrow, k);
    if at < dual_of(store, f.arrow, k + 1) {
        store.fwd(f.source, at)
    } else {
        identities[k]
    }
}

#[tactic(auto, using(crate::proofs::DegeneraciesInStore::degenerating))]
fn middle_bwds(
    alloc: Global,
    store: &Store,
    f: &Map,
    identities: &SmallVec<ArrowId, 4>,
) -> Result<SmallVec<ArrowId, 4>, AllocError>
    requires valid { IsValidMap store.now f.now }
    requires above { 0 < dimension_of (arrow_at store.now f.now.arrow) }
    requires identities { Gathers store.now.arrows identities.now.items (length (regs (arrow_at store.now f.now.arrow)))
        (simple_reg (diagram_at store.now f.now.source) (arrow_at store.now f.now.arrow)) }
    ensures { IfOk result (λ ids. Gathers store.now.arrows ids.items (length (sings (diagram_at store.now f.now.target)))
        (middle_bwd (diagram_at store.now f.now.source) (arrow_at store.now f.now.arrow))) }
{
    let mut ids = SmallVec::new(alloc);
    for k in 0..store.length(f.target) {
        ids.push(middle_bwd(store, f, k, identities))?;
    }
    Ok(ids)
}

/// The leg backward at `k` of what stands between the parts.
fn middle_bwd(store: &Store, f: &Map, k: usize, identities: &SmallVec<ArrowId, 4>) -> ArrowId
    requires valid { IsValidMap store.now f.now }
    requires above { 0 < dimension_of (arrow_at store.now f.now.arrow) }
    requires within { k < length (sings (diagram_at store.now f.now.target)) }
    requires fits { k < usize.MAX }
    requires identities { Gathers store.now.arrows identities.now.items (length (regs (arrow_at store.now f.now.arrow)))
        (simple_reg (diagram_at store.now f.now.source) (arrow_at store.now f.now.arrow)) }
    ensures of_store { IsArrowOf store.now result }
    ensures tree { arrow_at store.now result ≡ middle_bwd (diagram_at store.now f.now.source) (arrow_at store.now f.now.arrow) k }
{
    let at = dual_of(store, f.arrow, k);
    if at < dual_of(store, f.arrow, k + 1) {
        store.bwd(f.source, at)
    } else {
        identities[k]
    }
}

/// The simple part, over the identities of the sources of the regular slices.
#[tactic(auto, using(crate::proofs::DegeneraciesInStore::degenerating))]
fn simple_part(
    alloc: Global,
    store: &mut Store,
    f: &Map,
    identities: SmallVec<ArrowId, 4>,
) -> Result<ArrowId, AllocError>
    requires valid { IsValidMap store.old f.now }
    requires above { 0 < dimension_of (arrow_at store.old f.now.arrow) }
    requires identities { Gathers store.old.arrows identities.items (length (regs (arrow_at store.old f.now.arrow)))
        (simple_reg (diagram_at store.old f.now.source) (arrow_at store.old f.now.arrow)) }
    ensures { MakesArrow store.old store.new (simple_tree
        (diagram_at store.old f.now.source) (arrow_at store.old f.now.arrow)) result }
{
    let heights = heights_of(alloc, store, f.arrow)?;
    let sings = singular_identities(alloc, store, f.source)?;
    store.put_arrow(ArrowNode::Zig {
        heights,
        regs: identities,
        sings,
    })
}

fn heights_of(alloc: Global, store: &Store, a: ArrowId) -> Result<SmallVec<usize, 4>, AllocError>
    requires of_store { IsArrowOf store.now a }
    requires above { 0 < dimension_of (arrow_at store.now a) }
    ensures { IfOk result (λ hs. hs.items ≡ heights (arrow_at store.now a)) }
{
    let mut heights = SmallVec::new(alloc);
    for i in 0..store.source_len(a) {
        heights.push(store.height(a, i))?;
    }
    Ok(heights)
}

/// The identities of the singular slices of a diagram, in order.
#[tactic(auto, using(crate::proofs::DegeneraciesInStore::degenerating))]
fn singular_identities(
    alloc: Global,
    store: &mut Store,
    d: DiagramId,
) -> Result<SmallVec<ArrowId, 4>, AllocError>
    requires of_store { IsDiagramOf store.old d }
    ensures { MakesArrows store.old store.new (length (sings (diagram_at store.old d)))
        (λ i. identity_tree (sing_at (diagram_at store.old d) i)) result }
{
    let mut ids = SmallVec::new(alloc);
    for i in 0..store.length(d) {
        let slice = store.sing(d, i);
        let made = identity(alloc, store, slice)?;
        ids.push(made.arrow)?;
    }
    Ok(ids)
}

/// The parallel part.
#[tactic(auto, using(crate::proofs::DegeneraciesInStore::degenerating))]
fn parallel_part(alloc: Global, store: &mut Store, f: &Map) -> Result<ArrowId, AllocError>
    requires valid { IsValidMap store.old f.now }
    requires above { 0 < dimension_of (arrow_at store.old f.now.arrow) }
    ensures { MakesArrow store.old store.new (parallel_tree
        (diagram_at store.old f.now.target) (arrow_at store.old f.now.arrow)) result }
{
    let heights = heights_below(alloc, store.length(f.target))?;
    let sings = parallel_sings(alloc, store, f)?;
    let regs = regs_of(alloc, store, f.arrow)?;
    store.put_arrow(ArrowNode::Zig {
        heights,
        regs,
        sings,
    })
}

/// The heights below `n`, in order.
#[tactic(auto, using(zigzag_maps::proofs::IdentitySlices::upto_more))]
fn heights_below(alloc: Global, n: usize) -> Result<SmallVec<usize, 4>, AllocError>
    ensures { IfOk result (λ heights. heights.items ≡ upto n) }
{
    let mut heights = SmallVec::new(alloc);
    for i in 0..n {
        heights.push(i)?;
    }
    Ok(heights)
}

fn regs_of(alloc: Global, store: &Store, a: ArrowId) -> Result<SmallVec<ArrowId, 4>, AllocError>
    requires of_store { IsArrowOf store.now a }
    requires above { 0 < dimension_of (arrow_at store.now a) }
    ensures { IfOk result (λ ids. Gathers store.now.arrows ids.items (length (regs (arrow_at store.now a)))
        (reg_at (arrow_at store.now a))) }
{
    let mut ids = SmallVec::new(alloc);
    for k in 0..store.regs_len(a) {
        ids.push(store.arrow_reg(a, k))?;
    }
    Ok(ids)
}

#[tactic(auto, using(crate::proofs::DegeneraciesInStore::degenerating))]
fn parallel_sings(
    alloc: Global,
    store: &mut Store,
    f: &Map,
) -> Result<SmallVec<ArrowId, 4>, AllocError>
    requires valid { IsValidMap store.old f.now }
    requires above { 0 < dimension_of (arrow_at store.old f.now.arrow) }
    requires store { IsStore store.old }
    ensures { MakesArrows store.old store.new (length (sings (diagram_at store.old f.now.target)))
        (parallel_sing (diagram_at store.old f.now.target) (arrow_at store.old f.now.arrow)) result }
{
    let mut ids = SmallVec::new(alloc);
    for k in 0..store.length(f.target) {
        ids.push(parallel_sing(alloc, store, f, k)?)?;
    }
    Ok(ids)
}

/// The singular slice at `k` of the parallel part: the slice of `f` that goes there, or the way
/// into the target's singular slice where none does.
#[tactic(auto, using(crate::proofs::DegeneraciesInStore::degenerating))]
fn parallel_sing(alloc: Global, store: &mut Store, f: &Map, k: usize) -> Result<ArrowId, AllocError>
    requires valid { IsValidMap store.old f.now }
    requires above { 0 < dimension_of (arrow_at store.old f.now.arrow) }
    requires within { k < length (sings (diagram_at store.old f.now.target)) }
    requires fits { k < usize.MAX }
    requires store { IsStore store.old }
    ensures { MakesArrow store.old store.new (parallel_sing
        (diagram_at store.old f.now.target) (arrow_at store.old f.now.arrow) k) result }
{
    let at = dual_of(store, f.arrow, k);
    if at < dual_of(store, f.arrow, k + 1) {
        return Ok(store.arrow_sing(f.arrow, at));
    }
    let leg = fwd_map(store, f.target, k);
    let slice = reg_slice(store, *f, k);
    let made = compose(alloc, store, leg, slice)?;
    Ok(made.arrow)
}
