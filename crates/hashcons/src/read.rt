ghost use Rattle.std.specs.Prelude.{◌≡◌, ◌<◌, ◌+◌, ◌↔◌, IsTrue, length, slice_index};
ghost use Rattle.diagram_terms.specs.Dimension.{dimension_of};
ghost use Rattle.diagram_terms.specs.Shape.{reg_at, sing_at, fwd_at, bwd_at};
ghost use Rattle.diagram_terms.specs.Tree.{regs, sings, fwds, bwds, heights, point, ends};
ghost use Rattle.hashcons.specs.Contents.{Contents, IsStore, IsDiagramOf, IsArrowOf, diagram_at, arrow_at};
ghost use Rattle.hashcons.specs.Ids.{IsOf, HasDimension, tree_of};

use crate::id::{AnyId, ArrowId, DiagramId};
use crate::store::Store;
use crate::view::{ArrowView, DiagramView};
use diagram_terms::Label;

/// Calls that read one part of a node. None takes memory.
impl Store {
    /// The length of a diagram: the count of its singular slices, 0 for a label.
    #[tactic(auto, using(crate::proofs::PartsOfNodes::picks))]
    pub fn length(&self, d: DiagramId) -> usize
        requires of_store { IsDiagramOf self.now d }
        ensures length { result ≡ length (sings (diagram_at self.now d)) }
        ensures store { IsStore self.now }
    {
        match self.view_diagram(d) {
            DiagramView::Zero(_) => 0,
            DiagramView::Zig { sings, .. } => sings.len(),
        }
    }

    /// The label of a diagram of dimension 0.
    #[tactic(auto, using(crate::proofs::PartsOfNodes::picks))]
    pub fn label(&self, d: DiagramId) -> Label
        requires of_store { IsDiagramOf self.now d }
        requires zero { dimension_of (diagram_at self.now d) ≡ 0 }
        ensures { diagram_at self.now d ≡ point result }
    {
        match self.view_diagram(d) {
            DiagramView::Zero(label) => label,
            DiagramView::Zig { .. } => unreachable!(),
        }
    }

    /// A regular slice of a diagram.
    #[tactic(auto, using(crate::proofs::PartsOfNodes::picks))]
    pub fn reg(&self, d: DiagramId, at: usize) -> DiagramId
        requires of_store { IsDiagramOf self.now d }
        requires within { at < length (regs (diagram_at self.now d)) }
        ensures of_store { IsDiagramOf self.now result }
        ensures tree { diagram_at self.now result ≡ reg_at (diagram_at self.now d) at }
    {
        match self.view_diagram(d) {
            DiagramView::Zero(_) => unreachable!(),
            DiagramView::Zig { regs, .. } => DiagramId { index: regs.at(at) },
        }
    }

    /// A singular slice of a diagram.
    #[tactic(auto, using(crate::proofs::PartsOfNodes::picks))]
    pub fn sing(&self, d: DiagramId, at: usize) -> DiagramId
        requires of_store { IsDiagramOf self.now d }
        requires within { at < length (sings (diagram_at self.now d)) }
        ensures of_store { IsDiagramOf self.now result }
        ensures tree { diagram_at self.now result ≡ sing_at (diagram_at self.now d) at }
    {
        match self.view_diagram(d) {
            DiagramView::Zero(_) => unreachable!(),
            DiagramView::Zig { sings, .. } => DiagramId {
                index: sings.at(at),
            },
        }
    }

    /// The leg forward into a singular slice.
    #[tactic(auto, using(crate::proofs::PartsOfNodes::picks))]
    pub fn fwd(&self, d: DiagramId, at: usize) -> ArrowId
        requires of_store { IsDiagramOf self.now d }
        requires within { at < length (fwds (diagram_at self.now d)) }
        ensures of_store { IsArrowOf self.now result }
        ensures tree { arrow_at self.now result ≡ fwd_at (diagram_at self.now d) at }
    {
        match self.view_diagram(d) {
            DiagramView::Zero(_) => unreachable!(),
            DiagramView::Zig { fwds, .. } => ArrowId { index: fwds.at(at) },
        }
    }

    /// The leg backward into a singular slice.
    #[tactic(auto, using(crate::proofs::PartsOfNodes::picks))]
    pub fn bwd(&self, d: DiagramId, at: usize) -> ArrowId
        requires of_store { IsDiagramOf self.now d }
        requires within { at < length (bwds (diagram_at self.now d)) }
        ensures of_store { IsArrowOf self.now result }
        ensures tree { arrow_at self.now result ≡ bwd_at (diagram_at self.now d) at }
    {
        match self.view_diagram(d) {
            DiagramView::Zero(_) => unreachable!(),
            DiagramView::Zig { bwds, .. } => ArrowId { index: bwds.at(at) },
        }
    }

    /// Both labels of an arrow of dimension 0.
    #[tactic(auto, using(crate::proofs::PartsOfNodes::picks))]
    pub fn pair(&self, a: ArrowId) -> (Label, Label)
        requires of_store { IsArrowOf self.now a }
        requires zero { dimension_of (arrow_at self.now a) ≡ 0 }
        ensures { arrow_at self.now a ≡ ends result.0 result.1 }
    {
        match self.view_arrow(a) {
            ArrowView::Zero(from, to) => (from, to),
            ArrowView::Zig { .. } => unreachable!(),
        }
    }

    /// The length of an arrow's source: the count of the arrow's heights.
    #[tactic(auto, using(crate::proofs::PartsOfNodes::picks))]
    pub fn source_len(&self, a: ArrowId) -> usize
        requires of_store { IsArrowOf self.now a }
        requires above { 0 < dimension_of (arrow_at self.now a) }
        ensures length { result ≡ length (heights (arrow_at self.now a)) }
        ensures store { IsStore self.now }
    {
        match self.view_arrow(a) {
            ArrowView::Zero(..) => unreachable!(),
            ArrowView::Zig { heights, .. } => heights.len(),
        }
    }

    /// The length of an arrow's target: one less than the count of the arrow's regular slices.
    #[tactic(auto, using(crate::proofs::PartsOfNodes::picks))]
    pub fn target_len(&self, a: ArrowId) -> usize
        requires of_store { IsArrowOf self.now a }
        requires above { 0 < dimension_of (arrow_at self.now a) }
        ensures length { result + 1 ≡ length (regs (arrow_at self.now a)) }
        ensures store { IsStore self.now }
    {
        match self.view_arrow(a) {
            ArrowView::Zero(..) => unreachable!(),
            ArrowView::Zig { regs, .. } => regs.len() - 1,
        }
    }

    /// The count of an arrow's regular slices: one more than the length of its target.
    #[tactic(auto, using(crate::proofs::PartsOfNodes::picks))]
    pub fn regs_len(&self, a: ArrowId) -> usize
        requires of_store { IsArrowOf self.now a }
        requires above { 0 < dimension_of (arrow_at self.now a) }
        ensures { result ≡ length (regs (arrow_at self.now a)) }
    {
        match self.view_arrow(a) {
            ArrowView::Zero(..) => unreachable!(),
            ArrowView::Zig { regs, .. } => regs.len(),
        }
    }

    /// Where an arrow sends a height of its source.
    #[tactic(auto, using(crate::proofs::PartsOfNodes::picks))]
    pub fn height(&self, a: ArrowId, at: usize) -> usize
        requires of_store { IsArrowOf self.now a }
        requires above { 0 < dimension_of (arrow_at self.now a) }
        requires within { at < length (heights (arrow_at self.now a)) }
        ensures { result ≡ slice_index (heights (arrow_at self.now a)) at }
    {
        match self.view_arrow(a) {
            ArrowView::Zero(..) => unreachable!(),
            ArrowView::Zig { heights, .. } => heights.at(at),
        }
    }

    /// A regular slice of an arrow.
    #[tactic(auto, using(crate::proofs::PartsOfNodes::picks))]
    pub fn arrow_reg(&self, a: ArrowId, at: usize) -> ArrowId
        requires of_store { IsArrowOf self.now a }
        requires above { 0 < dimension_of (arrow_at self.now a) }
        requires within { at < length (regs (arrow_at self.now a)) }
        ensures of_store { IsArrowOf self.now result }
        ensures tree { arrow_at self.now result ≡ reg_at (arrow_at self.now a) at }
    {
        match self.view_arrow(a) {
            ArrowView::Zero(..) => unreachable!(),
            ArrowView::Zig { regs, .. } => ArrowId { index: regs.at(at) },
        }
    }

    /// A singular slice of an arrow.
    #[tactic(auto, using(crate::proofs::PartsOfNodes::picks))]
    pub fn arrow_sing(&self, a: ArrowId, at: usize) -> ArrowId
        requires of_store { IsArrowOf self.now a }
        requires above { 0 < dimension_of (arrow_at self.now a) }
        requires within { at < length (sings (arrow_at self.now a)) }
        ensures of_store { IsArrowOf self.now result }
        ensures tree { arrow_at self.now result ≡ sing_at (arrow_at self.now a) at }
    {
        match self.view_arrow(a) {
            ArrowView::Zero(..) => unreachable!(),
            ArrowView::Zig { sings, .. } => ArrowId {
                index: sings.at(at),
            },
        }
    }

    /// The dimension.
    pub fn dim(&self, id: AnyId) -> usize
        requires of_store { IsOf self.now id }
        ensures dim { result ≡ dimension_of (tree_of self.now id) }
        ensures shape { HasDimension self.now result id }
        ensures store { IsStore self.now }
    {
        match id {
            AnyId::Diagram(d) => self.diagram_dim(d),
            AnyId::Arrow(a) => self.arrow_dim(a),
        }
    }

    #[tactic(auto, using(crate::proofs::PartsOfNodes::picks))]
    fn diagram_dim(&self, d: DiagramId) -> usize
        requires of_store { IsDiagramOf self.now d }
        ensures dim { result ≡ dimension_of (diagram_at self.now d) }
        ensures store { IsStore self.now }
    {
        match self.view_diagram(d) {
            DiagramView::Zero(_) => 0,
            DiagramView::Zig { regs, .. } => self.diagram_dim(DiagramId { index: regs.at(0) }) + 1,
        }
    }

    #[tactic(auto, using(crate::proofs::PartsOfNodes::picks))]
    fn arrow_dim(&self, a: ArrowId) -> usize
        requires of_store { IsArrowOf self.now a }
        ensures dim { result ≡ dimension_of (arrow_at self.now a) }
        ensures store { IsStore self.now }
    {
        match self.view_arrow(a) {
            ArrowView::Zero(..) => 0,
            ArrowView::Zig { regs, .. } => self.arrow_dim(ArrowId { index: regs.at(0) }) + 1,
        }
    }
}

/// Whether two ids are equal. Ids of one store are equal exactly if they are of one kind and have
/// one tree.
pub fn same(a: AnyId, b: AnyId) -> bool
    ensures ids { IsTrue result ↔ (a ≡ b) }
    ensures trees { (c : Contents) → IsStore c → IsOf c a → IsOf c b
        → (IsTrue result ↔ (tree_of c a ≡ tree_of c b)) }
{
    a == b
}
