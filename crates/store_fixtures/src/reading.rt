ghost use Rattle.std.specs.Prelude.{◌≡◌, ◌<◌, IfNone, IfSome};
ghost use Rattle.diagram_terms.specs.Dimension.{dimension_of};
ghost use Rattle.diagram_terms.specs.Tree.{ends, point};
ghost use Rattle.hashcons.specs.Contents.{IsArrowOf, IsDiagramOf, arrow_at, diagram_at};
ghost use Rattle.hashcons.specs.Made.{MakesArrow, MakesDiagram};

use diagram_terms::Label;
use hashcons::{AnyId, ArrowId, ArrowNode, DiagramId, DiagramNode, Store};
use std::alloc::AllocError;

/// The diagram of a label.
#[tactic(auto, using(diagram_terms::proofs::Dimensions::labels))]
pub fn put_label(store: &mut Store, label: Label) -> Result<DiagramId, AllocError>
    ensures { MakesDiagram store.old store.new (point label) result }
{
    store.put_diagram(DiagramNode::Zero(label))
}

/// The arrow of dimension 0 between two labels.
#[tactic(auto, using(diagram_terms::proofs::Dimensions::labels))]
pub fn put_pair(store: &mut Store, from: Label, to: Label) -> Result<ArrowId, AllocError>
    ensures { MakesArrow store.old store.new (ends from to) result }
{
    store.put_arrow(ArrowNode::Zero(from, to))
}

/// The label of a diagram of dimension 0.
pub fn label_of(store: &Store, d: DiagramId) -> Option<Label>
    requires { IsDiagramOf store.now d }
    ensures label { IfSome result (λ x. diagram_at store.now d ≡ point x) }
    ensures none { IfNone result (0 < dimension_of (diagram_at store.now d)) }
{
    if store.dim(AnyId::Diagram(d)) == 0 {
        Some(store.label(d))
    } else {
        None
    }
}

/// Both labels of an arrow of dimension 0.
pub fn pair_of(store: &Store, a: ArrowId) -> Option<(Label, Label)>
    requires { IsArrowOf store.now a }
    ensures labels { IfSome result (λ pair. arrow_at store.now a ≡ ends pair.0 pair.1) }
    ensures none { IfNone result (0 < dimension_of (arrow_at store.now a)) }
{
    if store.dim(AnyId::Arrow(a)) == 0 {
        Some(store.pair(a))
    } else {
        None
    }
}
