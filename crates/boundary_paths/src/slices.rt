ghost use Rattle.std.specs.Prelude.{◌≡◌, ◌<◌, ◌↔◌, IfErr, IfOk, IfSome, IsTrue, Ok, Err, option_map};
ghost use Rattle.diagram_terms.specs.Dimension.{dimension_of};
ghost use Rattle.diagram_terms.specs.Slices.{slice_at, slice_along, source_tree, target_tree, AreParallel};
ghost use Rattle.hashcons.specs.Contents.{IsDiagramOf, diagram_at};

use diagram_terms::Height;
use hashcons::{AnyId, DiagramId, Store};

/// A step of a path names no height of the slice that it is taken in.
#[derive(Clone, Copy, Debug, PartialEq, Eq)]
pub struct NoHeight {
    /// The place of the step in the path, counted from 0.
    pub step: usize,
}

/// The slice to which a path of heights leads. The empty path leads to the diagram itself.
pub fn slice(store: &Store, d: DiagramId, path: &[Height]) -> Result<DiagramId, NoHeight>
    requires { IsDiagramOf store.now d }
    ensures of_store { IfOk result (λ e. IsDiagramOf store.now e) }
    ensures found { IfOk result (λ e.
        slice_along (diagram_at store.now d) path.now ≡ Ok (diagram_at store.now e)) }
    ensures refused { IfErr result (λ e.
        slice_along (diagram_at store.now d) path.now ≡ Err e.step) }
{
    let mut reached = d;
    for (step, height) in path.iter().enumerate() {
        match slice_at(store, reached, *height) {
            Some(next) => reached = next,
            None => return Err(NoHeight { step }),
        }
    }
    Ok(reached)
}

/// The slice at a height, if the diagram has the height.
#[tactic(auto, using(crate::proofs::Ends::slices))]
fn slice_at(store: &Store, d: DiagramId, height: Height) -> Option<DiagramId>
    requires { IsDiagramOf store.now d }
    ensures of_store { IfSome result (λ e. IsDiagramOf store.now e) }
    ensures tree { option_map (diagram_at store.now) result ≡ slice_at (diagram_at store.now d) height }
{
    if store.dim(AnyId::Diagram(d)) == 0 {
        return None;
    }
    let length = store.length(d);
    match height {
        Height::R(at) => if at <= length {
            Some(store.reg(d, at))
        } else {
            None
        },
        Height::S(at) => if at < length {
            Some(store.sing(d, at))
        } else {
            None
        },
    }
}

/// The source of a diagram: its first regular slice.
#[tactic(auto, using(crate::proofs::Ends::ends))]
pub fn source(store: &Store, d: DiagramId) -> DiagramId
    requires of_store { IsDiagramOf store.now d }
    requires above { 0 < dimension_of (diagram_at store.now d) }
    ensures of_store { IsDiagramOf store.now result }
    ensures tree { diagram_at store.now result ≡ source_tree (diagram_at store.now d) }
{
    store.reg(d, 0)
}

/// The target of a diagram: its last regular slice.
#[tactic(auto, using(crate::proofs::Ends::ends))]
pub fn target(store: &Store, d: DiagramId) -> DiagramId
    requires of_store { IsDiagramOf store.now d }
    requires above { 0 < dimension_of (diagram_at store.now d) }
    ensures of_store { IsDiagramOf store.now result }
    ensures tree { diagram_at store.now result ≡ target_tree (diagram_at store.now d) }
{
    store.reg(d, store.length(d))
}

/// Whether two diagrams are parallel: whether a generator may have them as its source and target.
#[tactic(auto, using(crate::proofs::Ends::ends))]
pub fn parallel(store: &Store, s: DiagramId, t: DiagramId) -> bool
    requires source { IsDiagramOf store.now s }
    requires target { IsDiagramOf store.now t }
    ensures { IsTrue result ↔ AreParallel (diagram_at store.now s) (diagram_at store.now t) }
{
    let dim = store.dim(AnyId::Diagram(s));
    if store.dim(AnyId::Diagram(t)) != dim {
        return false;
    }
    dim == 0 || source(store, s) == source(store, t) && target(store, s) == target(store, t)
}
