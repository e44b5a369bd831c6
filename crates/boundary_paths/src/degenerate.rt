ghost use Rattle.hashcons.specs.Contents.{IsDiagramOf, diagram_at};
ghost use Rattle.hashcons.specs.Made.{MakesDiagram};
ghost use Rattle.diagram_terms.specs.ConeTrees.{identity_diagram_tree};

use hashcons::{DiagramId, DiagramNode, Store};
use smallvec::SmallVec;
use std::alloc::{AllocError, Global};

/// The identity diagram of a diagram: one dimension higher, with `d` as its source and target, and of
/// length 0.
pub fn identity_diagram(
    alloc: Global,
    store: &mut Store,
    d: DiagramId,
) -> Result<DiagramId, AllocError>
    requires of_store { IsDiagramOf store.old d }
    ensures made { MakesDiagram store.old store.new
        (identity_diagram_tree (diagram_at store.old d)) result }
{
    // The call says of the store that its trees have their shapes.
    let _ = store.length(d);
    let regs = SmallVec::from_slice(alloc, &[d])?;
    store.put_diagram(DiagramNode::Zig {
        regs,
        sings: SmallVec::new(alloc),
        fwds: SmallVec::new(alloc),
        bwds: SmallVec::new(alloc),
    })
}
