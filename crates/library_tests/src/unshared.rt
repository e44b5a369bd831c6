ghost use Rattle.std.specs.Prelude.{◌≡◌, All, IfOk};
ghost use Rattle.diagram_terms.specs.Nodes.{AreNodes, picked, tree_at, trees_of};
ghost use Rattle.diagram_terms.specs.Values.{tree_of_arrow, tree_of_diagram, trees_of_arrows, trees_of_diagrams};
ghost use Rattle.node_json.specs.Documents.{IsArrowPlace, IsDiagramPlace};

use diagram_terms::{Arrow, Diagram, Node};
use std::alloc::{AllocError, Global};

/// The plain tree of the diagram at a place of a list of nodes: a node that several name is taken
/// apart for each.
#[cycle(diagrams)]
pub(crate) fn unshared(alloc: Global, nodes: &[Node], place: usize) -> Result<Diagram, AllocError>
    requires form { AreNodes nodes.now }
    requires diagram { IsDiagramPlace nodes.now place }
    ensures { IfOk result (λ t. tree_of_diagram t ≡ tree_at nodes.now place) }
{
    match &nodes[place] {
        Node::Label(label) => Ok(Diagram::Zero(*label)),
        Node::Diagram {
            regs,
            sings,
            fwds,
            bwds,
        } => Ok(Diagram::Zig {
            regs: unshared_diagrams(alloc, nodes, regs.as_slice())?,
            sings: unshared_diagrams(alloc, nodes, sings.as_slice())?,
            fwds: unshared_arrows(alloc, nodes, fwds.as_slice())?,
            bwds: unshared_arrows(alloc, nodes, bwds.as_slice())?,
        }),
        Node::Labels(..) | Node::Arrow { .. } => unreachable!(),
    }
}

/// The plain trees of the diagrams at these places.
#[cycle(diagrams)]
fn unshared_diagrams(
    alloc: Global,
    nodes: &[Node],
    places: &[usize],
) -> Result<Vec<Diagram>, AllocError>
    requires form { AreNodes nodes.now }
    requires diagrams { All (IsDiagramPlace nodes.now) places.now }
    ensures { IfOk result (λ ts. trees_of_diagrams ts.items ≡ picked (trees_of nodes.now) places.now) }
{
    let mut trees = Vec::new(alloc);
    for place in places {
        trees.push(unshared(alloc, nodes, *place)?)?;
    }
    Ok(trees)
}

/// The plain tree of the arrow at a place of a list of nodes.
#[cycle(arrows)]
fn unshared_arrow(alloc: Global, nodes: &[Node], place: usize) -> Result<Arrow, AllocError>
    requires form { AreNodes nodes.now }
    requires arrow { IsArrowPlace nodes.now place }
    ensures { IfOk result (λ t. tree_of_arrow t ≡ tree_at nodes.now place) }
{
    match &nodes[place] {
        Node::Labels(from, to) => Ok(Arrow::Zero(*from, *to)),
        Node::Arrow {
            heights,
            regs,
            sings,
        } => Ok(Arrow::Zig {
            heights: heights.as_slice().to_vec(alloc)?,
            regs: unshared_arrows(alloc, nodes, regs.as_slice())?,
            sings: unshared_arrows(alloc, nodes, sings.as_slice())?,
        }),
        Node::Label(_) | Node::Diagram { .. } => unreachable!(),
    }
}

/// The plain trees of the arrows at these places.
#[cycle(arrows)]
fn unshared_arrows(
    alloc: Global,
    nodes: &[Node],
    places: &[usize],
) -> Result<Vec<Arrow>, AllocError>
    requires form { AreNodes nodes.now }
    requires arrows { All (IsArrowPlace nodes.now) places.now }
    ensures { IfOk result (λ ts. trees_of_arrows ts.items ≡ picked (trees_of nodes.now) places.now) }
{
    let mut trees = Vec::new(alloc);
    for place in places {
        trees.push(unshared_arrow(alloc, nodes, *place)?)?;
    }
    Ok(trees)
}
