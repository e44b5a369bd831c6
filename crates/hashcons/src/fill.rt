ghost use Rattle.std.specs.Prelude.{◌≡◌, ◌<◌, ◌≤◌, ℕ, IfOk, length};
ghost use Rattle.diagram_terms.specs.Nodes.{AreNodes, tree_at};
ghost use Rattle.hashcons.specs.Contents.{Grows};
ghost use Rattle.hashcons.specs.Made.{Makes};
ghost use Rattle.hashcons.specs.Ids.{GathersIds, AreDiagramsAt, AreArrowsAt, NameDiagrams, NameArrows};

use crate::id::{AnyId, ArrowId, DiagramId};
use crate::node::{ArrowNode, DiagramNode};
use crate::store::Store;
use diagram_terms::Node;
use smallvec::SmallVec;
use std::alloc::{AllocError, Global};

impl Store {
    /// The id of each node of a list, in order.
    #[tactic(auto, using(crate::proofs::Growth::growth))]
    pub fn put_nodes(&mut self, nodes: &[Node]) -> Result<Vec<AnyId>, AllocError>
        requires { AreNodes nodes.now }
        ensures ids { IfOk result (λ ids.
            GathersIds self.new ids.items (length nodes.now) (tree_at nodes.now)) }
        ensures grows { Grows self.old self.new }
    {
        let mut ids = Vec::new(self.allocator());
        for at in 0..nodes.len() {
            let id = self.put_node(nodes, at, &ids)?;
            ids.push(id)?;
        }
        Ok(ids)
    }

    /// The id of the node at a place, where the ids of the nodes before it are given.
    #[tactic(auto, using(crate::proofs::Growth::growth))]
    fn put_node(&mut self, nodes: &[Node], at: usize, ids: &[AnyId]) -> Result<AnyId, AllocError>
        requires form { AreNodes nodes.now }
        requires within { at < length nodes.now }
        requires ids { GathersIds self.old ids.now at (tree_at nodes.now) }
        ensures { Makes (λ x. x) self.old self.new (tree_at nodes.now at) result }
    {
        let alloc = self.allocator();
        match &nodes[at] {
            Node::Label(label) => {
                let d = self.put_diagram(DiagramNode::Zero(*label))?;
                Ok(AnyId::Diagram(d))
            }
            Node::Diagram {
                regs,
                sings,
                fwds,
                bwds,
            } => {
                let node = DiagramNode::Zig {
                    regs: diagrams_at(alloc, ids, regs.as_slice())?,
                    sings: diagrams_at(alloc, ids, sings.as_slice())?,
                    fwds: arrows_at(alloc, ids, fwds.as_slice())?,
                    bwds: arrows_at(alloc, ids, bwds.as_slice())?,
                };
                let d = self.put_diagram(node)?;
                Ok(AnyId::Diagram(d))
            }
            Node::Labels(from, to) => {
                let a = self.put_arrow(ArrowNode::Zero(*from, *to))?;
                Ok(AnyId::Arrow(a))
            }
            Node::Arrow {
                heights,
                regs,
                sings,
            } => {
                let node = ArrowNode::Zig {
                    heights: SmallVec::from_slice(alloc, heights.as_slice())?,
                    regs: arrows_at(alloc, ids, regs.as_slice())?,
                    sings: arrows_at(alloc, ids, sings.as_slice())?,
                };
                let a = self.put_arrow(node)?;
                Ok(AnyId::Arrow(a))
            }
        }
    }
}

/// The ids at these places, which are ids of diagrams.
fn diagrams_at(
    alloc: Global,
    ids: &[AnyId],
    places: &[usize],
) -> Result<SmallVec<DiagramId, 4>, AllocError>
    requires { AreDiagramsAt ids.now places.now }
    ensures { IfOk result (λ ds.
        NameDiagrams ids.now places.now (length places.now) ds.items) }
{
    let mut diagrams = SmallVec::new(alloc);
    for place in places {
        match ids[*place] {
            AnyId::Diagram(d) => diagrams.push(d)?,
            AnyId::Arrow(_) => unreachable!(),
        }
    }
    Ok(diagrams)
}

/// The ids at these places, which are ids of arrows.
fn arrows_at(
    alloc: Global,
    ids: &[AnyId],
    places: &[usize],
) -> Result<SmallVec<ArrowId, 4>, AllocError>
    requires { AreArrowsAt ids.now places.now }
    ensures { IfOk result (λ arrows.
        NameArrows ids.now places.now (length places.now) arrows.items) }
{
    let mut arrows = SmallVec::new(alloc);
    for place in places {
        match ids[*place] {
            AnyId::Arrow(a) => arrows.push(a)?,
            AnyId::Diagram(_) => unreachable!(),
        }
    }
    Ok(arrows)
}
