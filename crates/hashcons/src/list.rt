ghost use Rattle.std.specs.Prelude.{◌≡◌, ◌<◌, IfOk, length, map, vec_len};
ghost use Rattle.diagram_terms.specs.Completion.{distinct_subtrees, node_of, subtree_nodes, root_places};
ghost use Rattle.diagram_terms.specs.Dual.{AreBelow};
ghost use Rattle.diagram_terms.specs.Nodes.{trees_of, tree_at};
ghost use Rattle.hashcons.specs.Contents.{IsStore, diagram_at, arrow_at};
ghost use Rattle.hashcons.specs.Ids.{tree_of, id_at};
ghost use Rattle.hashcons.specs.Listing.{AreOf, listed, IsListing, NameEarlier, StandsIn, IsFirstPlace, AllStandIn, ArePlacesOf, diagram_ids, arrow_ids};
ghost use Rattle.indexmap.specs.IndexSet.{index_set_len};

use crate::id::{AnyId, ArrowId, DiagramId};
use crate::store::Store;
use crate::view::{ArrowView, DiagramView, Held};
use diagram_terms::{Items, Node};
use indexmap::IndexSet;
use std::alloc::{AllocError, Global};

impl Store {
    /// The printed form of some roots: their distinct subtrees as nodes, in the order in which they
    /// are first completed, and the place of each root.
    pub fn list(&self, roots: &[AnyId]) -> Result<(Vec<Node>, Vec<usize>), AllocError>
        requires { AreOf self.now roots.now }
        ensures nodes { IfOk result (λ r.
            r.0.items ≡ subtree_nodes (map (tree_of self.now) roots.now)) }
        ensures places { IfOk result (λ r.
            r.1.items ≡ root_places (map (tree_of self.now) roots.now)) }
        ensures trees { IfOk result (λ r.
            trees_of r.0.items ≡ distinct_subtrees (map (tree_of self.now) roots.now)) }
        ensures earlier { IfOk result (λ r. NameEarlier r.0.items) }
        ensures roots { IfOk result (λ r.
            map (tree_at r.0.items) r.1.items ≡ map (tree_of self.now) roots.now) }
        ensures within { IfOk result (λ r. AreBelow r.1.items (vec_len r.0)) }
    {
        let order = self.completed(roots)?;
        let nodes = self.nodes_in(&order)?;
        let places = root_places(self.allocator(), &order, roots)?;
        Ok((nodes, places))
    }

    /// The ids under the roots, in the order in which they are first completed.
    fn completed(&self, roots: &[AnyId]) -> Result<IndexSet<AnyId>, AllocError>
        requires { AreOf self.now roots.now }
        ensures listing { IfOk result (λ order. IsListing self.now order.keys) }
        ensures trees { IfOk result (λ order.
            listed self.now order.keys ≡ distinct_subtrees (map (tree_of self.now) roots.now)) }
        ensures store { IsStore self.now }
    {
        let mut order = IndexSet::new(self.allocator());
        for root in roots {
            self.visit(*root, &mut order)?;
        }
        Ok(order)
    }

    /// The nodes of a listing, over the places in it.
    fn nodes_in(&self, order: &IndexSet<AnyId>) -> Result<Vec<Node>, AllocError>
        requires store { IsStore self.now }
        requires listing { IsListing self.now order.now.keys }
        ensures { IfOk result (λ nodes.
            nodes.items ≡ map (node_of (listed self.now order.now.keys)) (listed self.now order.now.keys)) }
    {
        let mut nodes = Vec::new(self.allocator());
        for at in 0..order.len() {
            let node = self.node_at(order, at)?;
            nodes.push(node)?;
        }
        Ok(nodes)
    }

    /// The node at a place of a listing, over the places of its children.
    fn node_at(&self, order: &IndexSet<AnyId>, at: usize) -> Result<Node, AllocError>
        requires store { IsStore self.now }
        requires listing { IsListing self.now order.now.keys }
        requires within { at < index_set_len order.now }
        ensures { IfOk result (λ n.
            n ≡ node_of (listed self.now order.now.keys) (tree_of self.now (id_at order.now.keys at))) }
    {
        match order[at] {
            AnyId::Diagram(d) => self.diagram_node(order, d),
            AnyId::Arrow(a) => self.arrow_node(order, a),
        }
    }

    /// The node of a diagram that stands in a listing, over the places of its children.
    fn diagram_node(&self, order: &IndexSet<AnyId>, d: DiagramId) -> Result<Node, AllocError>
        requires store { IsStore self.now }
        requires listing { IsListing self.now order.now.keys }
        requires stands { StandsIn order.now.keys (AnyId.Diagram d) }
        ensures { IfOk result (λ n. n ≡ node_of (listed self.now order.now.keys) (diagram_at self.now d)) }
    {
        let alloc = self.allocator();
        match self.view_diagram(d) {
            DiagramView::Zero(label) => Ok(Node::Label(label)),
            DiagramView::Zig {
                regs,
                sings,
                fwds,
                bwds,
            } => Ok(Node::Diagram {
                regs: diagram_places(alloc, order, &regs)?,
                sings: diagram_places(alloc, order, &sings)?,
                fwds: arrow_places(alloc, order, &fwds)?,
                bwds: arrow_places(alloc, order, &bwds)?,
            }),
        }
    }

    /// The node of an arrow that stands in a listing, over the places of its children.
    fn arrow_node(&self, order: &IndexSet<AnyId>, a: ArrowId) -> Result<Node, AllocError>
        requires store { IsStore self.now }
        requires listing { IsListing self.now order.now.keys }
        requires stands { StandsIn order.now.keys (AnyId.Arrow a) }
        ensures { IfOk result (λ n. n ≡ node_of (listed self.now order.now.keys) (arrow_at self.now a)) }
    {
        let alloc = self.allocator();
        match self.view_arrow(a) {
            ArrowView::Zero(from, to) => Ok(Node::Labels(from, to)),
            ArrowView::Zig {
                heights,
                regs,
                sings,
            } => Ok(Node::Arrow {
                heights: numbers_of(alloc, &heights)?,
                regs: arrow_places(alloc, order, &regs)?,
                sings: arrow_places(alloc, order, &sings)?,
            }),
        }
    }
}

/// The places of roots in a listing.
fn root_places(
    alloc: Global,
    order: &IndexSet<AnyId>,
    roots: &[AnyId],
) -> Result<Vec<usize>, AllocError>
    requires { AllStandIn order.now.keys roots.now }
    ensures { IfOk result (λ places.
        ArePlacesOf order.now.keys roots.now (length roots.now) places.items) }
{
    let mut places = Vec::new(alloc);
    for root in roots {
        places.push(place_of(order, *root))?;
    }
    Ok(places)
}

/// The places of diagrams in a listing.
fn diagram_places(
    alloc: Global,
    order: &IndexSet<AnyId>,
    ds: &Held<'_>,
) -> Result<Items<usize>, AllocError>
    requires { AllStandIn order.now.keys (diagram_ids ds.now) }
    ensures { IfOk result (λ places.
        ArePlacesOf order.now.keys (diagram_ids ds.now) (length ds.now) places) }
{
    let mut places = Vec::new(alloc);
    for at in 0..ds.len() {
        let d = DiagramId { index: ds.at(at) };
        places.push(place_of(order, AnyId::Diagram(d)))?;
    }
    Ok(Items::from_vec(places))
}

/// The places of arrows in a listing.
fn arrow_places(
    alloc: Global,
    order: &IndexSet<AnyId>,
    arrows: &Held<'_>,
) -> Result<Items<usize>, AllocError>
    requires { AllStandIn order.now.keys (arrow_ids arrows.now) }
    ensures { IfOk result (λ places.
        ArePlacesOf order.now.keys (arrow_ids arrows.now) (length arrows.now) places) }
{
    let mut places = Vec::new(alloc);
    for at in 0..arrows.len() {
        let a = ArrowId {
            index: arrows.at(at),
        };
        places.push(place_of(order, AnyId::Arrow(a)))?;
    }
    Ok(Items::from_vec(places))
}

/// A list of numbers as items.
fn numbers_of(alloc: Global, held: &Held<'_>) -> Result<Items<usize>, AllocError>
    ensures { IfOk result (λ numbers. numbers ≡ held.now) }
{
    let mut numbers = Vec::new(alloc);
    for at in 0..held.len() {
        numbers.push(held.at(at))?;
    }
    Ok(Items::from_vec(numbers))
}

/// The place of an id in a listing.
fn place_of(order: &IndexSet<AnyId>, id: AnyId) -> usize
    requires { StandsIn order.now.keys id }
    ensures { IsFirstPlace order.now.keys id result }
{
    match order.get_index_of(&id) {
        Some(place) => place,
        None => unreachable!(),
    }
}
