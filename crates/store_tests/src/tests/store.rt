ghost use Rattle.std.specs.Prelude.{IfOk};
ghost use Rattle.hashcons.specs.Contents.{Grows, IsArrowOf, IsDiagramOf};
ghost use Rattle.hashcons.specs.Listing.{AreOf};

use super::{LOOP, over_new_store};
use diagram_terms::{Label, Node};
use hashcons::{AnyId, ArrowId, DiagramId, Store, same};
use std::alloc::{AllocError, Global};
use std::test::Fail;
use store_fixtures::{document_of, label_of, pair_of, put_label, put_pair};

const X: Label = Label { number: 0, dim: 0 };

const F: Label = Label { number: 1, dim: 1 };

/// Whether these are the nodes of the loop.
fn are_loop_nodes(nodes: &[Node]) -> bool {
    let [
        Node::Label(x),
        Node::Label(f),
        Node::Labels(from, to),
        Node::Diagram {
            regs,
            sings,
            fwds,
            bwds,
        },
    ] = nodes
    else {
        return false;
    };
    *x == X
        && *f == F
        && *from == X
        && *to == F
        && regs.as_slice() == [0, 0].as_slice()
        && sings.as_slice() == [1].as_slice()
        && fwds.as_slice() == [2].as_slice()
        && bwds.as_slice() == [2].as_slice()
}

/// The ids of the nodes of the loop, and their ids when they are put again.
fn put_twice(store: &mut Store) -> Result<(Vec<AnyId>, Vec<AnyId>), Fail> {
    let document = document_of(store.allocator(), LOOP)?;
    let ids = store.put_nodes(document.nodes.as_slice())?;
    let again = store.put_nodes(document.nodes.as_slice())?;
    Ok((ids, again))
}

/// Whether the ids at two places are the same.
fn same_at(ids: &[AnyId], place: usize, others: &[AnyId], other: usize) -> Option<bool> {
    Some(same(*ids.get(place)?, *others.get(other)?))
}

#[test]
fn puts_each_node_once(rt: HostRuntime) -> Result<(), Fail> {
    let (ids, again) = over_new_store(rt.alloc(), put_twice)?;
    assert_eq!(rt; ids.len(), 4);
    assert_eq!(rt; ids.as_slice(), again.as_slice());
    assert_eq!(rt; same_at(&ids, 3, &again, 3), Some(true));
    assert_eq!(rt; same_at(&ids, 0, &ids, 2), Some(false));
    Ok(())
}

/// The ids of the nodes of the loop.
fn put(store: &mut Store) -> Result<Vec<AnyId>, Fail>
    ensures { IfOk result (λ ids. AreOf store.new ids.items) }
{
    let document = document_of(store.allocator(), LOOP)?;
    Ok(store.put_nodes(document.nodes.as_slice())?)
}

/// The ids at these places.
#[tactic(auto, using(crate::proofs::Roots::root_ids))]
fn roots_at(store: &Store, ids: &[AnyId], places: &[usize]) -> Result<Vec<AnyId>, Fail>
    requires { AreOf store.now ids.now }
    ensures { IfOk result (λ roots. AreOf store.now roots.items) }
{
    let mut roots = Vec::new(store.allocator());
    for place in places {
        let Some(id) = ids.get(*place) else {
            return Err(Fail::from("nothing stands at the place"));
        };
        roots.push(*id)?;
    }
    Ok(roots)
}

/// What is listed, and how many ids were put.
#[derive(Drop)]
struct Listed {
    nodes: Vec<Node>,
    places: Vec<usize>,
    put: usize,
}

/// What the store lists of the loop, from the ids at these places.
fn list_from(store: &mut Store, from: &[usize]) -> Result<Listed, Fail> {
    let ids = put(store)?;
    let roots = roots_at(store, &ids, from)?;
    let (nodes, places) = store.list(&roots)?;
    Ok(Listed {
        nodes,
        places,
        put: ids.len(),
    })
}

/// What a new store lists of the loop, from the ids at these places.
fn list_loop(alloc: Global, from: &[usize]) -> Result<Listed, Fail> {
    over_new_store(alloc, |store| list_from(store, from))
}

#[test]
fn lists_subtrees_as_they_are_completed(rt: HostRuntime) -> Result<(), Fail> {
    let whole = list_loop(rt.alloc(), &[3])?;
    assert_eq!(rt; whole.put, 4);
    assert!(rt; are_loop_nodes(&whole.nodes));
    assert_eq!(rt; whole.places.as_slice(), [3].as_slice());
    let three = list_loop(rt.alloc(), &[2, 3, 0])?;
    assert_eq!(rt; three.places.as_slice(), [0, 3, 1].as_slice());
    Ok(())
}

/// The diagram of F, and the arrow from X to F.
#[tactic(auto, using(hashcons::proofs::Growth::growth))]
fn put_both(store: &mut Store) -> Result<(DiagramId, ArrowId), AllocError>
    ensures diagram { IfOk result (λ ids. IsDiagramOf store.new ids.0) }
    ensures arrow { IfOk result (λ ids. IsArrowOf store.new ids.1) }
    ensures grows { Grows store.old store.new }
{
    let f = put_label(store, F)?;
    let leg = put_pair(store, X, F)?;
    Ok((f, leg))
}

/// What is read of a diagram and of an arrow.
#[derive(Clone, Copy)]
struct Parts {
    label: Option<Label>,
    length: usize,
    labels: Option<(Label, Label)>,
    dim: usize,
}

fn parts_of(store: &Store, d: DiagramId, a: ArrowId) -> Parts
    requires diagram { IsDiagramOf store.now d }
    requires arrow { IsArrowOf store.now a }
{
    Parts {
        label: label_of(store, d),
        length: store.length(d),
        labels: pair_of(store, a),
        dim: store.dim(AnyId::Arrow(a)),
    }
}

/// The ids of both, their ids when they are put again, and what is then read of them.
#[tactic(auto, using(hashcons::proofs::Growth::growth))]
fn put_both_twice(
    store: &mut Store,
) -> Result<((DiagramId, ArrowId), (DiagramId, ArrowId), Parts), AllocError> {
    let first = put_both(store)?;
    let again = put_both(store)?;
    Ok((first, again, parts_of(store, first.0, first.1)))
}

#[test]
fn reads_what_was_put(rt: HostRuntime) -> Result<(), Fail> {
    let ((f, leg), (f_again, leg_again), parts) = over_new_store(rt.alloc(), put_both_twice)?;
    assert_eq!(rt; f, f_again);
    assert_eq!(rt; leg, leg_again);
    assert_eq!(rt; parts.label, Some(F));
    assert_eq!(rt; parts.length, 0);
    assert_eq!(rt; parts.labels, Some((X, F)));
    assert_eq!(rt; parts.dim, 0);
    Ok(())
}
