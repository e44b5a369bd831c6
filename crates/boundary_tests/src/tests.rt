ghost use Rattle.std.specs.Prelude.{IfOk};
ghost use Rattle.hashcons.specs.Contents.{IsDiagramOf};

use boundary_paths::{source, target};
use hashcons::{AnyId, DiagramId, Store};
use std::alloc::Global;
use std::test::Fail;
use store_fixtures::{diagram_at, document_of};

mod boundaries;
mod loose_legs;
mod verdicts;

/// What is answered over a new store. A function that has a store of its own is dear to prove, so
/// this is the only one.
fn over_new_store<R, F: FnOnce(&mut Store) -> R>(alloc: Global, answer: F) -> R
    requires { F.IsAlwaysCallable answer }
{
    let mut store = Store::new(alloc);
    answer(&mut store)
}

/// The ids of these nodes, and the diagram at a place among them.
fn put_diagram_of(
    alloc: Global,
    store: &mut Store,
    nodes: &str,
    place: usize,
) -> Result<(Vec<AnyId>, DiagramId), Fail>
    ensures { IfOk result (λ r. IsDiagramOf store.new r.1) }
{
    let document = document_of(alloc, nodes)?;
    let ids = store.put_nodes(document.nodes.as_slice())?;
    let d = diagram_at(&ids, place)?;
    Ok((ids, d))
}

/// Both ends of a diagram above dimension 0.
fn ends_of(store: &Store, d: DiagramId) -> Option<(DiagramId, DiagramId)>
    requires { IsDiagramOf store.now d }
{
    if store.dim(AnyId::Diagram(d)) == 0 {
        return None;
    }
    Some((source(store, d), target(store, d)))
}

/// The dimension, the length and both ends of a diagram.
fn read_of(store: &Store, d: DiagramId) -> (usize, usize, Option<(DiagramId, DiagramId)>)
    requires { IsDiagramOf store.now d }
{
    let dim = store.dim(AnyId::Diagram(d));
    (dim, store.length(d), ends_of(store, d))
}
