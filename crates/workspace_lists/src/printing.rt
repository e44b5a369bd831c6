ghost use Rattle.std.specs.Prelude.{◌≡◌, IfOk, length};
ghost use Rattle.diagram_terms.specs.Dual.{AreBelow};
ghost use Rattle.hashcons.specs.Contents.{IsArrowOf, IsDiagramOf, diagram_at};
ghost use Rattle.workspace_json.specs.NormalSteps.{normal_reply};
ghost use Rattle.workspace_json.specs.Steps.{printed as printed_lem};
ghost use Rattle.workspace_lists.specs.Held.{normal_over};
ghost use Rattle.workspace_lists.specs.Roots.{normal_ids};

use diagram_terms::{Items, Text};
use hashcons::{AnyId, ArrowId, DiagramId, Store};
use std::alloc::{AllocError, Global};
use workspace_json::Reply;

/// The distinct subtrees of a diagram as nodes, and its place among them. Each is looked at once.
pub fn printed(store: &Store, d: DiagramId) -> Result<Reply, AllocError>
    requires { IsDiagramOf store.now d }
    ensures { IfOk result (λ reply. reply ≡ printed_lem (diagram_at store.now d)) }
{
    let (nodes, places) = store.list(&[AnyId::Diagram(d)])?;
    Ok(Reply::Slice {
        nodes: Items::from_vec(nodes),
        root: places[0],
    })
}

/// The distinct subtrees of a normal form, of the arrow from it and of some factors as nodes, and the
/// places of these among them. Each is looked at once.
pub fn printed_normal(
    alloc: Global,
    store: &Store,
    name: Text,
    source: DiagramId,
    arrow: ArrowId,
    factors: &[ArrowId],
) -> Result<Reply, AllocError>
    requires source { IsDiagramOf store.now source }
    requires arrow { IsArrowOf store.now arrow }
    requires factors { AreBelow factors.now (length store.now.arrows) }
    ensures { IfOk result (λ reply. reply ≡ normal_reply name (normal_over store.now source arrow factors.now)) }
{
    let roots = normal_roots(alloc, source, arrow, factors)?;
    let (nodes, places) = store.list(&roots)?;
    let (tops, rest) = places.split_at(2);
    Ok(Reply::Normalise {
        arrow: tops[1],
        factors: Items::from_slice(alloc, rest)?,
        name,
        nodes: Items::from_vec(nodes),
        source: tops[0],
    })
}

/// The ids of a normal form, of the arrow from it and of some factors.
fn normal_roots(
    alloc: Global,
    source: DiagramId,
    arrow: ArrowId,
    factors: &[ArrowId],
) -> Result<Vec<AnyId>, AllocError>
    ensures { IfOk result (λ ids. ids.items ≡ normal_ids source arrow factors.now) }
{
    let mut ids = Vec::new(alloc);
    ids.push(AnyId::Diagram(source))?;
    ids.push(AnyId::Arrow(arrow))?;
    for factor in factors {
        ids.push(AnyId::Arrow(*factor))?;
    }
    Ok(ids)
}
