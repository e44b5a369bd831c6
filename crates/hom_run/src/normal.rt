ghost use Rattle.std.specs.Prelude.{◌≡◌, ◌≤◌, ℕ, List, IfOk, IfSome, IsErrOf, Ok, OnErr, OnOk, Some, length, option_map};
ghost use Rattle.std.specs.Io.KnownBytes.{Appends};
ghost use Rattle.io_edge.specs.Counts.{Rose};
ghost use Rattle.io_edge.specs.Transfers.{AppendsPrefix};
ghost use Rattle.diagram_terms.specs.Nodes.{tree_at};
ghost use Rattle.hashcons.specs.Contents.{IsDiagramOf, diagram_at};
ghost use Rattle.node_json.specs.Documents.{IsArrowPlace, IsDiagramPlace, IsDocument};
ghost use Rattle.normalise.specs.NormalMaps.{AreMapsInto};
ghost use Rattle.session_undo.specs.NormalForms.{maps_called};
ghost use Rattle.workspace_json.specs.MapSteps.{map_at};
ghost use Rattle.workspace_json.specs.NormalSteps.{normal_reply as normal_reply_lem, normal_trees};
ghost use Rattle.workspace_lists.specs.Held.{IsMapOf, map_called};
ghost use Rattle.zigzag_maps.specs.Found.{IsValidDiagram};
ghost use Rattle.hom_run.specs.Full.{diagram_normal, map_normal, map_of, normalise_reply, normalises};
ghost use Rattle.hom_run.specs.Modes.{question_run};
ghost use Rattle.hom_run.specs.Named.{places_in};

use crate::nodes::{arrow_of, diagram_of};
use crate::slice::root_named;
use crate::status::Status;
use crate::writing::write_reply;
use diagram_terms::{Fault, Text};
use hashcons::{DiagramId, Store};
use io_edge::{Sink, WriteAllFault};
use normalise::{Normal, normalise};
use session_undo::first_bad_place;
use std::alloc::{AllocError, Global};
use workspace_json::{Document, Refusal, Reply};
use workspace_lists::printed_normal;
use zigzag_maps::{Map, SquareTest, valid};

/// The places of the ends and of the arrow of a map among the nodes of a document.
#[derive(Clone, Copy, Debug)]
struct MapPlaces {
    source: usize,
    target: usize,
    arrow: usize,
}

/// The places of the map of this name.
fn map_named(document: &Document, name: &str) -> Option<MapPlaces>
    ensures { result ≡ option_map places_in (map_of name.now document.now.maps) }
{
    document
        .maps
        .as_slice()
        .iter()
        .find(|entry| entry.name.as_str() == name)
        .map(|entry| MapPlaces {
            source: entry.source,
            target: entry.target,
            arrow: entry.arrow,
        })
}

/// The reply that tells the normal form of a valid diagram for legs into it.
fn reply_of(
    alloc: Global,
    store: &mut Store,
    name: &str,
    target: DiagramId,
    legs: &[Map],
) -> Result<Reply, AllocError>
    requires target { IsValidDiagram store.old target }
    requires legs { AreMapsInto store.old target legs.now }
    ensures { IfOk result (λ reply. (names : List (List ℕ)) → length names ≡ length legs.now
        → reply ≡ normal_reply_lem name.now (normal_trees (diagram_at store.old target) (maps_called store.old names legs.now))) }
{
    let name = Text::from_str(alloc, name)?;
    let Normal { map, factors } = normalise(alloc, store, target, legs)?;
    printed_normal(alloc, store, name, map.source, map.arrow, &factors)
}

/// What `normalise` says of a diagram.
fn diagram_reply(
    alloc: Global,
    store: &mut Store,
    name: &str,
    diagram: DiagramId,
) -> Result<Reply, AllocError>
    requires { IsDiagramOf store.old diagram }
    ensures { IfOk result (λ reply. reply ≡ diagram_normal name.now (diagram_at store.old diagram)) }
{
    match valid(alloc, store, diagram)? {
        SquareTest::Valid => reply_of(alloc, store, name, diagram, &[]),
        SquareTest::Fault(place) => {
            Ok(Reply::Refused(Refusal::IllTyped(Fault::SquareAt(place))))
        }
    }
}

/// What `normalise` says of a map.
fn map_reply(alloc: Global, store: &mut Store, name: &str, map: &Map) -> Result<Reply, AllocError>
    requires { IsMapOf store.old map.now }
    ensures { IfOk result (λ reply. reply ≡ map_normal name.now (map_called store.old name.now map.now)) }
{
    match first_bad_place(alloc, store, map)? {
        None => reply_of(alloc, store, name, map.target, &[*map]),
        Some(place) => Ok(Reply::Refused(Refusal::IllTyped(Fault::SquareAt(place)))),
    }
}

/// What `normalise` says of the diagram at a place of a document.
fn reply_of_diagram(
    alloc: Global,
    document: &Document,
    name: &str,
    root: usize,
) -> Result<Reply, AllocError>
    requires document { IsDocument document.now }
    requires place { IsDiagramPlace document.now.nodes root }
    ensures { IfOk result (λ reply. reply ≡ diagram_normal name.now (tree_at document.now.nodes root)) }
{
    let mut store = Store::new(alloc);
    let ids = store.put_nodes(document.nodes.as_slice())?;
    let diagram = diagram_of(ids[root]);
    diagram_reply(alloc, &mut store, name, diagram)
}

/// What `normalise` says of the map at these places of a document.
fn reply_of_map(
    alloc: Global,
    document: &Document,
    name: &str,
    places: &MapPlaces,
) -> Result<Reply, AllocError>
    requires document { IsDocument document.now }
    requires source { IsDiagramPlace document.now.nodes places.now.source }
    requires target { IsDiagramPlace document.now.nodes places.now.target }
    requires arrow { IsArrowPlace document.now.nodes places.now.arrow }
    ensures { IfOk result (λ reply. reply ≡ map_normal name.now
        (map_at name.now document.now.nodes places.now.source places.now.target places.now.arrow)) }
{
    let mut store = Store::new(alloc);
    let ids = store.put_nodes(document.nodes.as_slice())?;
    let map = Map {
        source: diagram_of(ids[places.source]),
        target: diagram_of(ids[places.target]),
        arrow: arrow_of(ids[places.arrow]),
    };
    map_reply(alloc, &mut store, name, &map)
}

/// What `normalise` replies to a document.
fn normal_reply(alloc: Global, document: &Document, name: &str) -> Result<Reply, AllocError>
    requires { IsDocument document.now }
    ensures { IfOk result (λ reply. reply ≡ normalise_reply document.now name.now) }
{
    if let Some(root) = root_named(document, name) {
        return reply_of_diagram(alloc, document, name, root);
    }
    if let Some(places) = map_named(document, name) {
        return reply_of_map(alloc, document, name, &places);
    }
    let name = Text::from_str(alloc, name)?;
    Ok(Reply::Refused(Refusal::Unknown { name }))
}

/// Writes the line of the normal form of the diagram of this name, or of the target of the map.
pub(crate) fn write_normal<K: Sink>(
    alloc: Global,
    document: &Document,
    name: &str,
    output: &mut K,
) -> Result<Status, WriteAllFault>
    requires { IsDocument document.now }
    ensures ok { IfOk result
        (λ status. status ≡ (question_run (Some (normalises name.now)) (Ok document.now)).status) }
    ensures wrote { OnOk result
        (Appends (K.written output.old) (K.written output.new) (question_run (Some (normalises name.now)) (Ok document.now)).text) }
    ensures err { OnErr result
        (AppendsPrefix (K.written output.old) (K.written output.new) (question_run (Some (normalises name.now)) (Ok document.now)).text) }
    ensures later { K.faults output.old ≤ K.faults output.new }
    ensures cause { IsErrOf result WriteAllFault.WriteFault
        → Rose (K.faults output.old) (K.faults output.new) }
{
    let reply = normal_reply(alloc, document, name)?;
    write_reply(alloc, &reply, output)
}
