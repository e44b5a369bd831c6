ghost use Rattle.std.specs.Prelude.{◌≡◌, IfOk, OnOk};
ghost use Rattle.diagram_terms.specs.FaultsOnTrees.{diagram_fault};
ghost use Rattle.diagram_terms.specs.Nodes.{AreNodes, tree_at};
ghost use Rattle.hashcons.specs.Contents.{Grows, IsArrowOf, IsDiagramOf};
ghost use Rattle.node_json.specs.Documents.{IsDiagramPlace};
ghost use Rattle.zigzag_maps.specs.Found.{IsValidDiagram, IsValidMap};
ghost use Rattle.zigzag_maps.specs.Visits.{fault_of};

use crate::signatures::cones_over_types;
use crate::unshared::unshared;
use diagram_terms::{Node, Place, first_bad_square};
use hashcons::{ArrowId, DiagramId, Store};
use node_json::Document;
use plain_maps::plain;
use std::alloc::{AllocError, Global};
use std::test::Fail;
use store_fixtures::{arrow_at, diagram_at, document_of};
use zigzag_maps::{Map, SquareTest, compose, identity, squares, valid};

/// What is answered over a new store. A function that has a store of its own is dear to prove, so
/// this is the only one.
pub(crate) fn over_new_store<R, F: FnOnce(&mut Store) -> R>(alloc: Global, answer: F) -> R
    requires { F.IsAlwaysCallable answer }
{
    let mut store = Store::new(alloc);
    answer(&mut store)
}

/// The places of the ends and of the arrow of a map.
#[derive(Clone, Copy)]
pub(crate) struct MapPlaces {
    pub(crate) source: usize,
    pub(crate) target: usize,
    pub(crate) arrow: usize,
}

/// The map at these places of the nodes of a document.
fn map_of(alloc: Global, store: &mut Store, nodes: &str, places: MapPlaces) -> Result<Map, Fail>
    ensures source { IfOk result (λ m. IsDiagramOf store.new m.source) }
    ensures target { IfOk result (λ m. IsDiagramOf store.new m.target) }
    ensures arrow { IfOk result (λ m. IsArrowOf store.new m.arrow) }
{
    let document = document_of(alloc, nodes)?;
    let ids = store.put_nodes(document.nodes.as_slice())?;
    let source = diagram_at(&ids, places.source)?;
    let target = diagram_at(&ids, places.target)?;
    let arrow = arrow_at(&ids, places.arrow)?;
    Ok(Map {
        source,
        target,
        arrow,
    })
}

/// Fails if a diagram is not valid.
fn check_valid(alloc: Global, store: &mut Store, d: DiagramId) -> Result<(), Fail>
    requires { IsDiagramOf store.old d }
    ensures valid { OnOk result (IsValidDiagram store.new d) }
    ensures grows { Grows store.old store.new }
{
    match valid(alloc, store, d)? {
        SquareTest::Valid => Ok(()),
        SquareTest::Fault(_) => Err(Fail::from("an end is not valid")),
    }
}

/// Fails if an end of a map is not valid.
fn check_ends(alloc: Global, store: &mut Store, map: &Map) -> Result<(), Fail>
    requires source { IsDiagramOf store.old map.now.source }
    requires target { IsDiagramOf store.old map.now.target }
    ensures source { OnOk result (IsValidDiagram store.new map.now.source) }
    ensures target { OnOk result (IsValidDiagram store.new map.now.target) }
    ensures grows { Grows store.old store.new }
{
    check_valid(alloc, store, map.source)?;
    check_valid(alloc, store, map.target)?;
    Ok(())
}

/// What `squares` says of a map, whose ends have to be valid.
fn squares_of(alloc: Global, store: &mut Store, map: &Map) -> Result<SquareTest, Fail>
    requires source { IsDiagramOf store.old map.now.source }
    requires target { IsDiagramOf store.old map.now.target }
    requires arrow { IsArrowOf store.old map.now.arrow }
    ensures valid { IfOk result (λ test. test ≡ SquareTest.Valid → IsValidMap store.new map.now) }
    ensures grows { Grows store.old store.new }
{
    check_ends(alloc, store, map)?;
    Ok(squares(alloc, store, *map)?)
}

/// The place of the fault that a test found, if it found one.
fn place_of(test: SquareTest) -> Option<Place>
    ensures { result ≡ fault_of test }
{
    match test {
        SquareTest::Valid => None,
        SquareTest::Fault(place) => Some(place),
    }
}

/// Where the map at these places of the nodes of a document fails first. Its ends have to be valid.
pub(crate) fn map_fault(
    store: &mut Store,
    nodes: &str,
    places: MapPlaces,
) -> Result<Option<Place>, Fail> {
    let alloc = store.allocator();
    let map = map_of(alloc, store, nodes, places)?;
    Ok(place_of(squares_of(alloc, store, &map)?))
}

/// Fails if a map is not valid.
fn check_map(alloc: Global, store: &mut Store, map: &Map) -> Result<(), Fail>
    requires source { IsDiagramOf store.old map.now.source }
    requires target { IsDiagramOf store.old map.now.target }
    requires arrow { IsArrowOf store.old map.now.arrow }
    ensures valid { OnOk result (IsValidMap store.new map.now) }
    ensures grows { Grows store.old store.new }
{
    match squares_of(alloc, store, map)? {
        SquareTest::Valid => Ok(()),
        SquareTest::Fault(_) => Err(Fail::from("the map is not valid")),
    }
}

/// The map at these places, which has to be valid.
fn valid_map_of(
    alloc: Global,
    store: &mut Store,
    nodes: &str,
    places: MapPlaces,
) -> Result<Map, Fail>
    ensures { IfOk result (IsValidMap store.new) }
{
    let map = map_of(alloc, store, nodes, places)?;
    check_map(alloc, store, &map)?;
    Ok(map)
}

/// The identity of a diagram, which has to be a valid map.
#[tactic(auto, using(hashcons::proofs::Growth::growth))]
fn valid_identity(alloc: Global, store: &mut Store, d: DiagramId) -> Result<Map, Fail>
    requires { IsDiagramOf store.old d }
    ensures source { IfOk result (λ m. m.source ≡ d) }
    ensures target { IfOk result (λ m. m.target ≡ d) }
    ensures valid { IfOk result (IsValidMap store.new) }
    ensures grows { Grows store.old store.new }
{
    let unit = identity(alloc, store, d)?;
    check_map(alloc, store, &unit)?;
    Ok(unit)
}

/// The composite of a map after the identity of its source.
fn after_identity(alloc: Global, store: &mut Store, map: &Map) -> Result<Map, Fail>
    requires { IsValidMap store.old map.now }
    ensures { Grows store.old store.new }
{
    let unit = valid_identity(alloc, store, map.source)?;
    Ok(compose(alloc, store, *map, unit)?)
}

/// The composite of the identity of the target of a map after the map.
fn before_identity(alloc: Global, store: &mut Store, map: &Map) -> Result<Map, Fail>
    requires { IsValidMap store.old map.now }
{
    let unit = valid_identity(alloc, store, map.target)?;
    Ok(compose(alloc, store, unit, *map)?)
}

/// Both of these composites.
fn both_composites(alloc: Global, store: &mut Store, map: &Map) -> Result<(Map, Map), Fail>
    requires { IsValidMap store.old map.now }
{
    let after = after_identity(alloc, store, map)?;
    let before = before_identity(alloc, store, map)?;
    Ok((after, before))
}

/// Where an identity of the source of a map is noted, what is noted as the composite of the map
/// after it, and as that of it after the map.
fn noted_composites(store: &Store, map: &Map) -> Option<(Option<ArrowId>, Option<ArrowId>)> {
    let unit = store.known_identity(map.source)?;
    let after = store.known_composite(map.arrow, unit);
    let before = store.known_composite(unit, map.arrow);
    Some((after, before))
}

/// A map, its composites after the identity of its source and before that of its target, and what is
/// noted then.
#[derive(Drop)]
pub(crate) struct UnitComposites {
    pub(crate) map: Map,
    pub(crate) after_identity: Map,
    pub(crate) before_identity: Map,
    pub(crate) noted: Option<(Option<ArrowId>, Option<ArrowId>)>,
}

/// These of the map at these places, which has to be valid.
pub(crate) fn unit_composites(
    store: &mut Store,
    nodes: &str,
    places: MapPlaces,
) -> Result<UnitComposites, Fail> {
    let alloc = store.allocator();
    let map = valid_map_of(alloc, store, nodes, places)?;
    let (after_identity, before_identity) = both_composites(alloc, store, &map)?;
    let noted = noted_composites(store, &map);
    Ok(UnitComposites {
        map,
        after_identity,
        before_identity,
        noted,
    })
}

/// Whether the arrow of the map at these places is plain. The map has to be valid.
pub(crate) fn plain_of(store: &mut Store, nodes: &str, places: MapPlaces) -> Result<bool, Fail> {
    let map = valid_map_of(store.allocator(), store, nodes, places)?;
    Ok(plain(store, map))
}

/// The cones over two types, each beside the map at its places.
pub(crate) fn cones_beside(
    store: &mut Store,
    nodes: &str,
    places: (MapPlaces, MapPlaces),
) -> Result<((Map, Map), (Map, Map)), Fail> {
    let alloc = store.allocator();
    let (over_arrow, over_square) = cones_over_types(alloc, store)?;
    let first = map_of(alloc, store, nodes, places.0)?;
    let second = map_of(alloc, store, nodes, places.1)?;
    Ok(((over_arrow, first), (over_square, second)))
}

/// Where the plain tree at a place is not valid first.
fn plain_fault(alloc: Global, nodes: &[Node], place: usize) -> Result<Option<Place>, AllocError>
    requires form { AreNodes nodes.now }
    requires diagram { IsDiagramPlace nodes.now place }
    ensures { IfOk result (λ found. found ≡ diagram_fault (tree_at nodes.now place)) }
{
    let tree = unshared(alloc, nodes, place)?;
    first_bad_square(alloc, &tree)
}

/// A document of these nodes, and the diagram at a place of them in the store.
fn put_diagram_of(
    store: &mut Store,
    nodes: &str,
    place: usize,
) -> Result<(Document, DiagramId), Fail>
    ensures form { IfOk result (λ r. AreNodes r.0.nodes) }
    ensures place { IfOk result (λ r. IsDiagramPlace r.0.nodes place) }
    ensures of_store { IfOk result (λ r. IsDiagramOf store.new r.1) }
{
    let document = document_of(store.allocator(), nodes)?;
    let ids = store.put_nodes(document.nodes.as_slice())?;
    let d = diagram_at(&ids, place)?;
    Ok((document, d))
}

/// Where the diagram at a place of the nodes of a document fails first: as a plain tree, and in a
/// store.
pub(crate) fn diagram_faults(
    store: &mut Store,
    nodes: &str,
    place: usize,
) -> Result<(Option<Place>, Option<Place>), Fail> {
    let alloc = store.allocator();
    let (document, d) = put_diagram_of(store, nodes, place)?;
    let plain = plain_fault(alloc, document.nodes.as_slice(), place)?;
    let stored = place_of(valid(alloc, store, d)?);
    Ok((plain, stored))
}
