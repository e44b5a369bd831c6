ghost use Rattle.std.specs.Prelude.{◌≡◌, IfOk, OnOk};
ghost use Rattle.hashcons.specs.Contents.{Grows, IsArrowOf, IsDiagramOf};
ghost use Rattle.zigzag_maps.specs.Found.{IsValidMap};
ghost use Rattle.degeneracy.specs.DegeneracyTrees.{IsDegeneracyMap};

use degeneracy::{factor, is_degeneracy, split};
use hashcons::{AnyId, Store};
use std::alloc::Global;
use std::test::Fail;
use store_fixtures::{arrow_at, diagram_at, document_of};
use zigzag_maps::{Map, SquareTest, identity, squares, valid};

/// The map at these places of the nodes of a document: its source, its target and its arrow.
#[tactic(auto, using(hashcons::proofs::Growth::growth))]
fn map_at(
    alloc: Global,
    store: &mut Store,
    nodes: &str,
    places: (usize, usize, usize),
) -> Result<Map, Fail>
    ensures source { IfOk result (λ m. IsDiagramOf store.new m.source) }
    ensures target { IfOk result (λ m. IsDiagramOf store.new m.target) }
    ensures arrow { IfOk result (λ m. IsArrowOf store.new m.arrow) }
    ensures grows { Grows store.old store.new }
{
    let document = document_of(alloc, nodes)?;
    let ids = store.put_nodes(document.nodes.as_slice())?;
    let source = diagram_at(&ids, places.0)?;
    let target = diagram_at(&ids, places.1)?;
    let arrow = arrow_at(&ids, places.2)?;
    Ok(Map {
        source,
        target,
        arrow,
    })
}

/// Fails if a map is not valid.
#[tactic(auto, using(hashcons::proofs::Growth::growth))]
fn check_map(alloc: Global, store: &mut Store, map: &Map) -> Result<(), Fail>
    requires source { IsDiagramOf store.old map.now.source }
    requires target { IsDiagramOf store.old map.now.target }
    requires arrow { IsArrowOf store.old map.now.arrow }
    ensures valid { OnOk result (IsValidMap store.new map.now) }
    ensures grows { Grows store.old store.new }
{
    let SquareTest::Valid = valid(alloc, store, map.source)? else {
        return Err(Fail::from("the source is not valid"));
    };
    let SquareTest::Valid = valid(alloc, store, map.target)? else {
        return Err(Fail::from("the target is not valid"));
    };
    let SquareTest::Valid = squares(alloc, store, *map)? else {
        return Err(Fail::from("the map is not valid"));
    };
    Ok(())
}

/// The map at these places, which has to be valid.
#[tactic(auto, using(hashcons::proofs::Growth::growth))]
pub(crate) fn map_of(
    alloc: Global,
    store: &mut Store,
    nodes: &str,
    places: (usize, usize, usize),
) -> Result<Map, Fail>
    ensures valid { IfOk result (IsValidMap store.new) }
    ensures grows { Grows store.old store.new }
{
    let map = map_at(alloc, store, nodes, places)?;
    check_map(alloc, store, &map)?;
    Ok(map)
}

/// The maps at two places, which have to be valid.
pub(crate) fn maps_of(
    alloc: Global,
    store: &mut Store,
    nodes: &str,
    one: (usize, usize, usize),
    other: (usize, usize, usize),
) -> Result<(Map, Map), Fail>
    ensures one { IfOk result (λ maps. IsValidMap store.new maps.0) }
    ensures other { IfOk result (λ maps. IsValidMap store.new maps.1) }
{
    let one = map_of(alloc, store, nodes, one)?;
    let other = map_of(alloc, store, nodes, other)?;
    Ok((one, other))
}

/// Fails if a map is no degeneracy.
fn check_degeneracy(alloc: Global, store: &mut Store, map: Map) -> Result<(), Fail>
    requires { IsValidMap store.old map }
    ensures degeneracy { OnOk result (IsDegeneracyMap store.new map) }
    ensures grows { Grows store.old store.new }
{
    if is_degeneracy(alloc, store, map)? {
        Ok(())
    } else {
        Err(Fail::from("the map is no degeneracy"))
    }
}

/// The factor of a map through a degeneracy with the same target.
#[tactic(auto, using(degeneracy::proofs::DegeneraciesInStore::degenerating))]
pub(crate) fn factor_of(
    alloc: Global,
    store: &mut Store,
    f: Map,
    d: Map,
) -> Result<Option<Map>, Fail>
    requires inner { IsValidMap store.old f }
    requires outer { IsValidMap store.old d }
    ensures { Grows store.old store.new }
{
    if f.target != d.target {
        return Err(Fail::from("the targets differ"));
    }
    check_degeneracy(alloc, store, d)?;
    Ok(factor(alloc, store, f, d)?)
}

/// Whether the factor of a degeneracy through itself is the identity of its source.
#[tactic(auto, using(degeneracy::proofs::DegeneraciesInStore::degenerating))]
pub(crate) fn has_unit_factor(alloc: Global, store: &mut Store, map: &Map) -> Result<bool, Fail>
    requires { IsValidMap store.old map.now }
{
    let source = map.source;
    let found = factor_of(alloc, store, *map, *map)?;
    let unit = identity(alloc, store, source)?;
    Ok(found == Some(unit))
}

/// The two parts of a degeneracy, which has to be above dimension 0.
#[tactic(auto, using(degeneracy::proofs::DegeneraciesInStore::degenerating))]
fn parts_of(alloc: Global, store: &mut Store, d: Map) -> Result<(Map, Map), Fail>
    requires { IsValidMap store.old d }
    ensures { Grows store.old store.new }
{
    check_degeneracy(alloc, store, d)?;
    if store.dim(AnyId::Arrow(d.arrow)) == 0 {
        return Err(Fail::from("the map has dimension 0"));
    }
    Ok(split(alloc, store, d)?)
}

/// Whether the parts of a degeneracy are itself and an identity: it first if it is simple, and else last.
#[tactic(auto, using(degeneracy::proofs::DegeneraciesInStore::degenerating))]
pub(crate) fn has_parts(
    alloc: Global,
    store: &mut Store,
    map: &Map,
    is_simple: bool,
) -> Result<bool, Fail>
    requires { IsValidMap store.old map.now }
{
    let source = map.source;
    let target = map.target;
    let arrow = map.arrow;
    let (first, second) = parts_of(alloc, store, *map)?;
    let before = identity(alloc, store, source)?;
    let behind = identity(alloc, store, target)?;
    if is_simple {
        Ok(first.arrow == arrow && second.arrow == behind.arrow)
    } else {
        Ok(first.arrow == before.arrow && second.arrow == arrow)
    }
}
