ghost use Rattle.std.specs.Prelude.{◌≡◌, ℕ, List, IfOk, None, option_map};
ghost use Rattle.diagram_terms.specs.FaultsOnTrees.{diagram_fault};
ghost use Rattle.diagram_terms.specs.Places.{further_in};
ghost use Rattle.hashcons.specs.Contents.{Grows, IsDiagramOf, diagram_at};
ghost use Rattle.hashcons.specs.Ids.{IsArrowId, IsDiagramId};
ghost use Rattle.session_state.specs.States.{IsState, Stays, present_of, session_of};
ghost use Rattle.workspace_json.specs.Forms.{IsBrought};
ghost use Rattle.workspace_json.specs.Maps.{composite_map, map_fault, map_place};
ghost use Rattle.workspace_json.specs.MapSteps.{bring_change, compose_change, known_map, map_at};
ghost use Rattle.workspace_json.specs.Sessions.{change};
ghost use Rattle.workspace_json.specs.Steps.{no_fault};
ghost use Rattle.workspace_lists.specs.Held.{IsMapOf, map_called};
ghost use Rattle.zigzag_maps.specs.Found.{IsValidDiagram, IsValidMap};
ghost use Rattle.session_undo.specs.Outcomes.{Answers, ComesTo};

use crate::lookups::{are_one, new_name};
use crate::stop::Stop;
use crate::storing::add_map;
use diagram_terms::{Fault, Node, Place, Step, Text, place_under};
use hashcons::{AnyId, ArrowId, DiagramId, Store};
use session_state::State;
use std::alloc::{AllocError, Global};
use workspace_json::{Refusal, Reply, Word};
use zigzag_maps::{Map, SquareTest, compose, squares, valid};

/// Adds the map whose ends and arrow stand at these places of the nodes.
pub(crate) fn bring_command(
    state: &mut State,
    name: &Text,
    nodes: &[Node],
    source: usize,
    target: usize,
    arrow: usize,
) -> Result<Reply, Stop>
    requires state { IsState state.old }
    requires brought { IsBrought nodes.now source target arrow }
    ensures state { IsState state.new }
    ensures grows { Grows state.old.store state.new.store }
    ensures comes { ComesTo
        (change (session_of state.old) (bring_change (present_of state.old) name.now nodes.now source target arrow))
        (session_of state.old) (session_of state.new) result }
{
    new_name(state, name)?;
    let map = put_brought(state, nodes, source, target, arrow)?;
    check_map(state, &map)?;
    add_map(state, Word::Bring, name, map)
}

/// Puts the nodes into the store, and answers the map at these places.
fn put_brought(
    state: &mut State,
    nodes: &[Node],
    source: usize,
    target: usize,
    arrow: usize,
) -> Result<Map, AllocError>
    requires state { IsState state.old }
    requires brought { IsBrought nodes.now source target arrow }
    ensures state { IsState state.new }
    ensures stays { Stays state.old state.new }
    ensures of_store { IfOk result (λ m. IsMapOf state.new.store m) }
    ensures map { IfOk result (λ m. (name : List ℕ)
        → map_called state.new.store name m ≡ map_at name nodes.now source target arrow) }
{
    // The call says of the store that it is one.
    let _allocator = state.store.allocator();
    let ids = state.store.put_nodes(nodes)?;
    Ok(Map {
        source: diagram_of(ids[source]),
        target: diagram_of(ids[target]),
        arrow: arrow_of(ids[arrow]),
    })
}

fn diagram_of(id: AnyId) -> DiagramId
    requires { IsDiagramId id }
    ensures { id ≡ AnyId.Diagram result }
{
    match id {
        AnyId::Diagram(diagram) => diagram,
        AnyId::Arrow(_) => unreachable!(),
    }
}

fn arrow_of(id: AnyId) -> ArrowId
    requires { IsArrowId id }
    ensures { id ≡ AnyId.Arrow result }
{
    match id {
        AnyId::Diagram(_) => unreachable!(),
        AnyId::Arrow(arrow) => arrow,
    }
}

/// Whether a map is valid: its source, its target, and then its arrow between them.
fn check_map(state: &mut State, map: &Map) -> Result<(), Stop>
    requires state { IsState state.old }
    requires of_store { IsMapOf state.old.store map.now }
    ensures state { IsState state.new }
    ensures stays { Stays state.old state.new }
    ensures answer { (name : List ℕ)
        → Answers (λ _. tt) (no_fault (map_fault (map_called state.old.store name map.now))) result }
{
    let alloc = state.store.allocator();
    match first_bad_place(alloc, &mut state.store, map)? {
        None => Ok(()),
        Some(place) => Err(Stop::Refused(Refusal::IllTyped(Fault::SquareAt(place)))),
    }
}

/// The first bad place of a map: of its source, else of its target, else of its arrow.
pub fn first_bad_place(
    alloc: Global,
    store: &mut Store,
    map: &Map,
) -> Result<Option<Place>, AllocError>
    requires { IsMapOf store.old map.now }
    ensures exact { IfOk result (λ found. (name : List ℕ) → found ≡ map_place (map_called store.old name map.now)) }
    ensures valid { IfOk result (λ found. found ≡ None → IsValidMap store.new map.now) }
    ensures grows { Grows store.old store.new }
{
    if let Some(place) = end_fault(alloc, store, map.source, Step::SourceEnd)? {
        return Ok(Some(place));
    }
    if let Some(place) = end_fault(alloc, store, map.target, Step::TargetEnd)? {
        return Ok(Some(place));
    }
    match squares(alloc, store, *map)? {
        SquareTest::Valid => Ok(None),
        SquareTest::Fault(place) => Ok(Some(place)),
    }
}

/// The first bad place of an end, behind the step to it.
fn end_fault(
    alloc: Global,
    store: &mut Store,
    d: DiagramId,
    step: Step,
) -> Result<Option<Place>, AllocError>
    requires { IsDiagramOf store.old d }
    ensures exact { IfOk result (λ found. found ≡ option_map (further_in step) (diagram_fault (diagram_at store.old d))) }
    ensures valid { IfOk result (λ found. found ≡ None → IsValidDiagram store.new d) }
    ensures grows { Grows store.old store.new }
{
    match valid(alloc, store, d)? {
        SquareTest::Valid => Ok(None),
        SquareTest::Fault(place) => Ok(Some(place_under(alloc, step, place)?)),
    }
}

/// Adds the composite of two stored maps: the first, and then the other.
pub(crate) fn compose_command(
    state: &mut State,
    name: &Text,
    first: &Text,
    second: &Text,
) -> Result<Reply, Stop>
    requires { IsState state.old }
    ensures state { IsState state.new }
    ensures grows { Grows state.old.store state.new.store }
    ensures comes { ComesTo
        (change (session_of state.old) (compose_change (present_of state.old) name.now first.now second.now))
        (session_of state.old) (session_of state.new) result }
{
    new_name(state, name)?;
    let f = find_map(state, first)?;
    let g = find_map(state, second)?;
    if are_one(&state.store, f.target, g.source) {
        let map = composite_of(state, g, f)?;
        add_map(state, Word::Compose, name, map)
    } else {
        Err(Stop::Refused(Refusal::EndsDiffer))
    }
}

/// The stored map of a name.
pub(crate) fn find_map(state: &State, name: &Text) -> Result<Map, Stop>
    requires { IsState state.now }
    ensures answer { Answers (map_called state.now.store name.now) (known_map (present_of state.now) name.now) result }
    ensures valid { IfOk result (IsValidMap state.now.store) }
{
    let Some(map) = state.map_named(name.as_str()) else {
        let name = name.copy(state.store.allocator())?;
        return Err(Stop::Refused(Refusal::Unknown { name }));
    };
    Ok(map)
}

fn composite_of(state: &mut State, g: Map, f: Map) -> Result<Map, AllocError>
    requires state { IsState state.old }
    requires outer { IsValidMap state.old.store g }
    requires inner { IsValidMap state.old.store f }
    requires meet { f.target ≡ g.source }
    ensures state { IsState state.new }
    ensures stays { Stays state.old state.new }
    ensures of_store { IfOk result (λ m. IsMapOf state.new.store m) }
    ensures map { IfOk result (λ m. (name one two : List ℕ) → map_called state.new.store name m
        ≡ composite_map name (map_called state.old.store one g) (map_called state.old.store two f)) }
{
    let alloc = state.store.allocator();
    compose(alloc, &mut state.store, g, f)
}
