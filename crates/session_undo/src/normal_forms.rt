ghost use Rattle.std.specs.Prelude.{◌≡◌, ◌++◌, ◌∷◌, [], ℕ, List, IfOk, Ok, OnOk, length, true};
ghost use Rattle.std.specs.List.{All, list_all};
ghost use Rattle.diagram_terms.specs.Completion.{same_tree};
ghost use Rattle.hashcons.specs.Contents.{Grows, IsDiagramOf, diagram_at};
ghost use Rattle.normalise.specs.NormalMaps.{AreMapsInto};
ghost use Rattle.session_state.specs.States.{IsState, Stays, present_of, session_of};
ghost use Rattle.workspace_json.specs.NormalSteps.{known_maps, normal_trees, normalise_change, with_normal};
ghost use Rattle.workspace_json.specs.Sessions.{change};
ghost use Rattle.workspace_json.specs.Workspaces.{IsWorkspace, with_map};
ghost use Rattle.workspace_lists.specs.Held.{map_called};
ghost use Rattle.zigzag_maps.specs.Found.{IsValidDiagram, IsValidMap};
ghost use Rattle.session_undo.specs.NormalForms.{IsNormalHeld, maps_called, normal_in};
ghost use Rattle.session_undo.specs.Outcomes.{Answers, ComesTo};

use crate::lookups::{find_reference, new_name};
use crate::maps::find_map;
use crate::stop::Stop;
use crate::storing::put_map;
use diagram_terms::Text;
use hashcons::{DiagramId, Store};
use normalise::{Normal, normalise};
use session_state::State;
use std::alloc::AllocError;
use workspace_json::{Refusal, Reply};
use workspace_lists::printed_normal;
use zigzag_maps::Map;

/// Adds the map from the normal form of a reference relative to stored maps into it.
pub(crate) fn normalise_command(
    state: &mut State,
    name: &Text,
    of: &Text,
    legs: &[Text],
) -> Result<Reply, Stop>
    requires { IsState state.old }
    ensures state { IsState state.new }
    ensures grows { Grows state.old.store state.new.store }
    ensures comes { ComesTo
        (change (session_of state.old) (normalise_change (present_of state.old) name.now of.now legs.now))
        (session_of state.old) (session_of state.new) result }
{
    new_name(state, name)?;
    let target = find_reference(state, of)?;
    let maps = find_maps(state, legs)?;
    if are_into(&state.store, target, &maps) {
        let normal = normal_of(state, target, &maps)?;
        add_normal(state, name, normal)
    } else {
        Err(Stop::Refused(Refusal::EndsDiffer))
    }
}

/// The stored maps of some names, in their order.
fn find_maps(state: &State, names: &[Text]) -> Result<Vec<Map>, Stop>
    requires { IsState state.now }
    ensures answer { Answers (λ maps. maps_called state.now.store names.now maps.items)
        (known_maps (present_of state.now) names.now) result }
    ensures count { IfOk result (λ maps. length maps.items ≡ length names.now) }
    ensures valid { IfOk result (λ maps. All (IsValidMap state.now.store) maps.items) }
{
    let mut maps = Vec::new(state.store.allocator());
    for name in names {
        push_map(&mut maps, find_map(state, name)?)?;
    }
    Ok(maps)
}

fn push_map(maps: &mut Vec<Map>, map: Map) -> Result<(), AllocError>
    ensures { OnOk result (maps.new.items ≡ maps.old.items ++ map ∷ []) }
{
    maps.push(map)?;
    Ok(())
}

/// Whether maps are into this diagram.
fn are_into(store: &Store, target: DiagramId, maps: &[Map]) -> bool
    requires target { IsDiagramOf store.now target }
    requires maps { All (IsValidMap store.now) maps.now }
    ensures trees { (names : List (List ℕ)) → length names ≡ length maps.now
        → result ≡ list_all (λ m. same_tree m.target (diagram_at store.now target)) (maps_called store.now names maps.now) }
    ensures into { result ≡ true → AreMapsInto store.now target maps.now }
{
    // The call says of the store that equal trees have equal ids.
    let _allocator = store.allocator();
    maps.iter().all(|map| map.target == target)
}

/// The normal form of a diagram relative to maps into it.
fn normal_of(state: &mut State, target: DiagramId, legs: &[Map]) -> Result<Normal, AllocError>
    requires state { IsState state.old }
    requires target { IsValidDiagram state.old.store target }
    requires legs { AreMapsInto state.old.store target legs.now }
    ensures state { IsState state.new }
    ensures stays { Stays state.old state.new }
    ensures target { IfOk result (λ n. n.map.target ≡ target) }
    ensures held { IfOk result (IsNormalHeld state.new.store) }
    ensures trees { IfOk result (λ n. (names : List (List ℕ)) → length names ≡ length legs.now
        → normal_in state.new.store n
        ≡ normal_trees (diagram_at state.old.store target) (maps_called state.old.store names legs.now)) }
{
    let alloc = state.store.allocator();
    normalise(alloc, &mut state.store, target, legs)
}

/// Adds the map of a normal form under a new name.
fn add_normal(state: &mut State, name: &Text, normal: Normal) -> Result<Reply, Stop>
    requires state { IsState state.old }
    requires held { IsNormalHeld state.old.store normal }
    requires rule { IsWorkspace (with_map (present_of state.old) (map_called state.old.store name.now normal.map)) }
    ensures state { IsState state.new }
    ensures grows { Grows state.old.store state.new.store }
    ensures comes { ComesTo
        (change (session_of state.old) (Ok (with_normal (present_of state.old) name.now
        (diagram_at state.old.store normal.map.target) (normal_in state.old.store normal))))
        (session_of state.old) (session_of state.new) result }
{
    let alloc = state.store.allocator();
    let Normal { map, factors } = normal;
    let said = name.copy(alloc)?;
    let reply = printed_normal(alloc, &state.store, said, map.source, map.arrow, &factors)?;
    put_map(state, name, map, reply)
}
