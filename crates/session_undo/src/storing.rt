ghost use Rattle.std.specs.Prelude.{◌≡◌, ◌≤◌, Ok};
ghost use Rattle.diagram_terms.specs.declared.limits.TheConstants.{GREATEST_DIM};
ghost use Rattle.diagram_terms.specs.Dimension.{dimension_of};
ghost use Rattle.hashcons.specs.Contents.{Grows, IsDiagramOf, diagram_at};
ghost use Rattle.session_state.specs.States.{IsState, present_of, session_of};
ghost use Rattle.workspace_json.specs.Sessions.{change};
ghost use Rattle.workspace_json.specs.MapSteps.{added};
ghost use Rattle.workspace_json.specs.Steps.{new_name, stored};
ghost use Rattle.workspace_json.specs.Workspaces.{IsWorkspace, with_map};
ghost use Rattle.workspace_lists.specs.Held.{IsMapOf, map_called};
ghost use Rattle.session_undo.specs.Outcomes.{ComesTo, changed};

use crate::lookups::check;
use crate::stop::Stop;
use diagram_terms::Text;
use hashcons::{AnyId, DiagramId};
use session_state::{Edit, State};
use workspace_json::{Reply, Word};
use workspace_lists::{Named, NamedMap};
use zigzag_maps::Map;

/// Stores a diagram under a new name.
pub(crate) fn store_diagram(
    state: &mut State,
    word: Word,
    name: &Text,
    root: DiagramId,
) -> Result<Reply, Stop>
    requires state { IsState state.old }
    requires of_store { IsDiagramOf state.old.store root }
    requires new { new_name (present_of state.old) name.now ≡ Ok tt }
    requires low { dimension_of (diagram_at state.old.store root) ≤ GREATEST_DIM }
    ensures state { IsState state.new }
    ensures grows { Grows state.old.store state.new.store }
    ensures comes { ComesTo (change (session_of state.old)
        (stored (present_of state.old) word name.now (diagram_at state.old.store root)))
        (session_of state.old) (session_of state.new) result }
{
    check(state, root)?;
    let alloc = state.store.allocator();
    let reply = Reply::Stored {
        dim: state.store.dim(AnyId::Diagram(root)) as u8,
        length: state.store.length(root),
        name: name.copy(alloc)?,
        word,
    };
    let name = name.copy(alloc)?;
    state.make_room(name.as_str())?;
    let place = state.entries.workspace.diagrams.len();
    state.accept(Edit::PutDiagram {
        place,
        diagram: Named { name, root },
    });
    Ok(reply)
}

/// Adds a map under a new name.
pub(crate) fn add_map(state: &mut State, word: Word, name: &Text, map: Map) -> Result<Reply, Stop>
    requires state { IsState state.old }
    requires of_store { IsMapOf state.old.store map }
    requires rule { IsWorkspace (with_map (present_of state.old) (map_called state.old.store name.now map)) }
    ensures state { IsState state.new }
    ensures grows { Grows state.old.store state.new.store }
    ensures comes { ComesTo
        (change (session_of state.old) (Ok (added (present_of state.old) word (map_called state.old.store name.now map))))
        (session_of state.old) (session_of state.new) result }
{
    let said = name.copy(state.store.allocator())?;
    put_map(state, name, map, Reply::Named { name: said, word })
}

/// Adds a map under a new name, and answers this reply.
pub(crate) fn put_map(state: &mut State, name: &Text, map: Map, reply: Reply) -> Result<Reply, Stop>
    requires state { IsState state.old }
    requires of_store { IsMapOf state.old.store map }
    requires rule { IsWorkspace (with_map (present_of state.old) (map_called state.old.store name.now map)) }
    ensures state { IsState state.new }
    ensures grows { Grows state.old.store state.new.store }
    ensures comes { ComesTo
        (change (session_of state.old) (Ok (changed reply (with_map (present_of state.old) (map_called state.old.store name.now map)))))
        (session_of state.old) (session_of state.new) result }
{
    let name = name.copy(state.store.allocator())?;
    state.make_room(name.as_str())?;
    let place = state.entries.workspace.maps.len();
    state.accept(Edit::PutMap {
        place,
        map: NamedMap { name, map },
    });
    Ok(reply)
}
