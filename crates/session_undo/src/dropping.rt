ghost use Rattle.std.specs.Prelude.{◌≡◌, bytes_eq, position};
ghost use Rattle.hashcons.specs.Contents.{Grows};
ghost use Rattle.session_state.specs.States.{IsState, present_of, session_of};
ghost use Rattle.workspace_json.specs.Sessions.{change};
ghost use Rattle.workspace_json.specs.Steps.{drop_change};
ghost use Rattle.workspace_lists.specs.Held.{lists_in};
ghost use Rattle.session_undo.specs.Outcomes.{ComesTo, taking, taking_by};

use crate::stop::Stop;
use diagram_terms::Text;
use session_state::{Edit, State};
use workspace_json::{Refusal, Reply, Word};
use workspace_lists::Workspace;

/// Takes the stored diagram or the stored map of a name away. Those behind it move up.
pub(crate) fn drop_command(state: &mut State, name: &Text) -> Result<Reply, Stop>
    requires { IsState state.old }
    ensures state { IsState state.new }
    ensures grows { Grows state.old.store state.new.store }
    ensures comes { ComesTo (change (session_of state.old) (drop_change (present_of state.old) name.now))
        (session_of state.old) (session_of state.new) result }
{
    let alloc = state.store.allocator();
    let copy = name.copy(alloc)?;
    let Some(edit) = taking(&state.entries.workspace, name) else {
        return Err(Stop::Refused(Refusal::Unknown { name: copy }));
    };
    state.make_room(name.as_str())?;
    state.accept(edit);
    Ok(Reply::Named {
        name: copy,
        word: Word::Drop,
    })
}

/// The edit that takes away the stored diagram or the stored map of a name, if one has it.
fn taking(workspace: &Workspace, name: &Text) -> Option<Edit>
    ensures { result ≡ taking (lists_in workspace.now) name.now }
{
    edit_at(diagram_place(workspace, name), map_place(workspace, name))
}

fn diagram_place(workspace: &Workspace, name: &Text) -> Option<usize>
    ensures { result ≡ position (λ d. bytes_eq d.name name.now) workspace.now.diagrams.items }
{
    workspace
        .diagrams
        .iter()
        .position(|diagram| diagram.name.as_str() == name.as_str())
}

fn map_place(workspace: &Workspace, name: &Text) -> Option<usize>
    ensures { result ≡ position (λ m. bytes_eq m.name name.now) workspace.now.maps.items }
{
    workspace
        .maps
        .iter()
        .position(|map| map.name.as_str() == name.as_str())
}

fn edit_at(diagram: Option<usize>, map: Option<usize>) -> Option<Edit>
    ensures { result ≡ taking_by diagram map }
{
    match diagram {
        Some(place) => Some(Edit::TakeDiagram { place }),
        None => match map {
            Some(place) => Some(Edit::TakeMap { place }),
            None => None,
        },
    }
}
