ghost use Rattle.session_state.specs.States.{IsState, present_of};
ghost use Rattle.workspace_json.specs.Steps.{equal_answer, save_answer, slice_answer, stats_answer};
ghost use Rattle.session_undo.specs.Outcomes.{Answers};

use crate::lookups::{are_one, find_reference};
use crate::stop::Stop;
use boundary_paths::slice;
use diagram_terms::{Height, Text};
use session_state::State;
use workspace_json::Reply;
use workspace_lists::{document, printed, stats};

/// The slice of a reference along a path.
pub(crate) fn slice_command(state: &State, of: &Text, path: &[Height]) -> Result<Reply, Stop>
    requires { IsState state.now }
    ensures { Answers (λ reply. reply) (slice_answer (present_of state.now) of.now path.now) result }
{
    let d = find_reference(state, of)?;
    let found = slice(&state.store, d, path)?;
    Ok(printed(&state.store, found)?)
}

/// Whether two references are one diagram.
pub(crate) fn equal_command(state: &State, one: &Text, two: &Text) -> Result<Reply, Stop>
    requires { IsState state.now }
    ensures { Answers (λ reply. reply) (equal_answer (present_of state.now) one.now two.now) result }
{
    let first = find_reference(state, one)?;
    let second = find_reference(state, two)?;
    Ok(Reply::Equal {
        value: are_one(&state.store, first, second),
    })
}

/// What the workspace holds, in numbers.
pub(crate) fn stats_command(state: &State) -> Result<Reply, Stop>
    requires { IsState state.now }
    ensures { Answers (λ reply. reply) (stats_answer (present_of state.now)) result }
{
    let counts = stats(
        state.store.allocator(),
        &state.store,
        &state.entries.workspace,
    )?;
    Ok(Reply::Stats {
        arrows: counts.arrows,
        diagrams: counts.diagrams,
        generators: counts.generators,
        maps: counts.maps,
        named: counts.named,
    })
}

/// The document of the workspace.
pub(crate) fn save_command(state: &State) -> Result<Reply, Stop>
    requires { IsState state.now }
    ensures { Answers (λ reply. reply) (save_answer (present_of state.now)) result }
{
    let document = document(
        state.store.allocator(),
        &state.store,
        &state.entries.workspace,
    )?;
    Ok(Reply::Save { document })
}
