ghost use Rattle.hashcons.specs.Contents.{Grows};
ghost use Rattle.session_state.specs.States.{IsState, session_of};
ghost use Rattle.workspace_json.specs.Forms.{HasForm};
ghost use Rattle.workspace_json.specs.Sessions.{step};
ghost use Rattle.session_undo.specs.Outcomes.{ComesTo};

use crate::diagrams::{boundary_command, identity_command};
use crate::dropping::drop_command;
use crate::generators::generator_command;
use crate::maps::{bring_command, compose_command};
use crate::normal_forms::normalise_command;
use crate::reading::{equal_command, save_command, slice_command, stats_command};
use crate::stop::Stop;
use crate::turning::{redo_command, undo_command};
use session_state::State;
use workspace_json::{Command, Reply};

/// Does what a command says. Where it goes no further, the session is as it was.
pub(crate) fn apply(state: &mut State, command: &Command) -> Result<Reply, Stop>
    requires state { IsState state.old }
    requires form { HasForm command.now }
    ensures state { IsState state.new }
    ensures grows { Grows state.old.store state.new.store }
    ensures comes { ComesTo (step (session_of state.old) command.now)
        (session_of state.old) (session_of state.new) result }
{
    match command {
        Command::Bring {
            name,
            nodes,
            source,
            target,
            arrow,
        } => bring_command(state, name, nodes.as_slice(), *source, *target, *arrow),
        Command::Compose { name, first, then_ } => compose_command(state, name, first, then_),
        Command::Normalise { name, of, legs } => normalise_command(
            state,
            name,
            of,
            legs.as_slice(),
        ),
        Command::Generator {
            name,
            source,
            target,
        } => generator_command(state, name, source, target),
        Command::Identity { name, of } => identity_command(state, name, of),
        Command::Boundary { name, of, side } => boundary_command(state, name, of, *side),
        Command::Drop { name } => drop_command(state, name),
        Command::Slice { of, path } => slice_command(state, of, path.as_slice()),
        Command::Equal { one, two } => equal_command(state, one, two),
        Command::Stats => stats_command(state),
        Command::Save => save_command(state),
        Command::Undo => undo_command(state),
        Command::Redo => redo_command(state),
    }
}
