ghost use Rattle.std.specs.Prelude.{◌≡◌};
ghost use Rattle.session_state.specs.States.{IsState, session_of};
ghost use Rattle.workspace_json.specs.Sessions.{step};
ghost use Rattle.workspace_json.specs.declared.command.Command.TheVariants.{Redo, Undo};
ghost use Rattle.session_undo.specs.Outcomes.{ComesTo};

use crate::stop::Stop;
use session_state::State;
use workspace_json::{Refusal, Reply};

/// Takes the last accepted change back.
pub(crate) fn undo_command(state: &mut State) -> Result<Reply, Stop>
    requires { IsState state.old }
    ensures state { IsState state.new }
    ensures store { state.new.store ≡ state.old.store }
    ensures comes { ComesTo (step (session_of state.old) Undo) (session_of state.old) (session_of state.new) result }
{
    if state.undo() {
        Ok(Reply::Undo)
    } else {
        Err(Stop::Refused(Refusal::NothingToUndo))
    }
}

/// Makes the change that was taken back last again.
pub(crate) fn redo_command(state: &mut State) -> Result<Reply, Stop>
    requires { IsState state.old }
    ensures state { IsState state.new }
    ensures store { state.new.store ≡ state.old.store }
    ensures comes { ComesTo (step (session_of state.old) Redo) (session_of state.old) (session_of state.new) result }
{
    if state.redo() {
        Ok(Reply::Redo)
    } else {
        Err(Stop::Refused(Refusal::NothingToRedo))
    }
}
