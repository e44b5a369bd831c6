ghost use Rattle.std.specs.Prelude.{◌≡◌, true, IfOk, OnOk};
ghost use Rattle.diagram_terms.specs.Completion.{same_tree};
ghost use Rattle.diagram_terms.specs.Typing.{IsWellTyped};
ghost use Rattle.hashcons.specs.Contents.{IsDiagramOf, diagram_at};
ghost use Rattle.session_state.specs.States.{IsState, Stays, present_of};
ghost use Rattle.workspace_json.specs.Steps.{known, new_name, referred, well_typed};
ghost use Rattle.workspace_json.specs.Workspaces.{generators_of};
ghost use Rattle.session_undo.specs.Outcomes.{Answers};

use crate::stop::Stop;
use diagram_terms::Text;
use hashcons::{DiagramId, Store};
use session_state::State;
use typecheck::Verdict;
use workspace_json::{Refusal, is_good_name};
use workspace_lists::Meaning;

/// Whether a name may be given: it is good, and stands for nothing yet.
pub(crate) fn new_name(state: &State, name: &Text) -> Result<(), Stop>
    requires { IsState state.now }
    ensures { Answers (λ _. tt) (new_name (present_of state.now) name.now) result }
{
    if !is_good_name(name.as_str()) {
        return Err(Stop::Refused(Refusal::NameBad));
    }
    match state.entries.names.meaning(name.as_str()) {
        Meaning::Free => Ok(()),
        _ => Err(Stop::Refused(Refusal::NameTaken)),
    }
}

/// The diagram that a term names.
pub(crate) fn find(state: &State, name: &Text) -> Result<DiagramId, Stop>
    requires { IsState state.now }
    ensures answer { Answers (diagram_at state.now.store) (known (present_of state.now) name.now) result }
    ensures of_store { IfOk result (λ d. IsDiagramOf state.now.store d) }
{
    let Some(d) = state.term(name.as_str()) else {
        let name = name.copy(state.store.allocator())?;
        return Err(Stop::Refused(Refusal::Unknown { name }));
    };
    Ok(d)
}

/// The diagram that a reference names.
pub(crate) fn find_reference(state: &State, text: &Text) -> Result<DiagramId, Stop>
    requires { IsState state.now }
    ensures answer { Answers (diagram_at state.now.store) (referred (present_of state.now) text.now) result }
    ensures of_store { IfOk result (λ d. IsDiagramOf state.now.store d) }
{
    let Some(d) = state.reference(text.as_str()) else {
        let name = text.copy(state.store.allocator())?;
        return Err(Stop::Refused(Refusal::Unknown { name }));
    };
    Ok(d)
}

/// Whether a diagram is well typed over the generators of the workspace.
pub(crate) fn check(state: &mut State, d: DiagramId) -> Result<(), Stop>
    requires state { IsState state.old }
    requires of_store { IsDiagramOf state.old.store d }
    ensures state { IsState state.new }
    ensures stays { Stays state.old state.new }
    ensures answer { Answers (λ _. tt) (well_typed (present_of state.old) (diagram_at state.old.store d)) result }
    ensures typed { OnOk result (IsWellTyped (generators_of (present_of state.old)) (diagram_at state.old.store d)) }
{
    match state.signature.check(&mut state.store, d)? {
        Verdict::Yes => Ok(()),
        Verdict::No(fault) => Err(Stop::Refused(Refusal::IllTyped(fault))),
    }
}

/// Whether two ids have one tree.
pub(crate) fn are_one(store: &Store, first: DiagramId, second: DiagramId) -> bool
    requires first { IsDiagramOf store.now first }
    requires second { IsDiagramOf store.now second }
    ensures trees { result ≡ same_tree (diagram_at store.now first) (diagram_at store.now second) }
    ensures ids { result ≡ true → first ≡ second }
{
    // The call says of the store that equal trees have equal ids.
    let _allocator = store.allocator();
    first == second
}
