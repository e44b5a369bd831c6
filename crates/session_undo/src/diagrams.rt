ghost use Rattle.std.specs.Prelude.{◌≡◌, ◌<◌};
ghost use Rattle.diagram_terms.specs.ConeTrees.{identity_diagram_tree};
ghost use Rattle.diagram_terms.specs.Dimension.{dimension_of};
ghost use Rattle.hashcons.specs.Contents.{Grows, IsDiagramOf, diagram_at};
ghost use Rattle.hashcons.specs.Made.{MakesDiagram};
ghost use Rattle.session_state.specs.States.{IsState, Stays, present_of, session_of};
ghost use Rattle.workspace_json.specs.Sessions.{change};
ghost use Rattle.workspace_json.specs.Steps.{boundary_change, end_of, identity_change};
ghost use Rattle.session_undo.specs.Outcomes.{ComesTo};

use crate::lookups::{find, new_name};
use crate::stop::Stop;
use crate::storing::store_diagram;
use boundary_paths::{identity_diagram, source, target};
use diagram_terms::{GREATEST_DIM, Side, Text};
use hashcons::{AnyId, DiagramId, Store};
use session_state::State;
use std::alloc::AllocError;
use workspace_json::{Refusal, Reply, Word};

/// Stores the identity diagram of a term.
pub(crate) fn identity_command(state: &mut State, name: &Text, of: &Text) -> Result<Reply, Stop>
    requires { IsState state.old }
    ensures state { IsState state.new }
    ensures grows { Grows state.old.store state.new.store }
    ensures comes { ComesTo
        (change (session_of state.old) (identity_change (present_of state.old) name.now of.now))
        (session_of state.old) (session_of state.new) result }
{
    new_name(state, name)?;
    let d = find(state, of)?;
    if state.store.dim(AnyId::Diagram(d)) >= GREATEST_DIM {
        return Err(Stop::Refused(Refusal::DimLimit));
    }
    let root = identity_of(state, d)?;
    store_diagram(state, Word::Identity, name, root)
}

/// The identity diagram of a diagram.
fn identity_of(state: &mut State, d: DiagramId) -> Result<DiagramId, AllocError>
    requires state { IsState state.old }
    requires of_store { IsDiagramOf state.old.store d }
    ensures state { IsState state.new }
    ensures stays { Stays state.old state.new }
    ensures made { MakesDiagram state.old.store state.new.store
        (identity_diagram_tree (diagram_at state.old.store d)) result }
{
    let alloc = state.store.allocator();
    identity_diagram(alloc, &mut state.store, d)
}

/// Stores an end of a term.
pub(crate) fn boundary_command(
    state: &mut State,
    name: &Text,
    of: &Text,
    side: Side,
) -> Result<Reply, Stop>
    requires { IsState state.old }
    ensures state { IsState state.new }
    ensures grows { Grows state.old.store state.new.store }
    ensures comes { ComesTo
        (change (session_of state.old) (boundary_change (present_of state.old) name.now of.now side))
        (session_of state.old) (session_of state.new) result }
{
    new_name(state, name)?;
    let d = find(state, of)?;
    if state.store.dim(AnyId::Diagram(d)) == 0 {
        return Err(Stop::Refused(Refusal::NoHeight { step: 0 }));
    }
    let root = end(&state.store, d, side);
    store_diagram(state, Word::Boundary, name, root)
}

fn end(store: &Store, d: DiagramId, side: Side) -> DiagramId
    requires of_store { IsDiagramOf store.now d }
    requires above { 0 < dimension_of (diagram_at store.now d) }
    ensures of_store { IsDiagramOf store.now result }
    ensures tree { diagram_at store.now result ≡ end_of side (diagram_at store.now d) }
{
    match side {
        Side::Source => source(store, d),
        Side::Target => target(store, d),
    }
}
