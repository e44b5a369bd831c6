ghost use Rattle.std.specs.Prelude.{◌≡◌, ◌≤◌, ◌∷◌, ◌++◌, [], ℕ, List, Ok, OnErr, OnOk, Option, IfOk, length};
ghost use Rattle.hashcons.specs.Contents.{Grows};
ghost use Rattle.session_state.specs.States.{HasRoomForOne, IsState, present_of, session_of};
ghost use Rattle.workspace_json.specs.Sessions.{change};
ghost use Rattle.workspace_json.specs.Steps.{both, generator_change, known_boundary, new_name};
ghost use Rattle.hashcons.specs.Made.{Makes};
ghost use Rattle.diagram_terms.specs.GeneratorTypes.{type_of_generator};
ghost use Rattle.typecheck.specs.Outcomes.{add_outcome};
ghost use Rattle.typecheck.specs.Signatures.{IsBoundaryOf, IsGoodOver, entry_of, generator_in, generators_of};
ghost use Rattle.session_undo.specs.Added.{IsAdded};
ghost use Rattle.session_undo.specs.Outcomes.{Answers, ComesTo};

use crate::lookups::{find, new_name};
use crate::stop::Stop;
use diagram_terms::{Label, Text};
use hashcons::{AnyId, DiagramId, Store};
use session_state::{Edit, State};
use typecheck::{AddRefusal, Signature};
use workspace_json::Reply;
use workspace_lists::{Generator, Meaning};

/// A generator that a signature got: its label and its type.
#[derive(Clone, Copy)]
struct Added {
    label: Label,
    type_of: DiagramId,
}

/// Adds a generator and makes its type. Where one of them fails, the generators are as they were.
fn add_generator(
    store: &mut Store,
    signature: &mut Signature,
    boundary: Option<(DiagramId, DiagramId)>,
) -> Result<Added, AddRefusal>
    requires good { IsGoodOver store.old signature.old }
    requires of_store { IsBoundaryOf store.old boundary }
    ensures exact { IsAdded (add_outcome (generators_of store.old signature.old) (generator_in store.old boundary)) result }
    ensures added { OnOk result
        (signature.new.entries ≡ signature.old.entries ++ entry_of store.old boundary ∷ []) }
    ensures made { Makes (λ a. AnyId.Diagram a.type_of) store.old store.new
        (type_of_generator (length signature.old.entries) (generator_in store.old boundary)) result }
    ensures unchanged { OnErr result (signature.new.entries ≡ signature.old.entries) }
    ensures spare { OnErr result (signature.old.spare ≤ signature.new.spare) }
    ensures good { IsGoodOver store.new signature.new }
{
    let label = signature.add(store, boundary)?;
    match signature.generator_type(store, label.number as usize) {
        Ok(type_of) => Ok(Added { label, type_of }),
        Err(error) => {
            signature.remove_last();
            Err(AddRefusal::from(error))
        }
    }
}

/// Adds a generator with the terms of these names as its source and target, or without a
/// boundary.
pub(crate) fn generator_command(
    state: &mut State,
    name: &Text,
    source: &Option<Text>,
    target: &Option<Text>,
) -> Result<Reply, Stop>
    requires { IsState state.old }
    ensures state { IsState state.new }
    ensures grows { Grows state.old.store state.new.store }
    ensures comes { ComesTo
        (change (session_of state.old) (generator_change (present_of state.old) name.now source.now target.now))
        (session_of state.old) (session_of state.new) result }
{
    new_name(state, name)?;
    let boundary = find_boundary(state, source, target)?;
    state.make_room(name.as_str())?;
    let alloc = state.store.allocator();
    let own = name.copy(alloc)?;
    let said = name.copy(alloc)?;
    add_new(state, own, said, &boundary)
}

/// Adds a generator with a new name, for which there is room.
fn add_new(
    state: &mut State,
    name: Text,
    said: Text,
    boundary: &Option<(DiagramId, DiagramId)>,
) -> Result<Reply, Stop>
    requires state { IsState state.old }
    requires of_store { IsBoundaryOf state.old.store boundary.now }
    requires new { new_name (present_of state.old) name ≡ Ok tt }
    requires same { said ≡ name }
    requires room { HasRoomForOne state.old name }
    ensures state { IsState state.new }
    ensures grows { Grows state.old.store state.new.store }
    ensures comes { (source target : Option (List ℕ))
        → known_boundary (present_of state.old) (both source target) ≡ Ok (generator_in state.old.store boundary.now)
        → ComesTo (change (session_of state.old) (generator_change (present_of state.old) name source target))
        (session_of state.old) (session_of state.new) result }
{
    let added = add_generator(&mut state.store, &mut state.signature, *boundary)?;
    let Label { dim, number } = added.label;
    state.accept(Edit::PutGenerator {
        generator: Generator {
            name,
            dim,
            boundary: *boundary,
        },
        meaning: Meaning::Generator(added.type_of),
    });
    Ok(Reply::Generator {
        dim,
        name: said,
        number,
    })
}

/// The boundary of a generator, where both of its ends are named.
fn find_boundary(
    state: &State,
    source: &Option<Text>,
    target: &Option<Text>,
) -> Result<Option<(DiagramId, DiagramId)>, Stop>
    requires { IsState state.now }
    ensures answer { Answers (generator_in state.now.store)
        (known_boundary (present_of state.now) (both source.now target.now)) result }
    ensures of_store { IfOk result (λ b. IsBoundaryOf state.now.store b) }
{
    match (source, target) {
        (Some(source), Some(target)) => {
            let first = find(state, source)?;
            let second = find(state, target)?;
            Ok(Some((first, second)))
        }
        _ => Ok(None),
    }
}
