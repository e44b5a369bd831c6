use crate::commands::apply;
use crate::lookups::are_one;
use crate::stop::Stop;
use hashcons::Store;
use session_state::State;
use std::alloc::{AllocError, Global};
use std::marker::Model;
use workspace_json::{Command, Refusal, Reply};
use workspace_lists::{Stats, Workspace, stats};

/// No change is left to be undone.
#[derive(Clone, Copy, Debug, PartialEq, Eq)]
pub struct NothingToUndo;

/// No undone change is left to be made again.
#[derive(Clone, Copy, Debug, PartialEq, Eq)]
pub struct NothingToRedo;

/// A workspace that commands change and read, the workspaces before it, and those that were undone.
///
/// Contracts see the store, and the session of trees. Each workspace of it is one by the rule: its
/// diagrams are well typed over its generators.
#[derive(Drop)]
pub struct Session {
    state: State,
}

impl Model for Session {
    ghost use Rattle.session_undo.specs.Views.{SessionView, coded_view};

    ghost Value = { SessionView };

    ghost coded = { coded_view };

    ghost use Rattle.session_state.specs.States.{IsState, session_of};

    ghost view = { λ s. record { store = s.state.store; session = session_of s.state } };

    ghost invariant = { λ s. IsState s.state };
}

impl Session {
    ghost use Rattle.std.specs.Prelude.{◌≡◌, Some, None, IfOk, OnErr, OnOk, MatchResult};
    ghost use Rattle.hashcons.specs.Contents.{Grows};
    ghost use Rattle.workspace_json.specs.Forms.{HasForm};
    ghost use Rattle.workspace_json.specs.Saved.{stats_of};
    ghost use Rattle.workspace_json.specs.Sessions.{IsSession, new_session, redone, step, undone};
    ghost use Rattle.workspace_lists.specs.Held.{IsHeld, workspace_in};
    ghost use Rattle.session_undo.specs.Equals.{equal_references};

    /// An empty workspace with no past and no future. It takes no memory.
    pub fn new(alloc: Global) -> Session
        ensures { result.session ≡ new_session }
    {
        Session {
            state: State::new(alloc),
        }
    }

    /// The workspace, over the ids of the store. It takes no memory.
    pub fn workspace(&self) -> &Workspace
        ensures held { IsHeld self.now.store result.now }
        ensures trees { workspace_in self.now.store result.now ≡ self.now.session.present }
        ensures rule { IsSession self.now.session }
    {
        &self.state.entries.workspace
    }

    /// The store that holds all diagrams of the session. It takes no memory.
    pub fn store(&self) -> &Store
        ensures store { result.now ≡ self.now.store }
    {
        &self.state.store
    }

    /// Does what a command says, and answers the reply to it. After a refusal, or where there is no
    /// memory, the workspace, the past and the future are as before.
    pub fn apply(&mut self, command: &Command) -> Result<Reply, AllocError>
        requires { HasForm command.now }
        ensures step { IfOk result (λ reply.
            step self.old.session command.now ≡ record { reply = reply; session = self.new.session }) }
        ensures err { OnErr result (self.new.session ≡ self.old.session) }
        ensures rule { IsSession self.new.session }
        ensures grows { Grows self.old.store self.new.store }
    {
        match apply(&mut self.state, command) {
            Ok(reply) => Ok(reply),
            Err(Stop::Refused(refusal)) => Ok(Reply::Refused(refusal)),
            Err(Stop::NoMemory) => Err(AllocError),
        }
    }

    /// Takes the last accepted change back. It takes no memory.
    #[tactic(auto, using(crate::proofs::UndoneAndRedone::redo_after_undo, crate::proofs::UndoneAndRedone::session_rule))]
    pub fn undo(&mut self) -> Result<(), NothingToUndo>
        ensures undone { MatchResult result (λ _. undone self.old.session ≡ Some self.new.session)
            (λ _. (undone self.old.session ≡ None) × (self.new.session ≡ self.old.session)) }
        ensures back { OnOk result (redone self.new.session ≡ Some self.old.session) }
        ensures rule { IsSession self.new.session }
        ensures store { self.new.store ≡ self.old.store }
    {
        if self.state.undo() {
            Ok(())
        } else {
            Err(NothingToUndo)
        }
    }

    /// Makes the change that was taken back last again. It takes no memory.
    #[tactic(auto, using(crate::proofs::UndoneAndRedone::undo_after_redo, crate::proofs::UndoneAndRedone::session_rule))]
    pub fn redo(&mut self) -> Result<(), NothingToRedo>
        ensures redone { MatchResult result (λ _. redone self.old.session ≡ Some self.new.session)
            (λ _. (redone self.old.session ≡ None) × (self.new.session ≡ self.old.session)) }
        ensures back { OnOk result (undone self.new.session ≡ Some self.old.session) }
        ensures rule { IsSession self.new.session }
        ensures store { self.new.store ≡ self.old.store }
    {
        if self.state.redo() {
            Ok(())
        } else {
            Err(NothingToRedo)
        }
    }

    /// Whether two references name one diagram, and None where one of them names nothing. It takes no memory.
    pub fn equal(&self, one: &str, two: &str) -> Option<bool>
        ensures { result ≡ equal_references self.now.session.present one.now two.now }
    {
        let first = self.state.reference(one)?;
        let second = self.state.reference(two)?;
        Some(are_one(&self.state.store, first, second))
    }

    /// What the workspace holds, in numbers.
    pub fn stats(&self) -> Result<Stats, AllocError>
        ensures { IfOk result (λ s. stats_of self.now.session.present
            ≡ Reply.Stats s.arrows s.diagrams s.generators s.maps s.named) }
    {
        stats(
            self.state.store.allocator(),
            &self.state.store,
            &self.state.entries.workspace,
        )
    }
}
