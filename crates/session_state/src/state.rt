use crate::edit::Edit;
use crate::entries::Entries;
use crate::signing::{follow_back, follow_forth};
use hashcons::{DiagramId, Store};
use std::alloc::{AllocError, Global};
use typecheck::Signature;
use workspace_lists::{Meaning, Names, Workspace};
use zigzag_maps::Map;

/// What a session keeps. The signature has the generators of the workspace; the edits of the past lead
/// back to earlier workspaces, and those of the future forth, in each list the next one last.
#[derive(Drop)]
pub struct State {
    pub store: Store,
    pub signature: Signature,
    pub entries: Entries,
    pub past: Vec<Edit>,
    pub future: Vec<Edit>,
}

impl State {
    ghost use Rattle.std.specs.Prelude.{◌≡◌, ◌≤◌, ◌∷◌, [], true, Some, None, OnOk, IfSome, MatchBool, option_map};
    ghost use Rattle.hashcons.specs.Contents.{IsDiagramOf, diagram_at};
    ghost use Rattle.workspace_json.specs.Sessions.{new_session, undone, redone};
    ghost use Rattle.workspace_json.specs.Workspaces.{end_named, map_named, reference, term};
    ghost use Rattle.workspace_lists.specs.Names.{knows};
    ghost use Rattle.workspace_lists.specs.Held.{IsMapOf, map_called, trees_in};
    ghost use Rattle.session_state.specs.Edits.{edited};
    ghost use Rattle.session_state.specs.States.{CanAccept, HasRoomForEdit, HasRoomForOne, IsState, Stays, lists_of, present_of, session_of};

    /// Nothing. It takes no memory.
    pub fn new(alloc: Global) -> State
        ensures state { IsState result }
        ensures session { session_of result ≡ new_session }
    {
        State {
            store: Store::new(alloc),
            signature: Signature::new(alloc),
            entries: Entries {
                workspace: Workspace {
                    generators: Vec::new(alloc),
                    diagrams: Vec::new(alloc),
                    maps: Vec::new(alloc),
                },
                names: Names::new(alloc),
            },
            past: Vec::new(alloc),
            future: Vec::new(alloc),
        }
    }

    /// Takes the last change back, and says whether there was one.
    pub fn undo(&mut self) -> bool
        requires { IsState self.old }
        ensures state { IsState self.new }
        ensures undone { MatchBool result (undone (session_of self.old) ≡ Some (session_of self.new))
            ((undone (session_of self.old) ≡ None) × (self.new ≡ self.old)) }
        ensures store { self.new.store ≡ self.old.store }
    {
        if self.past.is_empty() {
            return false;
        }
        let edit = self.past.take_last();
        follow_back(&mut self.signature, &edit);
        let forth = self.entries.make(edit);
        self.future.push_reserved(forth);
        true
    }

    /// Makes the change that was taken back last again, and says whether there was one.
    pub fn redo(&mut self) -> bool
        requires { IsState self.old }
        ensures state { IsState self.new }
        ensures redone { MatchBool result (redone (session_of self.old) ≡ Some (session_of self.new))
            ((redone (session_of self.old) ≡ None) × (self.new ≡ self.old)) }
        ensures store { self.new.store ≡ self.old.store }
    {
        if self.future.is_empty() {
            return false;
        }
        let edit = self.future.take_last();
        follow_forth(&mut self.signature, &self.store, &edit);
        let back = self.entries.make(edit);
        self.past.push_reserved(back);
        true
    }

    /// Makes room for one change that gives or takes a name.
    pub fn make_room(&mut self, name: &str) -> Result<(), AllocError>
        requires { IsState self.old }
        ensures state { IsState self.new }
        ensures stays { Stays self.old self.new }
        ensures lists { lists_of self.new.entries ≡ lists_of self.old.entries }
        ensures room { OnOk result (HasRoomForOne self.new name.now) }
        ensures store { self.new.store ≡ self.old.store }
        ensures signature { self.new.signature ≡ self.old.signature }
    {
        self.entries.names.make_place(name)?;
        let count = self.past.len().saturating_add(1);
        self.entries.workspace.generators.reserve(1)?;
        self.entries.workspace.diagrams.reserve(count)?;
        self.entries.workspace.maps.reserve(count)?;
        self.past.reserve(1)?;
        self.future.reserve(count)
    }

    /// Makes a change for which there is room, and forgets what was undone.
    pub fn accept(&mut self, edit: Edit)
        requires can { CanAccept self.old edit }
        requires room { HasRoomForEdit self.old edit }
        ensures state { IsState self.new }
        ensures session { session_of self.new ≡ record {
          present = trees_in self.old.store (edited (lists_of self.old.entries) edit);
          past = (session_of self.old).present ∷ (session_of self.old).past;
          future = [];
        } }
        ensures store { self.new.store ≡ self.old.store }
    {
        self.future.clear();
        let back = self.entries.make(edit);
        self.past.push_reserved(back);
    }

    /// The diagram that a term names: the type of a generator, or a stored diagram.
    pub fn term(&self, name: &str) -> Option<DiagramId>
        requires { IsState self.now }
        ensures of_store { IfSome result (λ d. IsDiagramOf self.now.store d) }
        ensures tree { option_map (diagram_at self.now.store) result
            ≡ term (trees_in self.now.store (lists_of self.now.entries)) name.now }
    {
        match self.entries.names.meaning(name) {
            Meaning::Generator(d) | Meaning::Diagram(d) => Some(d),
            Meaning::Free | Meaning::Map(_) => None,
        }
    }

    /// The stored map of a name.
    pub fn map_named(&self, name: &str) -> Option<Map>
        requires { IsState self.now }
        ensures of_store { IfSome result (λ m. IsMapOf self.now.store m) }
        ensures map { option_map (map_called self.now.store name.now) result
            ≡ map_named (present_of self.now).maps name.now }
    {
        match self.entries.names.meaning(name) {
            Meaning::Map(map) => Some(map),
            Meaning::Free => None,
            Meaning::Generator(_) => None,
            Meaning::Diagram(_) => None,
        }
    }

    /// The diagram that a reference names: a term, or an end of a stored map.
    pub fn reference(&self, text: &str) -> Option<DiagramId>
        requires { IsState self.now }
        ensures of_store { IfSome result (λ d. IsDiagramOf self.now.store d) }
        ensures tree { option_map (diagram_at self.now.store) result ≡ reference (present_of self.now) text.now }
    {
        match self.term(text) {
            Some(d) => Some(d),
            None => self.end_named(text),
        }
    }

    /// The end of a stored map, which is named after it, as `NAME:source` or `NAME:target`.
    fn end_named(&self, text: &str) -> Option<DiagramId>
        requires { IsState self.now }
        ensures of_store { IfSome result (λ d. IsDiagramOf self.now.store d) }
        ensures tree { option_map (diagram_at self.now.store) result
            ≡ end_named (present_of self.now).maps text.now }
    {
        if let Some(name) = text.strip_suffix(":source") {
            return match self.map_named(name) {
                Some(map) => Some(map.source),
                None => None,
            };
        }
        if let Some(name) = text.strip_suffix(":target") {
            return match self.map_named(name) {
                Some(map) => Some(map.target),
                None => None,
            };
        }
        None
    }
}
