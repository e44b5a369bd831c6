use crate::edit::Edit;
use workspace_lists::{Generator, Meaning, Named, NamedMap, Names, Workspace};

/// A workspace and a table that tells what its names stand for.
#[derive(Drop)]
pub struct Entries {
    pub workspace: Workspace,
    pub names: Names,
}

impl Entries {
    ghost use Rattle.std.specs.Prelude.{◌≡◌, ◌<◌, ◌≤◌, ℕ, List, length, true, vec_capacity};
    ghost use Rattle.hashcons.specs.Contents.{Contents};
    ghost use Rattle.workspace_lists.specs.Names.{knows};
    ghost use Rattle.session_state.specs.Edits.{AreKnown, IsWithin, edited};
    ghost use Rattle.session_state.specs.Kinds.{AreOpposite};
    ghost use Rattle.session_state.specs.EditSteps.{HasRoomFor, KeepsTelling};
    ghost use Rattle.session_state.specs.States.{lists_of};

    /// Makes an edit and answers the one that takes it back. It takes no memory.
    pub fn make(&mut self, edit: Edit) -> Edit
        requires within { IsWithin (lists_of self.old) edit }
        requires room { HasRoomFor self.old.workspace edit }
        requires known_before { AreKnown self.old.names (lists_of self.old) }
        requires known_after { AreKnown self.old.names (edited (lists_of self.old) edit) }
        ensures lists { lists_of self.new ≡ edited (lists_of self.old) edit }
        ensures opposite { AreOpposite edit result }
        ensures within { IsWithin (lists_of self.new) result }
        ensures back { edited (lists_of self.new) result ≡ lists_of self.old }
        ensures names { (c : Contents) → KeepsTelling c self.old self.new edit result }
        ensures places { (name : List ℕ) → knows self.new.names name ≡ knows self.old.names name }
        ensures generators { vec_capacity self.old.workspace.generators ≤ vec_capacity self.new.workspace.generators }
        ensures diagrams { vec_capacity self.old.workspace.diagrams ≤ vec_capacity self.new.workspace.diagrams }
        ensures maps { vec_capacity self.old.workspace.maps ≤ vec_capacity self.new.workspace.maps }
    {
        match edit {
            Edit::TakeGenerator => self.take_generator(),
            Edit::PutGenerator { generator, meaning } => self.put_generator(generator, meaning),
            Edit::TakeDiagram { place } => self.take_diagram(place),
            Edit::PutDiagram { place, diagram } => self.put_diagram(place, diagram),
            Edit::TakeMap { place } => self.take_map(place),
            Edit::PutMap { place, map } => self.put_map(place, map),
        }
    }

    fn take_generator(&mut self) -> Edit
        requires within { 0 < length self.old.workspace.generators.items }
        requires known { AreKnown self.old.names (lists_of self.old) }
        ensures lists { lists_of self.new ≡ edited (lists_of self.old) Edit.TakeGenerator }
        ensures opposite { AreOpposite Edit.TakeGenerator result }
        ensures within { IsWithin (lists_of self.new) result }
        ensures back { edited (lists_of self.new) result ≡ lists_of self.old }
        ensures names { (c : Contents) → KeepsTelling c self.old self.new Edit.TakeGenerator result }
        ensures places { (name : List ℕ) → knows self.new.names name ≡ knows self.old.names name }
        ensures generators { vec_capacity self.old.workspace.generators ≤ vec_capacity self.new.workspace.generators }
        ensures diagrams { self.new.workspace.diagrams ≡ self.old.workspace.diagrams }
        ensures maps { self.new.workspace.maps ≡ self.old.workspace.maps }
    {
        let generator = self.workspace.generators.take_last();
        let meaning = self.names.replace(generator.name.as_str(), Meaning::Free);
        Edit::PutGenerator { generator, meaning }
    }

    fn put_generator(&mut self, generator: Generator, meaning: Meaning) -> Edit
        requires room { length self.old.workspace.generators.items < vec_capacity self.old.workspace.generators }
        requires known { knows self.old.names generator.name ≡ true }
        ensures lists { lists_of self.new ≡ edited (lists_of self.old) (Edit.PutGenerator generator meaning) }
        ensures back { result ≡ Edit.TakeGenerator }
        ensures names { (c : Contents) → KeepsTelling c self.old self.new (Edit.PutGenerator generator meaning) result }
        ensures places { (name : List ℕ) → knows self.new.names name ≡ knows self.old.names name }
        ensures generators { vec_capacity self.old.workspace.generators ≤ vec_capacity self.new.workspace.generators }
        ensures diagrams { self.new.workspace.diagrams ≡ self.old.workspace.diagrams }
        ensures maps { self.new.workspace.maps ≡ self.old.workspace.maps }
    {
        let _free = self.names.replace(generator.name.as_str(), meaning);
        self.workspace.generators.push_reserved(generator);
        Edit::TakeGenerator
    }

    fn take_diagram(&mut self, place: usize) -> Edit
        requires within { place < length self.old.workspace.diagrams.items }
        requires known { AreKnown self.old.names (lists_of self.old) }
        ensures lists { lists_of self.new ≡ edited (lists_of self.old) (Edit.TakeDiagram place) }
        ensures opposite { AreOpposite (Edit.TakeDiagram place) result }
        ensures within { IsWithin (lists_of self.new) result }
        ensures back { edited (lists_of self.new) result ≡ lists_of self.old }
        ensures names { (c : Contents) → KeepsTelling c self.old self.new (Edit.TakeDiagram place) result }
        ensures places { (name : List ℕ) → knows self.new.names name ≡ knows self.old.names name }
        ensures generators { self.new.workspace.generators ≡ self.old.workspace.generators }
        ensures diagrams { vec_capacity self.old.workspace.diagrams ≤ vec_capacity self.new.workspace.diagrams }
        ensures maps { self.new.workspace.maps ≡ self.old.workspace.maps }
    {
        let diagram = self.workspace.diagrams.remove(place);
        let _taken = self.names.replace(diagram.name.as_str(), Meaning::Free);
        Edit::PutDiagram { place, diagram }
    }

    fn put_diagram(&mut self, place: usize, diagram: Named) -> Edit
        requires within { place ≤ length self.old.workspace.diagrams.items }
        requires room { length self.old.workspace.diagrams.items < vec_capacity self.old.workspace.diagrams }
        requires known { knows self.old.names diagram.name ≡ true }
        ensures lists { lists_of self.new ≡ edited (lists_of self.old) (Edit.PutDiagram place diagram) }
        ensures back { result ≡ Edit.TakeDiagram place }
        ensures names { (c : Contents) → KeepsTelling c self.old self.new (Edit.PutDiagram place diagram) result }
        ensures places { (name : List ℕ) → knows self.new.names name ≡ knows self.old.names name }
        ensures generators { self.new.workspace.generators ≡ self.old.workspace.generators }
        ensures diagrams { vec_capacity self.old.workspace.diagrams ≤ vec_capacity self.new.workspace.diagrams }
        ensures maps { self.new.workspace.maps ≡ self.old.workspace.maps }
    {
        let _free = self
            .names
            .replace(diagram.name.as_str(), Meaning::Diagram(diagram.root));
        match self.workspace.diagrams.insert(place, diagram) {
            Ok(()) => Edit::TakeDiagram { place },
            Err(_) => unreachable!(),
        }
    }

    fn take_map(&mut self, place: usize) -> Edit
        requires within { place < length self.old.workspace.maps.items }
        requires known { AreKnown self.old.names (lists_of self.old) }
        ensures lists { lists_of self.new ≡ edited (lists_of self.old) (Edit.TakeMap place) }
        ensures opposite { AreOpposite (Edit.TakeMap place) result }
        ensures within { IsWithin (lists_of self.new) result }
        ensures back { edited (lists_of self.new) result ≡ lists_of self.old }
        ensures names { (c : Contents) → KeepsTelling c self.old self.new (Edit.TakeMap place) result }
        ensures places { (name : List ℕ) → knows self.new.names name ≡ knows self.old.names name }
        ensures generators { self.new.workspace.generators ≡ self.old.workspace.generators }
        ensures diagrams { self.new.workspace.diagrams ≡ self.old.workspace.diagrams }
        ensures maps { vec_capacity self.old.workspace.maps ≤ vec_capacity self.new.workspace.maps }
    {
        let map = self.workspace.maps.remove(place);
        let _taken = self.names.replace(map.name.as_str(), Meaning::Free);
        Edit::PutMap { place, map }
    }

    fn put_map(&mut self, place: usize, map: NamedMap) -> Edit
        requires within { place ≤ length self.old.workspace.maps.items }
        requires room { length self.old.workspace.maps.items < vec_capacity self.old.workspace.maps }
        requires known { knows self.old.names map.name ≡ true }
        ensures lists { lists_of self.new ≡ edited (lists_of self.old) (Edit.PutMap place map) }
        ensures back { result ≡ Edit.TakeMap place }
        ensures names { (c : Contents) → KeepsTelling c self.old self.new (Edit.PutMap place map) result }
        ensures places { (name : List ℕ) → knows self.new.names name ≡ knows self.old.names name }
        ensures generators { self.new.workspace.generators ≡ self.old.workspace.generators }
        ensures diagrams { self.new.workspace.diagrams ≡ self.old.workspace.diagrams }
        ensures maps { vec_capacity self.old.workspace.maps ≤ vec_capacity self.new.workspace.maps }
    {
        let _free = self.names.replace(map.name.as_str(), Meaning::Map(map.map));
        match self.workspace.maps.insert(place, map) {
            Ok(()) => Edit::TakeMap { place },
            Err(_) => unreachable!(),
        }
    }
}
