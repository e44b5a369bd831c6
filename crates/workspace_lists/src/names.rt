use hashcons::DiagramId;
use std::alloc::{AllocError, Global};
use std::collections::HashMap;
use zigzag_maps::Map;

/// What a name stands for in a workspace.
#[derive(Clone, Copy, Debug, PartialEq, Eq)]
pub enum Meaning {
    /// Nothing: it may be given to something new.
    Free,
    /// A generator, by its type.
    Generator(DiagramId),
    /// A stored diagram.
    Diagram(DiagramId),
    /// A stored map.
    Map(Map),
}

/// What each name stands for. A name that was ever given keeps its place in the table, so that undo
/// and redo can change its meaning without memory.
#[derive(Drop)]
pub struct Names {
    alloc: Global,
    meanings: HashMap<String, Meaning>,
}

impl Names {
    ghost use Rattle.std.specs.Prelude.{◌≡◌, ℕ, List, true, OnOk, bytes_eq, if◌then◌else◌};
    ghost use Rattle.workspace_lists.specs.Names.{meaning_in, knows};

    /// A table in which each name is free. It takes no memory.
    pub fn new(alloc: Global) -> Names
        ensures { (name : List ℕ) → meaning_in result name ≡ Meaning.Free }
    {
        Names {
            alloc,
            meanings: HashMap::new(alloc),
        }
    }

    /// What a name stands for. It takes no memory.
    pub fn meaning(&self, name: &str) -> Meaning
        ensures { result ≡ meaning_in self.now name.now }
    {
        match self.meanings.get(name) {
            Some(meaning) => *meaning,
            None => Meaning::Free,
        }
    }

    /// Makes a place for a name. No meaning changes.
    #[tactic(auto, using(std::proofs::lemmas::Map::Text::text_keys))]
    pub fn make_place(&mut self, name: &str) -> Result<(), AllocError>
        ensures place { OnOk result (knows self.new name.now ≡ true) }
        ensures meanings { (other : List ℕ) → meaning_in self.new other ≡ meaning_in self.old other }
        ensures places { (other : List ℕ) → knows self.old other ≡ true → knows self.new other ≡ true }
    {
        if !self.meanings.contains_key(name) {
            let key = String::from_str(self.alloc, name)?;
            self.meanings.insert(key, Meaning::Free)?;
        }
        Ok(())
    }

    /// Gives a name that has a place another meaning, and answers the meaning that it had. It takes no
    /// memory.
    #[tactic(auto, using(std::proofs::lemmas::Map::Text::text_keys))]
    pub fn replace(&mut self, name: &str, meaning: Meaning) -> Meaning
        requires { knows self.old name.now ≡ true }
        ensures before { result ≡ meaning_in self.old name.now }
        ensures meanings { (other : List ℕ) → meaning_in self.new other
            ≡ (if bytes_eq other name.now then meaning else meaning_in self.old other) }
        ensures places { (other : List ℕ) → knows self.new other ≡ knows self.old other }
    {
        match self.meanings.get_mut(name) {
            Some(place) => std::mem::replace(place, meaning),
            None => unreachable!(),
        }
    }
}
