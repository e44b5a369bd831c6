//! Records of the ids of a store of which one thing was found out.
#![tactic(auto)]

use hashcons::AnyId;
use std::alloc::{AllocError, Global};
use std::collections::HashSet;

/// The ids of a store of which one thing was found out, so that it is not found out twice. It stays
/// so while the store grows.
#[derive(Drop)]
pub struct FoundIds {
    ids: HashSet<AnyId>,
}

impl FoundIds {
    ghost use Rattle.std.specs.Prelude.{◌≡◌, ◌⊎◌, ◌↔◌, IsTrue, OnOk, OnErr};
    ghost use Rattle.hashcons.specs.declared.id.AnyId.{AnyId};
    ghost use Rattle.found_ids.specs.FoundIds.{IsFound, HoldSame};

    /// Of no id yet. It takes no memory.
    pub fn new(alloc: Global) -> FoundIds
        ensures { (x : AnyId) → IsFound result x → ⊥ }
    {
        FoundIds {
            ids: HashSet::new(alloc),
        }
    }

    /// Whether it was found out of `id`.
    pub fn has(&self, id: AnyId) -> bool
        ensures { IsTrue result ↔ IsFound self.now id }
    {
        self.ids.contains(&id)
    }

    /// It was found out of `id`.
    pub fn keep(&mut self, id: AnyId) -> Result<(), AllocError>
        ensures added { OnOk result (IsFound self.new id) }
        ensures kept { (x : AnyId) → IsFound self.old x → IsFound self.new x }
        ensures others { (x : AnyId) → IsFound self.new x → (x ≡ id) ⊎ IsFound self.old x }
        ensures err { OnErr result (HoldSame self.new self.old) }
    {
        self.ids.insert(id)?;
        Ok(())
    }
}
