use crate::id::{ArrowId, DiagramId};
use smallvec::SmallVec;
use std::alloc::Global;
use std::collections::{HashMap, HashSet};

/// What a normal form is noted for: a diagram, and legs into it, each its source and its arrow.
#[derive(Debug, Drop, PartialEq, Eq, Hash)]
pub struct NormalKey {
    pub target: DiagramId,
    pub legs: SmallVec<(DiagramId, ArrowId), 4>,
}

/// The least degeneracy for the legs of a key: its source, its arrow into the key's target, and the
/// factors of the legs through it, in their order.
#[derive(Debug, Drop)]
pub struct KnownNormal {
    pub source: DiagramId,
    pub arrow: ArrowId,
    pub factors: Vec<ArrowId>,
}

/// What was noted of the ids of a store.
#[derive(Drop)]
pub(crate) struct NoteTables {
    pub(crate) identities: HashMap<DiagramId, ArrowId>,
    pub(crate) composites: HashMap<(ArrowId, ArrowId), ArrowId>,
    pub(crate) valid: HashSet<DiagramId>,
    pub(crate) valid_maps: HashSet<(DiagramId, DiagramId, ArrowId)>,
    pub(crate) normals: HashMap<NormalKey, KnownNormal>,
}

impl NoteTables {
    ghost use Rattle.std.specs.Prelude.{◌≡◌};
    ghost use Rattle.hashcons.specs.Notes.{no_notes};
    ghost use Rattle.hashcons.specs.NoteTables.{notes_of};

    pub(crate) fn new(alloc: Global) -> NoteTables
        ensures { notes_of result ≡ no_notes }
    {
        NoteTables {
            identities: HashMap::new(alloc),
            composites: HashMap::new(alloc),
            valid: HashSet::new(alloc),
            valid_maps: HashSet::new(alloc),
            normals: HashMap::new(alloc),
        }
    }
}
