use workspace_lists::{Generator, Meaning, Named, NamedMap};

/// A step from one workspace to a neighbouring one. A session keeps the steps back to earlier
/// workspaces, and those forth to workspaces that were undone.
#[derive(Debug, Drop)]
pub enum Edit {
    /// The last generator goes.
    TakeGenerator,
    /// A generator comes last, and its name gets a meaning.
    PutGenerator {
        generator: Generator,
        meaning: Meaning,
    },
    /// The stored diagram at a place goes.
    TakeDiagram {
        place: usize,
    },
    /// A stored diagram comes to a place.
    PutDiagram {
        place: usize,
        diagram: Named,
    },
    /// The stored map at a place goes.
    TakeMap {
        place: usize,
    },
    /// A stored map comes to a place.
    PutMap {
        place: usize,
        map: NamedMap,
    },
}
