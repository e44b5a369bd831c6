use diagram_terms::Text;
use hashcons::DiagramId;
use zigzag_maps::Map;

/// A generator: its name, its dimension, and its source and target, if it has a boundary.
#[derive(Debug, Drop)]
pub struct Generator {
    pub name: Text,
    pub dim: u8,
    pub boundary: Option<(DiagramId, DiagramId)>,
}

/// A stored diagram under its name.
#[derive(Debug, Drop)]
pub struct Named {
    pub name: Text,
    pub root: DiagramId,
}

/// A stored map under its name.
#[derive(Debug, Drop)]
pub struct NamedMap {
    pub name: Text,
    pub map: Map,
}

/// The generators, the stored diagrams and the stored maps of a session, each in the order in which they
/// came. Its ids are those of the session's store.
///
/// The lists are plain vectors, since a session keeps room in them to undo and redo without memory.
#[derive(Debug, Drop)]
pub struct Workspace {
    /// The generator at place i has the number i.
    pub generators: Vec<Generator>,
    pub diagrams: Vec<Named>,
    pub maps: Vec<NamedMap>,
}
