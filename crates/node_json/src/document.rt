use diagram_terms::{Items, Node, Text};

/// A generator: its name, and the places of its source and target, if it has a boundary.
#[derive(Debug, Drop)]
pub struct GeneratorEntry {
    pub name: Text,
    pub boundary: Option<(usize, usize)>,
}

/// A named diagram, by the place of its node.
#[derive(Debug, Drop)]
pub struct DiagramEntry {
    pub name: Text,
    pub root: usize,
}

/// A named map, by the places of its ends and of its arrow.
#[derive(Debug, Drop)]
pub struct MapEntry {
    pub name: Text,
    pub source: usize,
    pub target: usize,
    pub arrow: usize,
}

/// Generators, diagrams and maps, whose trees are given by the nodes.
#[derive(Debug, Drop)]
pub struct Document {
    pub generators: Items<GeneratorEntry>,
    pub diagrams: Items<DiagramEntry>,
    pub maps: Items<MapEntry>,
    pub nodes: Items<Node>,
}
