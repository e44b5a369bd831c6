use hashcons::{ArrowId, DiagramId};

/// An arrow with its source and its target.
#[derive(Clone, Copy, Debug, PartialEq, Eq, Hash)]
pub struct Map {
    pub source: DiagramId,
    pub target: DiagramId,
    pub arrow: ArrowId,
}
