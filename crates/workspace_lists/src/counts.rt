/// What a workspace holds, in numbers.
#[derive(Clone, Copy, Debug, PartialEq, Eq)]
pub struct Stats {
    pub generators: usize,
    /// The stored diagrams.
    pub named: usize,
    pub maps: usize,
    /// The distinct diagrams among the subtrees of the workspace.
    pub diagrams: usize,
    /// The distinct arrows among them.
    pub arrows: usize,
}
