/// What a store keeps: how many distinct trees of each kind, how many distinct lists of their
/// slices, legs and heights, the empty list left out, and how many distinct blocks of these.
#[derive(Clone, Copy, Debug, PartialEq, Eq)]
pub struct Storage {
    pub diagrams: usize,
    pub arrows: usize,
    pub lists: usize,
    pub blocks: usize,
}
