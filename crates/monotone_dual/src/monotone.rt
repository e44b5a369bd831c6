ghost use Rattle.std.specs.Prelude.{◌≡◌, ◌+◌, ◌<◌, ◌≤◌, length};
ghost use Rattle.diagram_terms.specs.Dual.{IsMonotone, AreBelow, dual};

use diagram_terms::Items;

/// Where each height of a source goes, counted from 0 in a target: numbers that do not fall.
#[derive(Debug, Drop)]
pub struct Mono {
    /// Where each height goes, by its place in the source.
    pub heights: Items<usize>,
    /// How many heights the target has.
    pub target_len: usize,
    pub ghost monotone: { IsMonotone heights },
    pub ghost in_range: { AreBelow heights target_len },
}

impl Mono {
    /// How many heights of the source go below `j`: the regular height of the source that belongs
    /// to the regular height `j` of the target.
    pub fn dual_at(&self, j: usize) -> usize
        requires { j ≤ self.now.target_len }
        ensures value { result ≡ dual self.now.heights j }
        ensures within { result ≤ length self.now.heights }
    {
        self.heights
            .as_slice()
            .partition_point(|height| *height < j)
    }

    /// The heights that go to `k`: from the first number on, below the second.
    pub fn fibre(&self, k: usize) -> (usize, usize)
        requires { k < self.now.target_len }
        ensures from { result.0 ≡ dual self.now.heights k }
        ensures to { result.1 ≡ dual self.now.heights (k + 1) }
    {
        (self.dual_at(k), self.dual_at(k + 1))
    }
}
