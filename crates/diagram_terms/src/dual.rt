ghost use Rattle.std.specs.Prelude.{◌≡◌, ◌≤◌};
ghost use Rattle.diagram_terms.specs.Dual.{IsMonotone, dual};

/// How many of the heights are below `k`, where the first `from` of them are known to be.
///
/// A walk over rising `k` that passes the last answer on looks at each height once.
pub fn dual_from(heights: &[usize], from: usize, k: usize) -> usize
    ensures { IsMonotone heights.now → from ≤ dual heights.now k → result ≡ dual heights.now k }
{
    for i in from..heights.len() {
        if heights[i] >= k {
            return i;
        }
    }
    heights.len()
}
