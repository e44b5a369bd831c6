ghost use Rattle.std.specs.Prelude.{◌≡◌, ℕ, ◌<◌, ◌^◌};
ghost use Rattle.diagram_terms.specs.Shape.{IsDiagram};
ghost use Rattle.diagram_terms.specs.Values.{tree_of_diagram};

use crate::tree::Diagram;

/// The dimension of a diagram: how often a regular slice can be taken.
///
/// A diagram in memory always has a dimension below 2^64.
pub fn dimension(d: &Diagram) -> usize
    ensures { (n : ℕ) → n < 2 ^ 64 → IsDiagram n (tree_of_diagram d.now) → result ≡ n }
{
    let mut current = d;
    let mut count: usize = 0;
    while let Diagram::Zig { regs, .. } = current {
        match regs.first() {
            None => return count,
            Some(next) => {
                current = next;
                count = count.saturating_add(1);
            }
        }
    }
    count
}
