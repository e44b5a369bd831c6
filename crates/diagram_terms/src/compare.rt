ghost use Rattle.std.specs.Prelude.{◌≡◌, ◌↔◌, IsTrue};
ghost use Rattle.diagram_terms.specs.Values.{tree_of_arrow, tree_of_diagram, trees_of_arrows, trees_of_diagrams};

use crate::tree::{Arrow, Diagram};

fn equal_heights(xs: &[usize], ys: &[usize]) -> bool
    ensures { IsTrue result ↔ (xs.now ≡ ys.now) }
{
    xs == ys
}

#[cycle(arrows)]
#[tactic(auto, unfolding(crate::specs::Tree::ends, crate::specs::Tree::zag))]
pub(crate) fn equal_arrows(a: &Arrow, b: &Arrow) -> bool
    ensures { IsTrue result ↔ (tree_of_arrow a.now ≡ tree_of_arrow b.now) }
{
    match (a, b) {
        (Arrow::Zero(x, y), Arrow::Zero(z, w)) => *x == *z && *y == *w,
        (
            Arrow::Zig {
                heights,
                regs,
                sings,
            },
            Arrow::Zig {
                heights: heights2,
                regs: regs2,
                sings: sings2,
            },
        ) => {
            if !equal_heights(heights, heights2) {
                return false;
            }
            if !all_arrows_equal(regs, regs2) {
                return false;
            }
            all_arrows_equal(sings, sings2)
        }
        _ => false,
    }
}

#[cycle(arrows)]
fn all_arrows_equal(xs: &[Arrow], ys: &[Arrow]) -> bool
    ensures { IsTrue result ↔ (trees_of_arrows xs.now ≡ trees_of_arrows ys.now) }
{
    if xs.len() != ys.len() {
        return false;
    }
    for i in 0..xs.len() {
        if !equal_arrows(&xs[i], &ys[i]) {
            return false;
        }
    }
    true
}

/// Whether two diagrams are one tree. It looks at each node of the two at most once.
#[cycle(diagrams)]
#[tactic(auto, unfolding(crate::specs::Tree::point, crate::specs::Tree::zig))]
pub fn equal_trees(a: &Diagram, b: &Diagram) -> bool
    ensures { IsTrue result ↔ (tree_of_diagram a.now ≡ tree_of_diagram b.now) }
{
    match (a, b) {
        (Diagram::Zero(x), Diagram::Zero(y)) => *x == *y,
        (
            Diagram::Zig {
                regs,
                sings,
                fwds,
                bwds,
            },
            Diagram::Zig {
                regs: regs2,
                sings: sings2,
                fwds: fwds2,
                bwds: bwds2,
            },
        ) => {
            if !all_diagrams_equal(regs, regs2) {
                return false;
            }
            if !all_diagrams_equal(sings, sings2) {
                return false;
            }
            if !all_arrows_equal(fwds, fwds2) {
                return false;
            }
            all_arrows_equal(bwds, bwds2)
        }
        _ => false,
    }
}

#[cycle(diagrams)]
fn all_diagrams_equal(xs: &[Diagram], ys: &[Diagram]) -> bool
    ensures { IsTrue result ↔ (trees_of_diagrams xs.now ≡ trees_of_diagrams ys.now) }
{
    if xs.len() != ys.len() {
        return false;
    }
    for i in 0..xs.len() {
        if !equal_trees(&xs[i], &ys[i]) {
            return false;
        }
    }
    true
}
