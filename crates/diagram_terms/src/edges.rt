ghost use Rattle.std.specs.Prelude.{◌≡◌, ◌≤◌, ◌<◌, ◌-◌, ℕ, suc, length, IfOk, option_map};
ghost use Rattle.std.specs.List.{list_all, range_with_len};
ghost use Rattle.diagram_terms.specs.Composite.{comp};
ghost use Rattle.diagram_terms.specs.Decoded.{arr_tree};
ghost use Rattle.diagram_terms.specs.Edges.{AreEdges, HoldsEdges, HoldsPairs};
ghost use Rattle.diagram_terms.specs.Family.{Arr, Dia};
ghost use Rattle.diagram_terms.specs.Levels.{SlicesAreValid, StandsBetween, square_place, square_tests};
ghost use Rattle.diagram_terms.specs.Places.{edges_meet, first_failure, same_arrow};
ghost use Rattle.diagram_terms.specs.Values.{tree_of_arrow};

use crate::compare::equal_arrows;
use crate::composite::composite;
use crate::dual::dual_from;
use crate::tree::{Arrow, Diagram};
use std::alloc::{AllocError, Global};

/// The composite of each arrow of `second` after the one of `first` at its place.
pub(crate) fn composites(
    alloc: Global,
    second: &[Arrow],
    first: &[Arrow],
) -> Result<Vec<Arrow>, AllocError>
    requires { (d : ℕ) × (g : (ℕ → Arr d)) × (f : (ℕ → Arr d)) × HoldsPairs d g f second.now first.now }
    ensures { IfOk result (λ made. (d : ℕ) (g f : ℕ → Arr d) → HoldsPairs d g f second.now first.now
        → AreEdges d (λ k. comp d (g k) (f k)) (length second.now) made.items) }
{
    let mut made = Vec::new(alloc);
    for k in 0..second.len() {
        made.push(composite(alloc, &second[k], &first[k])?)?;
    }
    Ok(made)
}

/// Whether each way out of a singular slice is the way into the next, from the height `a` to the
/// last below `b`.
fn inner_pairs_meet(enters: &[Arrow], leaves: &[Arrow], a: usize, b: usize) -> bool
    requires nonempty { a < b }
    requires held { (d : ℕ) × (enter : (ℕ → Arr d)) × (leave : (ℕ → Arr d)) × (n : ℕ) × (b ≤ n)
        × AreEdges d enter n enters.now × AreEdges d leave n leaves.now }
    ensures { (d : ℕ) (enter leave : ℕ → Arr d) (n : ℕ) → b ≤ n
        → AreEdges d enter n enters.now → AreEdges d leave n leaves.now
        → result ≡ list_all (λ i. same_arrow d (leave i) (enter (suc i))) (range_with_len a (b - 1 - a)) }
{
    for i in a..b - 1 {
        if !equal_arrows(&leaves[i], &enters[i + 1]) {
            return false;
        }
    }
    true
}

/// Whether a square commutes into whose height the heights from `a` on, below `b`, go.
fn square_meets(
    left: &Arrow,
    right: &Arrow,
    enters: &[Arrow],
    leaves: &[Arrow],
    a: usize,
    b: usize,
) -> bool
    requires { (d : ℕ) × (enter : (ℕ → Arr d)) × (leave : (ℕ → Arr d)) × (n : ℕ) × (b ≤ n)
        × AreEdges d enter n enters.now × AreEdges d leave n leaves.now }
    ensures { (d : ℕ) (p q : Arr d) (enter leave : ℕ → Arr d) (n : ℕ) → b ≤ n
        → tree_of_arrow left.now ≡ arr_tree d p → tree_of_arrow right.now ≡ arr_tree d q
        → AreEdges d enter n enters.now → AreEdges d leave n leaves.now
        → result ≡ edges_meet d p q enter leave a b }
{
    if a >= b {
        return equal_arrows(left, right);
    }
    if !equal_arrows(left, &enters[a]) {
        return false;
    }
    if !equal_arrows(right, &leaves[b - 1]) {
        return false;
    }
    inner_pairs_meet(enters, leaves, a, b)
}

/// The first height whose square does not commute.
pub(crate) fn first_bad_height(
    heights: &[usize],
    lefts: &[Arrow],
    rights: &[Arrow],
    enters: &[Arrow],
    leaves: &[Arrow],
) -> Option<usize>
    requires { (d : ℕ) × (X : Dia (suc d)) × (Y : Dia (suc d)) × (f : Arr (suc d))
        × HoldsEdges d X Y f heights.now lefts.now rights.now enters.now leaves.now }
    ensures { (d : ℕ) (X Y : Dia (suc d)) (f : Arr (suc d))
        → HoldsEdges d X Y f heights.now lefts.now rights.now enters.now leaves.now
        → option_map square_place result ≡ first_failure (square_tests d X Y f) }
{
    let mut a = 0;
    for k in 0..lefts.len() {
        let b = dual_from(heights, a, k + 1);
        if !square_meets(&lefts[k], &rights[k], enters, leaves, a, b) {
            return Some(k);
        }
        a = b;
    }
    None
}

/// The first height of the target whose square does not commute, of an arrow whose slices are valid.
pub(crate) fn first_bad_square_of(
    alloc: Global,
    leg: &Arrow,
    from: &Diagram,
    to: &Diagram,
) -> Result<Option<usize>, AllocError>
    requires { (d : ℕ) × (f : Arr (suc d)) × (X : Dia (suc d)) × (Y : Dia (suc d))
        × StandsBetween (suc d) f X Y leg.now from.now to.now × SlicesAreValid d f X Y }
    ensures { IfOk result (λ found. (d : ℕ) (f : Arr (suc d)) (X Y : Dia (suc d))
        → StandsBetween (suc d) f X Y leg.now from.now to.now → SlicesAreValid d f X Y
        → option_map square_place found ≡ first_failure (square_tests d X Y f)) }
{
    let Arrow::Zig {
        heights,
        regs,
        sings,
    } = leg
    else {
        unreachable!()
    };
    let Diagram::Zig {
        fwds: from_fwds,
        bwds: from_bwds,
        ..
    } = from
    else {
        unreachable!()
    };
    let Diagram::Zig {
        fwds: to_fwds,
        bwds: to_bwds,
        ..
    } = to
    else {
        unreachable!()
    };
    let lefts = composites(alloc, to_fwds, regs)?;
    let rights = composites(alloc, to_bwds, &regs[1..])?;
    let enters = composites(alloc, sings, from_fwds)?;
    let leaves = composites(alloc, sings, from_bwds)?;
    Ok(first_bad_height(heights, &lefts, &rights, &enters, &leaves))
}
