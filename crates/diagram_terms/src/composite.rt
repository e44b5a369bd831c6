ghost use Rattle.std.specs.Prelude.{◌≡◌, ℕ, suc, length, map, IfOk};
ghost use Rattle.diagram_terms.specs.Composable.{LengthsMeet, AreComposableRegs, AreComposableSings};
ghost use Rattle.diagram_terms.specs.Composite.{comp};
ghost use Rattle.diagram_terms.specs.Decoded.{arr_tree};
ghost use Rattle.diagram_terms.specs.Dual.{AreBelow, after};
ghost use Rattle.diagram_terms.specs.Family.{Arr};
ghost use Rattle.diagram_terms.specs.Values.{tree_of_arrow, trees_of_arrows};

use crate::dual::dual_from;
use crate::tree::Arrow;
use std::alloc::{AllocError, Global};

fn composite_heights(
    alloc: Global,
    second: &[usize],
    first: &[usize],
) -> Result<Vec<usize>, AllocError>
    requires { AreBelow first.now (length second.now) }
    ensures { IfOk result (λ made. made.items ≡ after second.now first.now) }
{
    let mut made = Vec::new(alloc);
    for h in first {
        made.push(second[*h])?;
    }
    Ok(made)
}

/// The composite of two arrows, first `f` and then `g`.
#[cycle(composites)]
pub(crate) fn composite(alloc: Global, g: &Arrow, f: &Arrow) -> Result<Arrow, AllocError>
    requires { (n : ℕ) × (second : Arr n) × (first : Arr n) × LengthsMeet n second first
        × (tree_of_arrow g.now ≡ arr_tree n second) × (tree_of_arrow f.now ≡ arr_tree n first) }
    ensures { IfOk result (λ made. (n : ℕ) (second first : Arr n) → LengthsMeet n second first
        → tree_of_arrow g.now ≡ arr_tree n second → tree_of_arrow f.now ≡ arr_tree n first
        → tree_of_arrow made ≡ arr_tree n (comp n second first)) }
{
    match (g, f) {
        (Arrow::Zero(_, finish), Arrow::Zero(start, _)) => Ok(Arrow::Zero(*start, *finish)),
        (
            Arrow::Zig {
                heights: g_heights,
                regs: g_regs,
                sings: g_sings,
            },
            Arrow::Zig {
                heights: f_heights,
                regs: f_regs,
                sings: f_sings,
            },
        ) => {
            let heights = composite_heights(alloc, g_heights, f_heights)?;
            let regs = composite_regs(alloc, g_regs, f_regs, g_heights)?;
            let sings = composite_sings(alloc, g_sings, f_sings, f_heights)?;
            Ok(Arrow::Zig {
                heights,
                regs,
                sings,
            })
        }
        (Arrow::Zero(_, _), Arrow::Zig { .. }) => unreachable!(),
        (Arrow::Zig { .. }, Arrow::Zero(_, _)) => unreachable!(),
    }
}

#[cycle(composites)]
fn composite_regs(
    alloc: Global,
    second: &[Arrow],
    first: &[Arrow],
    heights: &[usize],
) -> Result<Vec<Arrow>, AllocError>
    requires { (d : ℕ) × (g : Arr (suc d)) × (f : Arr (suc d))
        × AreComposableRegs d g f second.now first.now heights.now }
    ensures { IfOk result (λ made. (d : ℕ) (g f : Arr (suc d))
        → AreComposableRegs d g f second.now first.now heights.now
        → trees_of_arrows made.items ≡ map (arr_tree d) (comp (suc d) g f).regs) }
{
    let mut made = Vec::new(alloc);
    let mut at = 0;
    for k in 0..second.len() {
        at = dual_from(heights, at, k);
        made.push(composite(alloc, &second[k], &first[at])?)?;
    }
    Ok(made)
}

#[cycle(composites)]
fn composite_sings(
    alloc: Global,
    second: &[Arrow],
    first: &[Arrow],
    heights: &[usize],
) -> Result<Vec<Arrow>, AllocError>
    requires { (d : ℕ) × (g : Arr (suc d)) × (f : Arr (suc d))
        × AreComposableSings d g f second.now first.now heights.now }
    ensures { IfOk result (λ made. (d : ℕ) (g f : Arr (suc d))
        → AreComposableSings d g f second.now first.now heights.now
        → trees_of_arrows made.items ≡ map (arr_tree d) (comp (suc d) g f).sings) }
{
    let mut made = Vec::new(alloc);
    for i in 0..first.len() {
        let h = heights[i];
        made.push(composite(alloc, &second[h], &first[i])?)?;
    }
    Ok(made)
}
