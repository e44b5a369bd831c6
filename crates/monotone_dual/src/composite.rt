ghost use Rattle.std.specs.Prelude.{◌≡◌, IfOk, length};
ghost use Rattle.diagram_terms.specs.Dual.{AreBelow, after};

use crate::monotone::Mono;
use diagram_terms::Items;
use std::alloc::{AllocError, Global};

/// The composite: where `g` sends what `f` sends a height to.
pub fn compose(alloc: Global, g: &Mono, f: &Mono) -> Result<Mono, AllocError>
    requires { f.now.target_len ≡ length g.now.heights }
    ensures heights { IfOk result (λ m. m.heights ≡ after g.now.heights f.now.heights) }
    ensures target { IfOk result (λ m. m.target_len ≡ g.now.target_len) }
{
    let heights = composite_heights(alloc, g.heights.as_slice(), f.heights.as_slice())?;
    Ok(Mono {
        heights,
        target_len: g.target_len,
    })
}

fn composite_heights(alloc: Global, g: &[usize], f: &[usize]) -> Result<Items<usize>, AllocError>
    requires { AreBelow f.now (length g.now) }
    ensures { IfOk result (λ heights. heights ≡ after g.now f.now) }
{
    let mut heights = Items::new(alloc);
    for height in f {
        heights.push(g[*height])?;
    }
    Ok(heights)
}
