ghost use Rattle.std.specs.Prelude.{◌≡◌, IfOk, IfErr, MatchOption};
ghost use Rattle.diagram_terms.specs.Dual.{IsMonotone, AreBelow};
ghost use Rattle.monotone_dual.specs.Refusals.{IsFirstOutside, IsFirstFall, IsRefusal};

use crate::monotone::Mono;
use diagram_terms::Items;
use thiserror::Error;

/// Why a list of heights is no `Mono`.
#[derive(Debug, Clone, Copy, PartialEq, Eq, Error)]
pub enum MonoRefusal {
    /// The first height that is not below the target's length, by its place.
    #[error("the height at {0} is not below the length of the target")]
    OutOfRange(usize),
    /// The first height that is below the one before it, by its place.
    #[error("the height at {0} is below the one before it")]
    NotMonotone(usize),
}

/// Takes the heights as they are, where they do not fall and are below `target_len`.
///
/// A height out of range is refused before one that falls, wherever the two stand.
pub fn make(heights: Vec<usize>, target_len: usize) -> Result<Mono, MonoRefusal>
    ensures heights { IfOk result (λ m. m.heights ≡ heights.items) }
    ensures target { IfOk result (λ m. m.target_len ≡ target_len) }
    ensures refused { IfErr result (IsRefusal heights.items target_len) }
{
    if let Some(at) = first_outside(&heights, target_len) {
        return Err(MonoRefusal::OutOfRange(at));
    }
    if let Some(at) = first_fall(&heights) {
        return Err(MonoRefusal::NotMonotone(at));
    }
    Ok(Mono {
        heights: Items::from_vec(heights),
        target_len,
    })
}

fn first_outside(heights: &[usize], target_len: usize) -> Option<usize>
    ensures { MatchOption result (AreBelow heights.now target_len)
        (IsFirstOutside heights.now target_len) }
{
    for (at, height) in heights.iter().enumerate() {
        if *height >= target_len {
            return Some(at);
        }
    }
    None
}

fn first_fall(heights: &[usize]) -> Option<usize>
    ensures { MatchOption result (IsMonotone heights.now) (IsFirstFall heights.now) }
{
    for at in 1..heights.len() {
        if heights[at] < heights[at - 1] {
            return Some(at);
        }
    }
    None
}
