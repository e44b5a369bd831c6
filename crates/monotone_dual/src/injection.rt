ghost use Rattle.std.specs.Prelude.{◌≡◌, ◌+◌, ◌↔◌, IfOk, IfSome, IsNone, Any, Contains, length};
ghost use Rattle.diagram_terms.specs.Dual.{IsIncreasing, AreBelow, after};
ghost use Rattle.monotone_dual.specs.Injections.{IsSkip};

use crate::monotone::Mono;
use diagram_terms::Items;
use std::alloc::{AllocError, Global};

/// The injection into `target_len` heights that misses exactly those that are `dropped`.
pub fn skip(alloc: Global, target_len: usize, dropped: &[usize]) -> Result<Mono, AllocError>
    requires increasing { IsIncreasing dropped.now }
    requires below { AreBelow dropped.now target_len }
    ensures heights { IfOk result (λ m. IsSkip target_len dropped.now m.heights) }
    ensures target { IfOk result (λ m. m.target_len ≡ target_len) }
    ensures count { IfOk result (λ m. length m.heights + length dropped.now ≡ target_len) }
{
    let heights = kept_heights(alloc, target_len, dropped)?;
    Ok(Mono {
        heights,
        target_len,
    })
}

fn kept_heights(
    alloc: Global,
    target_len: usize,
    dropped: &[usize],
) -> Result<Items<usize>, AllocError>
    requires increasing { IsIncreasing dropped.now }
    requires below { AreBelow dropped.now target_len }
    ensures heights { IfOk result (λ kept. IsSkip target_len dropped.now kept) }
    ensures count { IfOk result (λ kept. length kept + length dropped.now ≡ target_len) }
{
    let mut kept = Items::new(alloc);
    let mut next = 0;
    for height in 0..target_len {
        if next < dropped.len() && dropped[next] == height {
            next += 1;
        } else {
            kept.push(height)?;
        }
    }
    Ok(kept)
}

/// The heights from which `e` leads to those of `f`: the one `g` for which `f` is `g` and then `e`.
pub fn through_injection(alloc: Global, f: &Mono, e: &Mono) -> Result<Option<Mono>, AllocError>
    requires target { f.now.target_len ≡ e.now.target_len }
    requires injective { IsIncreasing e.now.heights }
    ensures factor { IfOk result (λ found. IfSome found
        (λ g. after e.now.heights g.heights ≡ f.now.heights)) }
    ensures source { IfOk result (λ found. IfSome found
        (λ g. g.target_len ≡ length e.now.heights)) }
    ensures none { IfOk result (λ found. IsNone found
        ↔ Any (λ height. ¬ Contains e.now.heights height) f.now.heights) }
{
    match places(alloc, f.heights.as_slice(), e.heights.as_slice())? {
        None => Ok(None),
        Some(heights) => Ok(Some(Mono {
            heights,
            target_len: e.heights.len(),
        })),
    }
}

fn places(alloc: Global, f: &[usize], e: &[usize]) -> Result<Option<Items<usize>>, AllocError>
    requires { IsIncreasing e.now }
    ensures places { IfOk result (λ found. IfSome found (λ g. after e.now g ≡ f.now)) }
    ensures below { IfOk result (λ found. IfSome found (λ g. AreBelow g (length e.now))) }
    ensures none { IfOk result (λ found. IsNone found
        ↔ Any (λ height. ¬ Contains e.now height) f.now) }
{
    let mut places = Items::new(alloc);
    for height in f {
        match e.binary_search(height) {
            Ok(place) => places.push(place)?,
            Err(_) => return Ok(None),
        }
    }
    Ok(Some(places))
}
