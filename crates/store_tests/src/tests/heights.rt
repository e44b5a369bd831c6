ghost use Rattle.std.specs.Prelude.{◌≡◌, IfOk, length};
ghost use Rattle.diagram_terms.specs.Dual.{IsIncreasing};

use monotone_dual::{Mono, MonoRefusal, compose, make, skip, through_injection};
use std::alloc::{AllocError, Global};
use std::test::Fail;

#[test]
fn makes_heights(rt: HostRuntime) -> Result<(), Fail> {
    let alloc = rt.alloc();
    let made = make(vec![in alloc; 1, 1, 3]?, 5)?;
    for (j, dual) in [0, 0, 2, 2, 3, 3].iter().enumerate() {
        assert!(rt; j <= made.target_len);
        assert_eq!(rt; made.dual_at(j), *dual, "at {j}");
    }
    assert!(rt; made.target_len == 5);
    assert_eq!(rt; made.fibre(1), (0, 2));
    assert_eq!(rt; made.fibre(2), (2, 2));
    assert_eq!(rt; made.fibre(3), (2, 3));
    Ok(())
}

#[test]
fn refuses_heights(rt: HostRuntime) -> Result<(), Fail> {
    let alloc = rt.alloc();
    assert_eq!(rt;
        make(vec![in alloc; 2, 1]?, 3).err(),
        Some(MonoRefusal::NotMonotone(1))
    );
    assert_eq!(rt;
        make(vec![in alloc; 0, 3]?, 3).err(),
        Some(MonoRefusal::OutOfRange(1))
    );
    assert_eq!(rt;
        make(vec![in alloc; 1, 0, 3]?, 3).err(),
        Some(MonoRefusal::OutOfRange(2))
    );
    Ok(())
}

/// The injection into 4 heights that misses 0 and 2.
fn injection(alloc: Global) -> Result<Mono, AllocError>
    ensures increasing { IfOk result (λ e. IsIncreasing e.heights) }
    ensures source { IfOk result (λ e. length e.heights ≡ 2) }
    ensures target { IfOk result (λ e. e.target_len ≡ 4) }
{
    skip(alloc, 4, &[0, 2])
}

/// The factor of these heights through it.
fn factor(alloc: Global, heights: Vec<usize>) -> Result<Option<Mono>, Fail> {
    let e = injection(alloc)?;
    let f = make(heights, 4)?;
    Ok(through_injection(alloc, &f, &e)?)
}

#[test]
fn goes_through_injections(rt: HostRuntime) -> Result<(), Fail> {
    let alloc = rt.alloc();
    let e = injection(alloc)?;
    assert_eq!(rt; e.heights.as_slice(), [1, 3].as_slice());
    assert!(rt; e.target_len == 4);
    let g = factor(alloc, vec![in alloc; 3, 3]?)?.ok_or("no factor")?;
    assert_eq!(rt; g.heights.as_slice(), [1, 1].as_slice());
    assert!(rt; g.target_len == 2);
    assert!(rt; factor(alloc, vec![in alloc; 0]?)?.is_none());
    Ok(())
}

/// It after these heights.
fn composite(alloc: Global, heights: Vec<usize>) -> Result<Mono, Fail> {
    let g = injection(alloc)?;
    let f = make(heights, 2)?;
    Ok(compose(alloc, &g, &f)?)
}

#[test]
fn composes_heights(rt: HostRuntime) -> Result<(), Fail> {
    let composite = composite(rt.alloc(), vec![in rt.alloc(); 1, 1]?)?;
    assert_eq!(rt; composite.heights.as_slice(), [3, 3].as_slice());
    assert!(rt; composite.target_len == 4);
    Ok(())
}
