use diagram_terms::{
    Arrow, Diagram, End, Label, Step, dimension, equal_trees, place_here, place_under,
};
use std::alloc::{AllocError, Global};
use std::test::Fail;

const X: Label = Label { number: 0, dim: 0 };

const F: Label = Label { number: 1, dim: 1 };

/// `from -> middle <- to` with these legs.
fn cospan(
    alloc: Global,
    (from, middle, to): (Label, Label, Label),
    forward: (Label, Label),
    backward: (Label, Label),
) -> Result<Diagram, AllocError> {
    Ok(Diagram::Zig {
        regs: vec![in alloc; Diagram::Zero(from), Diagram::Zero(to)]?,
        sings: vec![in alloc; Diagram::Zero(middle)]?,
        fwds: vec![in alloc; Arrow::Zero(forward.0, forward.1)]?,
        bwds: vec![in alloc; Arrow::Zero(backward.0, backward.1)]?,
    })
}

#[test]
fn compares_trees(rt: HostRuntime) -> Result<(), Fail> {
    let alloc = rt.alloc();
    let one = cospan(alloc, (X, F, X), (X, F), (X, F))?;
    let same = cospan(alloc, (X, F, X), (X, F), (X, F))?;
    let other = cospan(alloc, (X, F, X), (X, F), (X, X))?;
    assert!(rt; equal_trees(&one, &same));
    assert!(rt; !equal_trees(&one, &other));
    assert!(rt; !equal_trees(&one, &Diagram::Zero(X)));
    assert_eq!(rt; dimension(&one), 1);
    assert_eq!(rt; dimension(&Diagram::Zero(F)), 0);
    Ok(())
}

#[test]
fn places_are_seen_from_further_out(rt: HostRuntime) -> Result<(), Fail> {
    let alloc = rt.alloc();
    let place = place_under(alloc, Step::S(2), place_here(alloc, End::Square(1)))?;
    let place = place_under(alloc, Step::F(0), place)?;
    assert_eq!(rt; place.steps.as_slice(), [Step::F(0), Step::S(2)].as_slice());
    assert_eq!(rt; place.end, End::Square(1));
    Ok(())
}
