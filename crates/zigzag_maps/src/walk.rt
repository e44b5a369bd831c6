ghost use Rattle.std.specs.Prelude.{◌≡◌, ◌<◌, IfOk, IsTrue, List, length, suc, Some};
ghost use Rattle.diagram_terms.specs.declared.place.Step.{Step};
ghost use Rattle.diagram_terms.specs.Order.{LeadsIn, PassedBefore, regs_before, sings_before};
ghost use Rattle.diagram_terms.specs.Places.{Test, first_failure};
ghost use Rattle.diagram_terms.specs.Tree.{Tree, sings};
ghost use Rattle.hashcons.specs.Contents.{Contents, Grows, IsStore, diagram_at};
ghost use Rattle.zigzag_maps.specs.Walks.{IsWalk, LeadsToLeg, PassesTests, tests_in_part};
ghost use Rattle.zigzag_maps.specs.DiagramTests.{IsDiagramAt};

use crate::faults::found_in;
use crate::order::next_step;
use diagram_terms::{Place, Step};
use hashcons::{DiagramId, Store};
use std::alloc::{AllocError, Global};

/// What a walk goes through: a store that is only read, or one that grows meanwhile.
pub trait Held {
    /// What callers see of the store.
    ghost contents: { Self → Contents };

    fn store(&self) -> &Store
        ensures { result.now ≡ contents self.now };
}

impl Held for Store {
    ghost contents = { λ s. s };

    fn store(&self) -> &Store {
        self
    }
}

/// A store that is only read.
#[derive(Clone, Copy)]
pub struct Reading<'a> {
    pub store: &'a Store,
}

impl<'a> Held for Reading<'a> {
    ghost contents = { λ r. r.store.now };

    fn store(&self) -> &Store {
        self.store
    }
}

/// What is tested in the legs of a diagram.
pub trait Walk<S: Held> {
    /// What is kept of this store is right.
    ghost right: { Contents → Self → Type 0 };
    /// The tests of a diagram, and those of its legs.
    ghost tests: { Tree → List Test };

    ghost legs: { Tree → Step → List Test };

    /// Whether a diagram is known to have passed: none of its tests fails.
    fn has_passed(&self, store: &S, d: DiagramId) -> bool
        requires right { right (S.contents store.now) self.now }
        ensures { IsTrue result → PassesTests tests (diagram_at (S.contents store.now) d) };

    /// A diagram has passed.
    fn pass(&mut self, store: &mut S, dim: usize, d: DiagramId) -> Result<(), AllocError>
        requires diagram { IsDiagramAt (S.contents store.old) dim d }
        requires passes { PassesTests tests (diagram_at (S.contents store.old) d) }
        requires right { right (S.contents store.old) self.old }
        ensures right { right (S.contents store.new) self.new }
        ensures grows { Grows (S.contents store.old) (S.contents store.new) };

    /// The first test that fails in the leg to which `step` leads, seen from there.
    fn leg(
        &mut self,
        alloc: Global,
        store: &mut S,
        dim: usize,
        d: DiagramId,
        step: Step,
    ) -> Result<Option<Place>, AllocError>
        requires diagram { IsDiagramAt (S.contents store.old) dim d }
        requires above { 0 < dim }
        requires leads { LeadsToLeg (length (sings (diagram_at (S.contents store.old) d))) step }
        requires passed { PassedBefore (tests_in_part tests legs (diagram_at (S.contents store.old) d))
            (suc (length (sings (diagram_at (S.contents store.old) d)))) (length (sings (diagram_at (S.contents store.old) d))) }
        requires right { right (S.contents store.old) self.old }
        requires store { IsStore (S.contents store.old) }
        ensures exact { IfOk result (λ found. found ≡ first_failure (legs (diagram_at (S.contents store.old) d) step)) }
        ensures right { right (S.contents store.new) self.new }
        ensures grows { Grows (S.contents store.old) (S.contents store.new) };
}

/// Where the first test of a diagram of dimension `dim` is that fails. A diagram in which none fails
/// is looked at once.
#[cycle(walks)]
#[tactic(auto, using(crate::proofs::ValiditySteps::steps))]
pub fn first_in<S: Held, W: Walk<S>>(
    alloc: Global,
    store: &mut S,
    walk: &mut W,
    dim: usize,
    d: DiagramId,
) -> Result<Option<Place>, AllocError>
    requires law { IsWalk W.tests W.legs }
    requires diagram { IsDiagramAt (S.contents store.old) dim d }
    requires right { W.right (S.contents store.old) walk.old }
    requires store { IsStore (S.contents store.old) }
    ensures exact { IfOk result (λ found. found ≡ first_failure (W.tests (diagram_at (S.contents store.old) d))) }
    ensures right { W.right (S.contents store.new) walk.new }
    ensures grows { Grows (S.contents store.old) (S.contents store.new) }
{
    if walk.has_passed(store, d) {
        return Ok(None);
    }
    if let Some(place) = first_in_parts(alloc, store, walk, dim, d)? {
        return Ok(Some(place));
    }
    walk.pass(store, dim, d)?;
    Ok(None)
}

/// The first one in the parts of a diagram, in the order of visiting.
#[cycle(walks)]
#[tactic(auto, using(crate::proofs::ValiditySteps::steps))]
pub(crate) fn first_in_parts<S: Held, W: Walk<S>>(
    alloc: Global,
    store: &mut S,
    walk: &mut W,
    dim: usize,
    d: DiagramId,
) -> Result<Option<Place>, AllocError>
    requires law { IsWalk W.tests W.legs }
    requires diagram { IsDiagramAt (S.contents store.old) dim d }
    requires right { W.right (S.contents store.old) walk.old }
    requires store { IsStore (S.contents store.old) }
    ensures exact { IfOk result (λ found. found ≡ first_failure (W.tests (diagram_at (S.contents store.old) d))) }
    ensures right { W.right (S.contents store.new) walk.new }
    ensures grows { Grows (S.contents store.old) (S.contents store.new) }
{
    if dim == 0 {
        return Ok(None);
    }
    let length = store.store().length(d);
    let mut next = Some(Step::R(0));
    while let Some(step) = next {
        let found = first_at(alloc, store, walk, dim, d, step)?;
        if let Some(place) = found_in(alloc, step, found)? {
            return Ok(Some(place));
        }
        next = next_step(length, step);
    }
    Ok(None)
}

/// The first one in the part to which `step` leads, seen from there.
#[cycle(walks)]
#[tactic(auto, using(crate::proofs::ValiditySteps::steps))]
fn first_at<S: Held, W: Walk<S>>(
    alloc: Global,
    store: &mut S,
    walk: &mut W,
    dim: usize,
    d: DiagramId,
    step: Step,
) -> Result<Option<Place>, AllocError>
    requires law { IsWalk W.tests W.legs }
    requires diagram { IsDiagramAt (S.contents store.old) dim d }
    requires above { 0 < dim }
    requires leads { LeadsIn (length (sings (diagram_at (S.contents store.old) d))) step }
    requires before { PassedBefore (tests_in_part W.tests W.legs (diagram_at (S.contents store.old) d))
        (regs_before (length (sings (diagram_at (S.contents store.old) d))) (Some step)) (sings_before (length (sings (diagram_at (S.contents store.old) d))) (Some step)) }
    requires right { W.right (S.contents store.old) walk.old }
    requires store { IsStore (S.contents store.old) }
    ensures exact { IfOk result (λ found. found ≡ first_failure (tests_in_part W.tests W.legs (diagram_at (S.contents store.old) d) step)) }
    ensures right { W.right (S.contents store.new) walk.new }
    ensures grows { Grows (S.contents store.old) (S.contents store.new) }
{
    match step {
        Step::R(j) => {
            let slice = store.store().reg(d, j);
            first_in(alloc, store, walk, dim - 1, slice)
        }
        Step::S(i) => {
            let slice = store.store().sing(d, i);
            first_in(alloc, store, walk, dim - 1, slice)
        }
        _ => walk.leg(alloc, store, dim, d, step),
    }
}
