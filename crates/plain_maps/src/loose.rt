ghost use Rattle.std.specs.Prelude.{◌≡◌, ◌↔◌, IfOk, None, option_map};
ghost use Rattle.diagram_terms.specs.Places.{first_failure};
ghost use Rattle.hashcons.specs.Contents.{IsStore, diagram_at, arrow_at};
ghost use Rattle.zigzag_maps.specs.Found.{IsValidDiagram};
ghost use Rattle.plain_maps.specs.PlainKeeps.{ArePlain};
ghost use Rattle.plain_maps.specs.Plainness.{IsArrowAt, IsPlainDiagramTree, loose_leg, plain_tests_in, leg_test, legs_at};

use crate::plain_arrows::is_plain_once;
use crate::plain_kept::PlainKept;
use diagram_terms::{End, Items, Place, Step, place_here};
use hashcons::{AnyId, ArrowId, DiagramId, Store};
use std::alloc::{AllocError, Global};
use zigzag_maps::{Reading, Walk, first_in};

/// The steps to the first leg of a diagram that is not plain, outermost first.
pub fn first_loose(
    alloc: Global,
    store: &Store,
    d: DiagramId,
) -> Result<Option<Items<Step>>, AllocError>
    requires { IsValidDiagram store.now d }
    ensures exact { IfOk result (λ steps. steps ≡ loose_leg (diagram_at store.now d)) }
    ensures none { IfOk result (λ steps. (steps ≡ None) ↔ IsPlainDiagramTree (diagram_at store.now d)) }
{
    let dim = store.dim(AnyId::Diagram(d));
    let mut kept = PlainKept::new(alloc);
    let mut reading = Reading { store };
    let found = first_in(alloc, &mut reading, &mut kept, dim, d)?;
    Ok(steps_to(found))
}

/// The steps to the place that was found.
fn steps_to(found: Option<Place>) -> Option<Items<Step>>
    ensures { result ≡ option_map (λ p. p.steps) found }
{
    found.map(|place| place.steps)
}

/// The tests of the legs, where the arrows that were found plain are kept, and the diagrams that
/// passed.
impl<'a> Walk<Reading<'a>> for PlainKept {
    ghost right = { ArePlain };

    ghost tests = { plain_tests_in };

    ghost legs = { legs_at };

    fn has_passed(&self, reading: &Reading<'a>, d: DiagramId) -> bool {
        self.passed.has(AnyId::Diagram(d))
    }

    fn pass(
        &mut self,
        reading: &mut Reading<'a>,
        dim: usize,
        d: DiagramId,
    ) -> Result<(), AllocError> {
        self.passed.keep(AnyId::Diagram(d))
    }

    fn leg(
        &mut self,
        alloc: Global,
        reading: &mut Reading<'a>,
        dim: usize,
        d: DiagramId,
        step: Step,
    ) -> Result<Option<Place>, AllocError> {
        let store = reading.store;
        match step {
            Step::F(k) => leg_fault(alloc, store, self, dim - 1, store.fwd(d, k)),
            Step::B(k) => leg_fault(alloc, store, self, dim - 1, store.bwd(d, k)),
            _ => unreachable!(),
        }
    }
}

/// Where a leg is that is not plain, seen from the leg itself.
fn leg_fault(
    alloc: Global,
    store: &Store,
    kept: &mut PlainKept,
    dim: usize,
    leg: ArrowId,
) -> Result<Option<Place>, AllocError>
    requires arrow { IsArrowAt store.now dim leg }
    requires kept { ArePlain store.now kept.old }
    requires store { IsStore store.now }
    ensures exact { IfOk result (λ found. found ≡ first_failure (leg_test (arrow_at store.now leg))) }
    ensures kept { ArePlain store.now kept.new }
{
    if is_plain_once(store, kept, dim, leg)? {
        return Ok(None);
    }
    Ok(Some(place_here(alloc, End::Ends)))
}
