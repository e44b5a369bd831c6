ghost use Rattle.std.specs.Prelude.{◌≡◌, ◌↔◌, ◌-◌, ◌<◌, IfOk, IsTrue, Ok, length};
ghost use Rattle.diagram_terms.specs.Places.{first_failure};
ghost use Rattle.diagram_terms.specs.Tree.{sings};
ghost use Rattle.hashcons.specs.Contents.{IsDiagramOf, Grows, IsStore, diagram_at, noted_valid};
ghost use Rattle.zigzag_maps.specs.Found.{IsValidDiagram};
ghost use Rattle.zigzag_maps.specs.DiagramTests.{IsDiagramAt, HasValidParts, tests_in, legs_of};
ghost use Rattle.diagram_terms.specs.FaultsOnTrees.{diagram_fault as diagram_fault_of};
ghost use Rattle.zigzag_maps.specs.Visits.{fault_of};

use crate::faults::map_fault;
use crate::map::Map;
use crate::outcome::SquareTest;
use crate::walk::{Walk, first_in_parts};
use diagram_terms::{Place, Step};
use hashcons::{AnyId, DiagramId, Store};
use std::alloc::{AllocError, Global};

/// Whether a diagram is valid, and else the first place where it is not. A valid diagram is noted.
pub fn valid(alloc: Global, store: &mut Store, d: DiagramId) -> Result<SquareTest, AllocError>
    requires of_store { IsDiagramOf store.old d }
    ensures exact { IfOk result (λ test. fault_of test ≡ diagram_fault_of (diagram_at store.old d)) }
    ensures yes { IfOk result (λ test. (test ≡ SquareTest.Valid) ↔ IsValidDiagram store.new d) }
    ensures noted { IfOk result (λ test. test ≡ SquareTest.Valid → IsTrue (noted_valid store.new d)) }
    ensures known { IsTrue (noted_valid store.old d) → (result ≡ Ok SquareTest.Valid) × (store.new ≡ store.old) }
    ensures grows { Grows store.old store.new }
{
    if store.known_valid(d) {
        return Ok(SquareTest::Valid);
    }
    let dim = store.dim(AnyId::Diagram(d));
    if let Some(place) = first_in_parts(alloc, store, &mut Noting, dim, d)? {
        return Ok(SquareTest::Fault(place));
    }
    store.note_valid(d)?;
    Ok(SquareTest::Valid)
}

/// The tests of a diagram, where the store notes what is valid.
#[derive(Drop)]
struct Noting;

impl Walk<Store> for Noting {
    ghost right = { λ c walk. Unit {0} };

    ghost tests = { tests_in };

    ghost legs = { legs_of };

    fn has_passed(&self, store: &Store, d: DiagramId) -> bool {
        store.known_valid(d)
    }

    fn pass(&mut self, store: &mut Store, dim: usize, d: DiagramId) -> Result<(), AllocError> {
        store.note_valid(d)
    }

    #[tactic(auto, using(crate::proofs::ValiditySteps::diagrams))]
    fn leg(
        &mut self,
        alloc: Global,
        store: &mut Store,
        dim: usize,
        d: DiagramId,
        step: Step,
    ) -> Result<Option<Place>, AllocError> {
        match step {
            Step::F(k) => fwd_fault(alloc, store, dim, d, k),
            Step::B(k) => bwd_fault(alloc, store, dim, d, k),
            _ => unreachable!(),
        }
    }
}

/// The first fault in the leg forward at `k`, seen from the leg.
#[tactic(auto, using(crate::proofs::ValiditySteps::diagrams))]
fn fwd_fault(
    alloc: Global,
    store: &mut Store,
    dim: usize,
    d: DiagramId,
    k: usize,
) -> Result<Option<Place>, AllocError>
    requires diagram { IsDiagramAt store.old dim d }
    requires above { 0 < dim }
    requires parts { HasValidParts (dim - 1) (diagram_at store.old d) }
    requires within { k < length (sings (diagram_at store.old d)) }
    requires store { IsStore store.old }
    ensures exact { IfOk result (λ found. found ≡ first_failure (legs_of (diagram_at store.old d) (Step.F k))) }
    ensures grows { Grows store.old store.new }
{
    let leg = Map {
        source: store.reg(d, k),
        target: store.sing(d, k),
        arrow: store.fwd(d, k),
    };
    map_fault(alloc, store, dim - 1, &leg)
}

/// The first fault in the leg backward at `k`, seen from the leg.
#[tactic(auto, using(crate::proofs::ValiditySteps::diagrams))]
fn bwd_fault(
    alloc: Global,
    store: &mut Store,
    dim: usize,
    d: DiagramId,
    k: usize,
) -> Result<Option<Place>, AllocError>
    requires diagram { IsDiagramAt store.old dim d }
    requires above { 0 < dim }
    requires parts { HasValidParts (dim - 1) (diagram_at store.old d) }
    requires within { k < length (sings (diagram_at store.old d)) }
    requires store { IsStore store.old }
    ensures exact { IfOk result (λ found. found ≡ first_failure (legs_of (diagram_at store.old d) (Step.B k))) }
    ensures grows { Grows store.old store.new }
{
    // a height is below a length, so the next number fits
    let _ = store.length(d);
    let leg = Map {
        source: store.reg(d, k + 1),
        target: store.sing(d, k),
        arrow: store.bwd(d, k),
    };
    map_fault(alloc, store, dim - 1, &leg)
}
