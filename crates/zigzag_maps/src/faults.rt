ghost use Rattle.std.specs.Prelude.{◌≡◌, ◌↔◌, ◌+◌, ◌-◌, ◌<◌, ◌≤◌, IfOk, length, suc, Some, option_map};
ghost use Rattle.diagram_terms.specs.Dual.{dual};
ghost use Rattle.diagram_terms.specs.Dimension.{dimension_of};
ghost use Rattle.diagram_terms.specs.FaultsOnTrees.{arrow_fault, tests_between};
ghost use Rattle.diagram_terms.specs.Places.{at_each, ends_hold, first_failure, further_in, here};
ghost use Rattle.diagram_terms.specs.Tree.{heights, regs, sings};
ghost use Rattle.hashcons.specs.Contents.{IsDiagramOf, IsArrowOf, Grows, IsStore, diagram_at, arrow_at};
ghost use Rattle.zigzag_maps.specs.Found.{IsValidDiagram, IsValidMap};
ghost use Rattle.zigzag_maps.specs.Visits.{IsMapAt, FitsEnds, HasValidSlices, fault_of, lengths_are, reg_tests, sing_tests, square_tests, square_holds};

use crate::commuting::square_fault;
use crate::composites::dual_from;
use crate::map::Map;
use crate::outcome::SquareTest;
use diagram_terms::{End, Label, Place, Step, place_here, place_under};
use hashcons::{AnyId, Store};
use std::alloc::{AllocError, Global};

/// Whether the arrow of a map is valid between its ends, and else where it fails first.
pub fn squares(alloc: Global, store: &mut Store, f: Map) -> Result<SquareTest, AllocError>
    requires source { IsValidDiagram store.old f.source }
    requires target { IsValidDiagram store.old f.target }
    requires arrow { IsArrowOf store.old f.arrow }
    ensures exact { IfOk result (λ test. fault_of test
        ≡ arrow_fault (diagram_at store.old f.source) (diagram_at store.old f.target) (arrow_at store.old f.arrow)) }
    ensures yes { IfOk result (λ test. (test ≡ SquareTest.Valid) ↔ IsValidMap store.new f) }
    ensures grows { Grows store.old store.new }
{
    let dim = store.dim(AnyId::Arrow(f.arrow));
    let source_dim = store.dim(AnyId::Diagram(f.source));
    let target_dim = store.dim(AnyId::Diagram(f.target));
    if source_dim != dim || target_dim != dim {
        return Ok(SquareTest::Fault(place_here(alloc, End::Ends)));
    }
    let found = map_fault(alloc, store, dim, &f)?;
    Ok(outcome_of(found))
}

pub(crate) fn outcome_of(found: Option<Place>) -> SquareTest
    ensures { fault_of result ≡ found }
{
    match found {
        Some(place) => SquareTest::Fault(place),
        None => SquareTest::Valid,
    }
}

/// What was found, as seen from one step further out.
pub fn found_in(
    alloc: Global,
    step: Step,
    found: Option<Place>,
) -> Result<Option<Place>, AllocError>
    ensures { IfOk result (λ place. place ≡ option_map (further_in step) found) }
{
    match found {
        None => Ok(None),
        Some(place) => Ok(Some(place_under(alloc, step, place)?)),
    }
}

/// Where an arrow of dimension `dim` between valid diagrams of that dimension fails first. An arrow
/// that is valid between its ends is noted.
#[cycle(faults)]
#[tactic(auto, using(crate::proofs::FaultSteps::faults))]
pub(crate) fn map_fault(
    alloc: Global,
    store: &mut Store,
    dim: usize,
    f: &Map,
) -> Result<Option<Place>, AllocError>
    requires map { IsMapAt store.old dim f.now }
    requires store { IsStore store.old }
    ensures exact { IfOk result (λ found. found ≡ first_failure
        (tests_between (diagram_at store.old f.now.source) (diagram_at store.old f.now.target) (arrow_at store.old f.now.arrow))) }
    ensures grows { Grows store.old store.new }
{
    if store.known_valid_map(f.source, f.target, f.arrow) {
        return Ok(None);
    }
    if let Some(place) = fault_anew(alloc, store, dim, f)? {
        return Ok(Some(place));
    }
    store.note_valid_map(f.source, f.target, f.arrow)?;
    Ok(None)
}

/// Where an arrow that is not noted as valid fails first.
#[cycle(faults)]
#[tactic(auto, using(crate::proofs::FaultSteps::faults))]
fn fault_anew(
    alloc: Global,
    store: &mut Store,
    dim: usize,
    f: &Map,
) -> Result<Option<Place>, AllocError>
    requires map { IsMapAt store.old dim f.now }
    requires store { IsStore store.old }
    ensures exact { IfOk result (λ found. found ≡ first_failure
        (tests_between (diagram_at store.old f.now.source) (diagram_at store.old f.now.target) (arrow_at store.old f.now.arrow))) }
    ensures grows { Grows store.old store.new }
{
    if dim == 0 {
        if pair_fits(store, f) {
            return Ok(None);
        }
        return Ok(Some(place_here(alloc, End::Ends)));
    }
    if !lengths_fit(store, f) {
        return Ok(Some(place_here(alloc, End::Ends)));
    }
    if let Some(place) = regular_fault(alloc, store, dim, f)? {
        return Ok(Some(place));
    }
    if let Some(place) = singular_fault(alloc, store, dim, f)? {
        return Ok(Some(place));
    }
    square_fault(alloc, store, dim, f)
}

/// Whether an arrow of dimension 0 is the pair of its ends, in order.
fn pair_fits(store: &Store, f: &Map) -> bool
    requires map { IsMapAt store.now 0 f.now }
    ensures { tests_between (diagram_at store.now f.now.source) (diagram_at store.now f.now.target) (arrow_at store.now f.now.arrow)
        ≡ here End.Ends result }
{
    let (from, to) = store.pair(f.arrow);
    let x = store.label(f.source);
    let y = store.label(f.target);
    is_pair(from, to, x, y)
}

fn is_pair(from: Label, to: Label, x: Label, y: Label) -> bool
    ensures { result ≡ ends_hold x y (record { from = from; to = to }) }
{
    from == x && to == y && x.is_at_most(y)
}

/// Whether the lengths of an arrow are those of its ends.
fn lengths_fit(store: &Store, f: &Map) -> bool
    requires source { IsDiagramOf store.now f.now.source }
    requires target { IsDiagramOf store.now f.now.target }
    requires arrow { IsArrowOf store.now f.now.arrow }
    requires above { 0 < dimension_of (arrow_at store.now f.now.arrow) }
    ensures { result
        ≡ lengths_are (diagram_at store.now f.now.source) (diagram_at store.now f.now.target) (arrow_at store.now f.now.arrow) }
{
    store.source_len(f.arrow) == store.length(f.source)
        && store.target_len(f.arrow) == store.length(f.target)
}

/// The first fault in a regular slice.
#[cycle(faults)]
#[tactic(auto, using(crate::proofs::FaultSteps::faults))]
fn regular_fault(
    alloc: Global,
    store: &mut Store,
    dim: usize,
    f: &Map,
) -> Result<Option<Place>, AllocError>
    requires map { IsMapAt store.old dim f.now }
    requires above { 0 < dim }
    requires fits { FitsEnds (diagram_at store.old f.now.source) (diagram_at store.old f.now.target) (arrow_at store.old f.now.arrow) }
    requires store { IsStore store.old }
    ensures exact { IfOk result (λ found. found ≡ first_failure
        (at_each (suc (length (sings (diagram_at store.old f.now.target))))
        (reg_tests (diagram_at store.old f.now.source) (diagram_at store.old f.now.target) (arrow_at store.old f.now.arrow)))) }
    ensures grows { Grows store.old store.new }
{
    let last = store.length(f.target);
    let mut below = 0;
    for j in 0..last {
        if let Some(place) = regular_slice_fault(alloc, store, dim, f, j, below)? {
            return Ok(Some(place));
        }
        below = dual_from(store, f.arrow, below, j + 1);
    }
    regular_slice_fault(alloc, store, dim, f, last, below)
}

/// The first fault in the regular slice at `j`, where `below` heights go below `j`.
#[cycle(faults)]
#[tactic(auto, using(crate::proofs::FaultSteps::faults))]
fn regular_slice_fault(
    alloc: Global,
    store: &mut Store,
    dim: usize,
    f: &Map,
    j: usize,
    below: usize,
) -> Result<Option<Place>, AllocError>
    requires map { IsMapAt store.old dim f.now }
    requires above { 0 < dim }
    requires fits { FitsEnds (diagram_at store.old f.now.source) (diagram_at store.old f.now.target) (arrow_at store.old f.now.arrow) }
    requires within { j ≤ length (sings (diagram_at store.old f.now.target)) }
    requires below { below ≡ dual (heights (arrow_at store.old f.now.arrow)) j }
    requires store { IsStore store.old }
    ensures exact { IfOk result (λ found. found ≡ first_failure
        (reg_tests (diagram_at store.old f.now.source) (diagram_at store.old f.now.target) (arrow_at store.old f.now.arrow) j)) }
    ensures grows { Grows store.old store.new }
{
    let slice = Map {
        source: store.reg(f.source, below),
        target: store.reg(f.target, j),
        arrow: store.arrow_reg(f.arrow, j),
    };
    let found = map_fault(alloc, store, dim - 1, &slice)?;
    found_in(alloc, Step::R(j), found)
}

/// The first fault in a singular slice.
#[cycle(faults)]
#[tactic(auto, using(crate::proofs::FaultSteps::faults))]
fn singular_fault(
    alloc: Global,
    store: &mut Store,
    dim: usize,
    f: &Map,
) -> Result<Option<Place>, AllocError>
    requires map { IsMapAt store.old dim f.now }
    requires above { 0 < dim }
    requires fits { FitsEnds (diagram_at store.old f.now.source) (diagram_at store.old f.now.target) (arrow_at store.old f.now.arrow) }
    requires store { IsStore store.old }
    ensures exact { IfOk result (λ found. found ≡ first_failure
        (at_each (length (sings (diagram_at store.old f.now.source)))
        (sing_tests (diagram_at store.old f.now.source) (diagram_at store.old f.now.target) (arrow_at store.old f.now.arrow)))) }
    ensures grows { Grows store.old store.new }
{
    for i in 0..store.length(f.source) {
        let slice = Map {
            source: store.sing(f.source, i),
            target: store.sing(f.target, store.height(f.arrow, i)),
            arrow: store.arrow_sing(f.arrow, i),
        };
        let found = map_fault(alloc, store, dim - 1, &slice)?;
        if let Some(place) = found_in(alloc, Step::S(i), found)? {
            return Ok(Some(place));
        }
    }
    Ok(None)
}
