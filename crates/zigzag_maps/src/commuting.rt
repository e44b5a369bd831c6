ghost use Rattle.std.specs.Prelude.{◌≡◌, ◌+◌, ◌-◌, ◌<◌, ◌≤◌, IfOk, length, suc, Some, [], option_map};
ghost use Rattle.diagram_terms.specs.Dual.{dual};
ghost use Rattle.diagram_terms.specs.Places.{at_each, first_failure, here};
ghost use Rattle.diagram_terms.specs.Tree.{heights, regs, sings};
ghost use Rattle.hashcons.specs.Contents.{Grows, IsStore, diagram_at, arrow_at};
ghost use Rattle.hashcons.specs.Made.{MakesArrow};
ghost use Rattle.zigzag_maps.specs.Visits.{IsValidSlicewise, square_tests, square_holds, left_edge, right_edge, enter_edge, leave_edge};

use crate::composites::{composite, dual_from};
use crate::map::Map;
use diagram_terms::{End, Place, place_here};
use hashcons::{ArrowId, Store};
use std::alloc::{AllocError, Global};

/// The first square that does not commute, of an arrow whose slices are valid.
#[tactic(auto, using(crate::proofs::EdgeSteps::edges))]
pub(crate) fn square_fault(
    alloc: Global,
    store: &mut Store,
    dim: usize,
    f: &Map,
) -> Result<Option<Place>, AllocError>
    requires slicewise { IsValidSlicewise store.old dim f.now }
    requires store { IsStore store.old }
    ensures exact { IfOk result (λ found. found ≡ first_failure
        (at_each (length (sings (diagram_at store.old f.now.target)))
        (square_tests (diagram_at store.old f.now.source) (diagram_at store.old f.now.target) (arrow_at store.old f.now.arrow)))) }
    ensures grows { Grows store.old store.new }
{
    let mut from = 0;
    for k in 0..store.length(f.target) {
        let to = dual_from(store, f.arrow, from, k + 1);
        let fibre = Fibre { over: k, from, to };
        if !square_commutes(alloc, store, dim, f, fibre)? {
            return Ok(Some(place_here(alloc, End::Square(k))));
        }
        from = to;
    }
    Ok(None)
}

/// The heights of a source that go to the height `over` of the target: from `from` on, below `to`.
#[derive(Clone, Copy)]
struct Fibre {
    over: usize,
    from: usize,
    to: usize,
}

/// Whether the square over a height commutes: whether each of its edges is the same along the
/// target and through the heights before and behind it.
#[tactic(auto, using(crate::proofs::EdgeSteps::edges))]
fn square_commutes(
    alloc: Global,
    store: &mut Store,
    dim: usize,
    f: &Map,
    fibre: Fibre,
) -> Result<bool, AllocError>
    requires slicewise { IsValidSlicewise store.old dim f.now }
    requires over { fibre.over < length (sings (diagram_at store.old f.now.target)) }
    requires fits { fibre.over < usize.MAX }
    requires from { fibre.from ≡ dual (heights (arrow_at store.old f.now.arrow)) fibre.over }
    requires to { fibre.to ≡ dual (heights (arrow_at store.old f.now.arrow)) (fibre.over + 1) }
    requires store { IsStore store.old }
    ensures exact { IfOk result (λ commutes. commutes ≡ square_holds
        (diagram_at store.old f.now.source) (diagram_at store.old f.now.target) (arrow_at store.old f.now.arrow) fibre.over) }
    ensures grows { Grows store.old store.new }
{
    let mut edge = left_edge(alloc, store, dim, f, fibre.over)?;
    for i in fibre.from..fibre.to {
        let before = enter_edge(alloc, store, dim, f, i)?;
        if before != edge {
            return Ok(false);
        }
        edge = leave_edge(alloc, store, dim, f, i)?;
    }
    let last = right_edge(alloc, store, dim, f, fibre.over)?;
    Ok(edge == last)
}

/// The edge along the target from the regular slice before the height `k`.
#[tactic(auto, using(crate::proofs::EdgeSteps::edges))]
fn left_edge(
    alloc: Global,
    store: &mut Store,
    dim: usize,
    f: &Map,
    k: usize,
) -> Result<ArrowId, AllocError>
    requires slicewise { IsValidSlicewise store.old dim f.now }
    requires within { k < length (sings (diagram_at store.old f.now.target)) }
    ensures { MakesArrow store.old store.new (left_edge (diagram_at store.old f.now.target) (arrow_at store.old f.now.arrow) k) result }
{
    let leg = store.fwd(f.target, k);
    let slice = store.arrow_reg(f.arrow, k);
    composite(alloc, store, dim - 1, leg, slice)
}

/// The edge along the target from the regular slice behind the height `k`.
#[tactic(auto, using(crate::proofs::EdgeSteps::edges))]
fn right_edge(
    alloc: Global,
    store: &mut Store,
    dim: usize,
    f: &Map,
    k: usize,
) -> Result<ArrowId, AllocError>
    requires slicewise { IsValidSlicewise store.old dim f.now }
    requires within { k < length (sings (diagram_at store.old f.now.target)) }
    requires fits { k < usize.MAX }
    ensures { MakesArrow store.old store.new (right_edge (diagram_at store.old f.now.target) (arrow_at store.old f.now.arrow) k) result }
{
    let leg = store.bwd(f.target, k);
    let slice = store.arrow_reg(f.arrow, k + 1);
    composite(alloc, store, dim - 1, leg, slice)
}

/// The edge through the height `i` of the source from the regular slice before it.
#[tactic(auto, using(crate::proofs::EdgeSteps::edges))]
fn enter_edge(
    alloc: Global,
    store: &mut Store,
    dim: usize,
    f: &Map,
    i: usize,
) -> Result<ArrowId, AllocError>
    requires slicewise { IsValidSlicewise store.old dim f.now }
    requires within { i < length (heights (arrow_at store.old f.now.arrow)) }
    ensures { MakesArrow store.old store.new (enter_edge (diagram_at store.old f.now.source) (arrow_at store.old f.now.arrow) i) result }
{
    let slice = store.arrow_sing(f.arrow, i);
    let leg = store.fwd(f.source, i);
    composite(alloc, store, dim - 1, slice, leg)
}

/// The edge through the height `i` of the source from the regular slice behind it.
#[tactic(auto, using(crate::proofs::EdgeSteps::edges))]
fn leave_edge(
    alloc: Global,
    store: &mut Store,
    dim: usize,
    f: &Map,
    i: usize,
) -> Result<ArrowId, AllocError>
    requires slicewise { IsValidSlicewise store.old dim f.now }
    requires within { i < length (heights (arrow_at store.old f.now.arrow)) }
    ensures { MakesArrow store.old store.new (leave_edge (diagram_at store.old f.now.source) (arrow_at store.old f.now.arrow) i) result }
{
    let slice = store.arrow_sing(f.arrow, i);
    let leg = store.bwd(f.source, i);
    composite(alloc, store, dim - 1, slice, leg)
}
