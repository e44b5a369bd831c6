ghost use Rattle.std.specs.Prelude.{◌≡◌, IfOk};
ghost use Rattle.hashcons.specs.Contents.{IsDiagramOf, Grows, diagram_at};
ghost use Rattle.diagram_terms.specs.Typing.{first_fault_in};
ghost use Rattle.typecheck.specs.Points.{OfAll};

use crate::points::first_failing_point;
use diagram_terms::Fault;
use hashcons::{DiagramId, Store};
use plain_maps::first_loose;
use std::alloc::{AllocError, Global};
use zigzag_maps::{SquareTest, valid};

/// Whether a diagram is well typed, and else why not.
#[derive(Debug, Drop)]
pub enum Verdict {
    Yes,
    No(Fault),
}

/// The first fault of a diagram: its first bad square or end, else its first leg that is not plain,
/// else its first point that fails. `dims` are the dimensions of the generators, in order.
pub(crate) fn first_fault(
    alloc: Global,
    store: &mut Store,
    dims: &[u8],
    d: DiagramId,
) -> Result<Option<Fault>, AllocError>
    requires { IsDiagramOf store.old d }
    ensures exact { IfOk result (λ fault. OfAll dims.now (λ generators.
        fault ≡ first_fault_in generators (diagram_at store.old d))) }
    ensures grows { Grows store.old store.new }
{
    if let SquareTest::Fault(place) = valid(alloc, store, d)? {
        return Ok(Some(Fault::SquareAt(place)));
    }
    if let Some(steps) = first_loose(alloc, store, d)? {
        return Ok(Some(Fault::LooseAt(steps)));
    }
    first_failing_point(alloc, store, dims, d)
}
