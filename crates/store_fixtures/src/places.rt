ghost use Rattle.std.specs.Prelude.{◌≡◌, IfOk, Some, slice_get};

use hashcons::{AnyId, ArrowId, DiagramId};

/// Nothing of the wanted kind stands at the place.
#[derive(Clone, Copy, Debug, PartialEq, Eq)]
pub struct NotThere;

/// The diagram whose id stands at a place.
pub fn diagram_at(ids: &[AnyId], place: usize) -> Result<DiagramId, NotThere>
    ensures { IfOk result (λ d. slice_get ids.now place ≡ Some (AnyId.Diagram d)) }
{
    match ids.get(place) {
        Some(AnyId::Diagram(d)) => Ok(*d),
        _ => Err(NotThere),
    }
}

/// The arrow whose id stands at a place.
pub fn arrow_at(ids: &[AnyId], place: usize) -> Result<ArrowId, NotThere>
    ensures { IfOk result (λ a. slice_get ids.now place ≡ Some (AnyId.Arrow a)) }
{
    match ids.get(place) {
        Some(AnyId::Arrow(a)) => Ok(*a),
        _ => Err(NotThere),
    }
}
