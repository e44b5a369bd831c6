ghost use Rattle.std.specs.Prelude.{◌≡◌};
ghost use Rattle.hashcons.specs.Ids.{IsArrowId, IsDiagramId};

use hashcons::{AnyId, ArrowId, DiagramId};

/// The diagram that an id stands for.
pub(crate) fn diagram_of(id: AnyId) -> DiagramId
    requires { IsDiagramId id }
    ensures { id ≡ AnyId.Diagram result }
{
    match id {
        AnyId::Diagram(diagram) => diagram,
        AnyId::Arrow(_) => unreachable!(),
    }
}

/// The arrow that an id stands for.
pub(crate) fn arrow_of(id: AnyId) -> ArrowId
    requires { IsArrowId id }
    ensures { id ≡ AnyId.Arrow result }
{
    match id {
        AnyId::Diagram(_) => unreachable!(),
        AnyId::Arrow(arrow) => arrow,
    }
}
