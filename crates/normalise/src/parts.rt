ghost use Rattle.std.specs.Prelude.{◌≡◌, ◌<◌, get_or, length};

use hashcons::{ArrowId, DiagramId};
use smallvec::SmallVec;

/// The normal forms of the regular slices of a diagram, in order.
#[derive(Drop)]
pub(crate) struct Forms {
    pub(crate) sources: SmallVec<DiagramId, 4>,
    pub(crate) arrows: SmallVec<ArrowId, 4>,
}

/// The normal form of the regular slice at `j`.
pub(crate) fn form_at(forms: &Forms, j: usize) -> (DiagramId, ArrowId)
    requires source { j < length forms.now.sources.items }
    requires arrow { j < length forms.now.arrows.items }
    ensures { result ≡ (get_or forms.now.sources.items j 0, get_or forms.now.arrows.items j 0) }
{
    (forms.sources[j], forms.arrows[j])
}
