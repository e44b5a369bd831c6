ghost use Rattle.std.specs.Prelude.{◌≡◌, ◌↔◌, ◌<◌, IsTrue, length};
ghost use Rattle.diagram_terms.specs.Dimension.{IsArrowTree, dimension_of};
ghost use Rattle.diagram_terms.specs.Dual.{AreBelow};
ghost use Rattle.diagram_terms.specs.Nodes.{picked};
ghost use Rattle.diagram_terms.specs.Tree.{regs, zag};
ghost use Rattle.hashcons.specs.Contents.{IsArrowOf, IsStore, arrow_at};
ghost use Rattle.hashcons.specs.Made.{MakesArrow};
ghost use Rattle.hashcons.specs.Nodes.{AreArrowChildren};

use hashcons::{ArrowId, ArrowNode, Store};
use smallvec::SmallVec;
use std::alloc::AllocError;

/// The id of the arrow with these heights and slices. Where `like` has the same regular slices,
/// their list is not put again.
pub(crate) fn put_sharing(
    store: &mut Store,
    like: ArrowId,
    heights: SmallVec<usize, 4>,
    regs: SmallVec<ArrowId, 4>,
    sings: SmallVec<ArrowId, 4>,
) -> Result<ArrowId, AllocError>
    requires like { IsArrowOf store.old like }
    requires above { 0 < dimension_of (arrow_at store.old like) }
    requires children { AreArrowChildren (length store.old.arrows) regs.items sings.items }
    requires shape { IsArrowTree (zag heights.items (picked store.old.arrows regs.items) (picked store.old.arrows sings.items)) }
    requires store { IsStore store.old }
    ensures { MakesArrow store.old store.new
        (zag heights.items (picked store.old.arrows regs.items) (picked store.old.arrows sings.items)) result }
{
    if has_regs(store, like, regs.as_slice()) {
        return store.put_arrow_like(like, heights, sings);
    }
    store.put_arrow(ArrowNode::Zig {
        heights,
        regs,
        sings,
    })
}

/// Whether the regular slices of an arrow are these.
fn has_regs(store: &Store, a: ArrowId, slices: &[ArrowId]) -> bool
    requires of_store { IsArrowOf store.now a }
    requires above { 0 < dimension_of (arrow_at store.now a) }
    requires slices { AreBelow slices.now (length store.now.arrows) }
    requires store { IsStore store.now }
    ensures { IsTrue result ↔ (picked store.now.arrows slices.now ≡ regs (arrow_at store.now a)) }
{
    if slices.len() != store.regs_len(a) {
        return false;
    }
    for at in 0..slices.len() {
        if store.arrow_reg(a, at) != slices[at] {
            return false;
        }
    }
    true
}
