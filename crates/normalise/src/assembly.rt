ghost use Rattle.std.specs.Prelude.{◌≡◌, ◌<◌, length, suc};
ghost use Rattle.diagram_terms.specs.Dimension.{dimension_of};
ghost use Rattle.diagram_terms.specs.Tree.{sings};
ghost use Rattle.hashcons.specs.Contents.{IsStore, diagram_at};
ghost use Rattle.hashcons.specs.NoteTables.{key_of};
ghost use Rattle.normalise.specs.FormTrees.{normal_tree};
ghost use Rattle.normalise.specs.StoreForms.{AreForms, IsKeyOf, IsLeftOf, MakesLeg, legs_of};

use crate::left::Left;
use crate::parts::{Forms, form_at};
use hashcons::{ArrowId, ArrowNode, DiagramId, DiagramNode, NormalKey, Store};
use std::alloc::AllocError;

/// The normal form of the target of a key, out of what is left of its heights and the normal forms
/// of its regular slices, of which `last` is the last one.
pub(crate) fn assembled(
    store: &mut Store,
    key: &NormalKey,
    forms: Forms,
    left: Left,
    last: usize,
) -> Result<(DiagramId, ArrowId), AllocError>
    requires key { IsKeyOf store.old (key_of key.now) }
    requires above { 0 < dimension_of (diagram_at store.old key.now.target) }
    requires last { last ≡ length (sings (diagram_at store.old key.now.target)) }
    requires forms { AreForms store.old (diagram_at store.old key.now.target) (legs_of store.old key.now.legs.items) (suc last) forms }
    requires left { IsLeftOf store.old (diagram_at store.old key.now.target) (legs_of store.old key.now.legs.items) last left }
    requires store { IsStore store.old }
    ensures { MakesLeg store.old store.new
        (normal_tree (diagram_at store.old key.now.target) (legs_of store.old key.now.legs.items)) result }
{
    let (reg, _) = form_at(&forms, last);
    let Left {
        heights,
        mut regs,
        sings,
        fwds,
        bwds,
        arrows,
    } = left;
    regs.push(reg)?;
    let source = store.put_diagram(DiagramNode::Zig {
        regs,
        sings,
        fwds,
        bwds,
    })?;
    let arrow = store.put_arrow(ArrowNode::Zig {
        heights,
        regs: forms.arrows,
        sings: arrows,
    })?;
    Ok((source, arrow))
}
