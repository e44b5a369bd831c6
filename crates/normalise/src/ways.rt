ghost use Rattle.std.specs.Prelude.{◌≡◌, ◌<◌, IfOk, length, suc};
ghost use Rattle.diagram_terms.specs.Dimension.{dimension_of};
ghost use Rattle.diagram_terms.specs.Shape.{sing_at};
ghost use Rattle.diagram_terms.specs.Tree.{sings};
ghost use Rattle.hashcons.specs.Contents.{Grows, IsStore, arrow_at, diagram_at, leg_of};
ghost use Rattle.hashcons.specs.NoteTables.{key_of};
ghost use Rattle.zigzag_maps.specs.Found.{IsValidMap};
ghost use Rattle.normalise.specs.FormTrees.{way_tree, way_trees};
ghost use Rattle.normalise.specs.StoreForms.{AreForms, IsKeyOf, IsKeyWith, IsLegInto, IsLegWith, legs_of};

use crate::parts::{Forms, form_at};
use crate::slices::slices_over;
use hashcons::{ArrowId, DiagramId, NormalKey, Store};
use smallvec::SmallVec;
use std::alloc::{AllocError, Global};
use zigzag_maps::{Map, bwd_map, compose, fwd_map};

/// A singular slice of the target of a key, with what leads into it: the slices of the legs there,
/// and the two composites from the normal forms of its neighbours.
#[tactic(auto, using(crate::proofs::FormsInStore::forming))]
pub(crate) fn singular_key(
    alloc: Global,
    store: &mut Store,
    key: &NormalKey,
    forms: &Forms,
    k: usize,
    next: usize,
) -> Result<NormalKey, AllocError>
    requires key { IsKeyOf store.old (key_of key.now) }
    requires above { 0 < dimension_of (diagram_at store.old key.now.target) }
    requires within { k < length (sings (diagram_at store.old key.now.target)) }
    requires next { next ≡ suc k }
    requires forms { AreForms store.old (diagram_at store.old key.now.target) (legs_of store.old key.now.legs.items)
        (suc (length (sings (diagram_at store.old key.now.target)))) forms.now }
    requires store { IsStore store.old }
    ensures grows { Grows store.old store.new }
    ensures key { IfOk result (λ s. IsKeyWith store.new (sing_at (diagram_at store.old key.now.target) k)
        (way_trees (diagram_at store.old key.now.target) (legs_of store.old key.now.legs.items) k) (key_of s)) }
{
    let target = store.sing(key.target, k);
    let fwd = fwd_map(store, key.target, k);
    let bwd = bwd_map(store, key.target, k);
    let mut ways = slices_over(alloc, store, key, k, next)?;
    let (source, arrow) = form_at(forms, k);
    let before = way(alloc, store, fwd, source, arrow)?;
    let (last, last_arrow) = form_at(forms, next);
    let behind = way(alloc, store, bwd, last, last_arrow)?;
    ways.push(before)?;
    ways.push(behind)?;
    let legs = SmallVec::from_slice(alloc, ways.as_slice())?;
    Ok(NormalKey { target, legs })
}

/// The composite of a map after a leg into its source, as a leg.
fn way(
    alloc: Global,
    store: &mut Store,
    outer: Map,
    source: DiagramId,
    arrow: ArrowId,
) -> Result<(DiagramId, ArrowId), AllocError>
    requires outer { IsValidMap store.old outer }
    requires inner { IsLegInto store.old (diagram_at store.old outer.source) (source, arrow) }
    ensures grows { Grows store.old store.new }
    ensures into { IfOk result (IsLegInto store.new (diagram_at store.old outer.target)) }
    ensures trees { IfOk result (IsLegWith store.new
        (way_tree (arrow_at store.old outer.arrow) (leg_of store.old (source, arrow)))) }
{
    let inner = Map {
        source,
        target: outer.source,
        arrow,
    };
    let made = compose(alloc, store, outer, inner)?;
    Ok((made.source, made.arrow))
}
