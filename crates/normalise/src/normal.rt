ghost use Rattle.std.specs.Prelude.{◌≡◌, IfOk, IsSome, Some};
ghost use Rattle.hashcons.specs.Contents.{Grows, IsNormalOf, noted_normal};
ghost use Rattle.zigzag_maps.specs.Found.{IsValidDiagram, IsValidMap};
ghost use Rattle.degeneracy.specs.DegeneracyTrees.{IsDegeneracyMap};
ghost use Rattle.normalise.specs.NormalMaps.{AreMapsInto, HasReducedSource, as_noted, key_for};

use crate::forms::note_form;
use crate::keys::key_for;
use crate::known::known_answer;
use hashcons::{AnyId, ArrowId, DiagramId, Store};
use std::alloc::{AllocError, Global};
use zigzag_maps::Map;

/// A degeneracy into a diagram, and the factors through it of legs into the diagram, in their order.
#[derive(Debug, Drop)]
pub struct Normal {
    pub map: Map,
    pub factors: Vec<ArrowId>,
}

/// The least degeneracy into a diagram for some legs: the legs factor through it by the factors, in
/// their order, and it factors through every degeneracy through which all of them factor. Its
/// source is reduced for the factors. It is noted in the store, and where it was, nothing changes.
pub fn normalise(
    alloc: Global,
    store: &mut Store,
    target: DiagramId,
    legs: &[Map],
) -> Result<Normal, AllocError>
    requires target { IsValidDiagram store.old target }
    requires legs { AreMapsInto store.old target legs.now }
    ensures grows { Grows store.old store.new }
    ensures target { IfOk result (λ n. n.map.target ≡ target) }
    ensures valid { IfOk result (λ n. IsValidMap store.new n.map) }
    ensures degeneracy { IfOk result (λ n. IsDegeneracyMap store.new n.map) }
    ensures least { IfOk result (λ n. IsNormalOf store.new (key_for target legs.now) (as_noted n)) }
    ensures reduced { IfOk result (HasReducedSource store.new legs.now) }
    ensures noted { IfOk result (λ n. noted_normal store.new (key_for target legs.now) ≡ Some (as_noted n)) }
    ensures known { IsSome (noted_normal store.old (key_for target legs.now)) → store.new ≡ store.old }
{
    let dim = store.dim(AnyId::Diagram(target));
    let key = key_for(alloc, target, legs)?;
    note_form(alloc, store, dim, &key)?;
    known_answer(alloc, store, &key)
}
