ghost use Rattle.std.specs.Prelude.{◌≡◌, ◌+◌, ◌<◌, ◌≤◌, IfOk, IsSome, OnOk, length, suc};
ghost use Rattle.diagram_terms.specs.Dimension.{dimension_of};
ghost use Rattle.diagram_terms.specs.Tree.{sings};
ghost use Rattle.hashcons.specs.Contents.{Grows, IsStore, diagram_at, noted_normal};
ghost use Rattle.hashcons.specs.NoteTables.{key_of};
ghost use Rattle.normalise.specs.FormTrees.{normal_tree, reg_normal};
ghost use Rattle.normalise.specs.StoreForms.{AreForms, IsKeyOf, IsLeftOf, IsLevelOf, MakesForms, MakesLeft, MakesLeg, MakesLevel, legs_of};

use crate::assembly::assembled;
use crate::factors::note_with_factors;
use crate::known::{is_known, known_form};
use crate::left::Left;
use crate::level::{Level, level_of};
use crate::parts::{Forms, form_at};
use crate::slices::regular_key;
use crate::ways::singular_key;
use hashcons::{ArrowId, DiagramId, NormalKey, Store};
use smallvec::SmallVec;
use std::alloc::{AllocError, Global};
use zigzag_maps::identity;

/// Notes the normal form for a key whose target has dimension `dim`, with the factors of the legs.
/// Where it is noted, nothing changes.
#[cycle(forms)]
#[tactic(auto, using(crate::proofs::FormsInStore::forming))]
pub(crate) fn note_form(
    alloc: Global,
    store: &mut Store,
    dim: usize,
    key: &NormalKey,
) -> Result<(), AllocError>
    requires key { IsKeyOf store.old (key_of key.now) }
    requires dim { dim ≡ dimension_of (diagram_at store.old key.now.target) }
    ensures grows { Grows store.old store.new }
    ensures noted { OnOk result (IsSome (noted_normal store.new (key_of key.now))) }
    ensures known { IsSome (noted_normal store.old (key_of key.now)) → store.new ≡ store.old }
{
    if is_known(store, key) {
        return Ok(());
    }
    let (source, arrow) = form_anew(alloc, store, dim, key)?;
    note_with_factors(alloc, store, key, source, arrow)
}

/// The normal form for a key that is not noted: the normal forms of the regular slices, then those
/// of the singular slices, and of these what is kept. In dimension 0 it is the identity.
#[cycle(forms)]
#[tactic(auto, using(crate::proofs::FormsInStore::forming))]
fn form_anew(
    alloc: Global,
    store: &mut Store,
    dim: usize,
    key: &NormalKey,
) -> Result<(DiagramId, ArrowId), AllocError>
    requires key { IsKeyOf store.old (key_of key.now) }
    requires dim { dim ≡ dimension_of (diagram_at store.old key.now.target) }
    requires store { IsStore store.old }
    ensures { MakesLeg store.old store.new
        (normal_tree (diagram_at store.old key.now.target) (legs_of store.old key.now.legs.items)) result }
{
    if dim == 0 {
        return whole(alloc, store, key);
    }
    let last = store.length(key.target);
    let forms = regular_forms(alloc, store, dim, key)?;
    let left = kept_levels(alloc, store, dim, key, &forms)?;
    assembled(store, key, forms, left, last)
}

/// The identity, the normal form in dimension 0.
fn whole(
    alloc: Global,
    store: &mut Store,
    key: &NormalKey,
) -> Result<(DiagramId, ArrowId), AllocError>
    requires key { IsKeyOf store.old (key_of key.now) }
    requires zero { dimension_of (diagram_at store.old key.now.target) ≡ 0 }
    ensures { MakesLeg store.old store.new
        (normal_tree (diagram_at store.old key.now.target) (legs_of store.old key.now.legs.items)) result }
{
    let made = identity(alloc, store, key.target)?;
    Ok((made.source, made.arrow))
}

/// The normal forms of the regular slices for the slices of the legs.
#[cycle(forms)]
#[tactic(auto, using(crate::proofs::FormsInStore::forming))]
fn regular_forms(
    alloc: Global,
    store: &mut Store,
    dim: usize,
    key: &NormalKey,
) -> Result<Forms, AllocError>
    requires key { IsKeyOf store.old (key_of key.now) }
    requires dim { dim ≡ dimension_of (diagram_at store.old key.now.target) }
    requires above { 0 < dim }
    requires store { IsStore store.old }
    ensures { MakesForms store.old store.new (diagram_at store.old key.now.target) (legs_of store.old key.now.legs.items)
        (suc (length (sings (diagram_at store.old key.now.target)))) result }
{
    let mut sources = SmallVec::new(alloc);
    let mut arrows = SmallVec::new(alloc);
    let (source, arrow) = regular_form(alloc, store, dim, key, 0)?;
    sources.push(source)?;
    arrows.push(arrow)?;
    for k in 0..store.length(key.target) {
        let (source, arrow) = regular_form(alloc, store, dim, key, k + 1)?;
        sources.push(source)?;
        arrows.push(arrow)?;
    }
    Ok(Forms { sources, arrows })
}

/// The normal form of a regular slice for the slices of the legs.
#[cycle(forms)]
#[tactic(auto, using(crate::proofs::FormsInStore::forming))]
fn regular_form(
    alloc: Global,
    store: &mut Store,
    dim: usize,
    key: &NormalKey,
    j: usize,
) -> Result<(DiagramId, ArrowId), AllocError>
    requires key { IsKeyOf store.old (key_of key.now) }
    requires dim { dim ≡ dimension_of (diagram_at store.old key.now.target) }
    requires above { 0 < dim }
    requires within { j ≤ length (sings (diagram_at store.old key.now.target)) }
    requires store { IsStore store.old }
    ensures { MakesLeg store.old store.new
        (reg_normal (diagram_at store.old key.now.target) (legs_of store.old key.now.legs.items) j) result }
{
    let slice = regular_key(alloc, store, key, j)?;
    note_form(alloc, store, dim - 1, &slice)?;
    Ok(known_form(store, &slice))
}

/// What is left of the heights of the target of a key.
#[cycle(forms)]
#[tactic(auto, using(crate::proofs::FormsInStore::forming))]
fn kept_levels(
    alloc: Global,
    store: &mut Store,
    dim: usize,
    key: &NormalKey,
    forms: &Forms,
) -> Result<Left, AllocError>
    requires key { IsKeyOf store.old (key_of key.now) }
    requires dim { dim ≡ dimension_of (diagram_at store.old key.now.target) }
    requires above { 0 < dim }
    requires forms { AreForms store.old (diagram_at store.old key.now.target) (legs_of store.old key.now.legs.items)
        (suc (length (sings (diagram_at store.old key.now.target)))) forms.now }
    requires store { IsStore store.old }
    ensures { MakesLeft store.old store.new (diagram_at store.old key.now.target) (legs_of store.old key.now.legs.items)
        (length (sings (diagram_at store.old key.now.target))) result }
{
    let mut left = Left::new(alloc);
    for k in 0..store.length(key.target) {
        let here = singular_form(alloc, store, dim, key, forms, k, k + 1)?;
        let (reg, _) = form_at(forms, k);
        left.add(k, reg, &here)?;
    }
    Ok(left)
}

/// The normal form of the singular slice at `k` for what leads into it, with the legs between.
#[cycle(forms)]
#[tactic(auto, using(crate::proofs::FormsInStore::forming))]
fn singular_form(
    alloc: Global,
    store: &mut Store,
    dim: usize,
    key: &NormalKey,
    forms: &Forms,
    k: usize,
    next: usize,
) -> Result<Level, AllocError>
    requires key { IsKeyOf store.old (key_of key.now) }
    requires dim { dim ≡ dimension_of (diagram_at store.old key.now.target) }
    requires above { 0 < dim }
    requires within { k < length (sings (diagram_at store.old key.now.target)) }
    requires next { next ≡ suc k }
    requires forms { AreForms store.old (diagram_at store.old key.now.target) (legs_of store.old key.now.legs.items)
        (suc (length (sings (diagram_at store.old key.now.target)))) forms.now }
    requires store { IsStore store.old }
    ensures { MakesLevel store.old store.new (diagram_at store.old key.now.target) (legs_of store.old key.now.legs.items) k result }
{
    let slice = singular_key(alloc, store, key, forms, k, next)?;
    note_form(alloc, store, dim - 1, &slice)?;
    let last = slice.legs.len() - 1;
    level_of(alloc, store, &slice, last - 1, last)
}
