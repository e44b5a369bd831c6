ghost use Rattle.std.specs.Prelude.{◌↔◌, ◌<◌, IfOk, IsTrue};
ghost use Rattle.hashcons.specs.Contents.{IsStore, arrow_at};
ghost use Rattle.plain_maps.specs.PlainKeeps.{ArePlain};
ghost use Rattle.plain_maps.specs.Plainness.{IsArrowAt, IsIdentityTree, IsPlainTree, HasIdentityRegs, HasIdentitySings, HasPlainSings};

use crate::plain_kept::PlainKept;
use crate::plainness::{has_equal_ends, has_identity_heights};
use hashcons::{AnyId, ArrowId, Store};
use std::alloc::AllocError;

/// Whether an arrow of dimension `dim` is plain, where each arrow is looked at once.
#[cycle(plain_parts)]
pub(crate) fn is_plain_once(
    store: &Store,
    kept: &mut PlainKept,
    dim: usize,
    a: ArrowId,
) -> Result<bool, AllocError>
    requires arrow { IsArrowAt store.now dim a }
    requires kept { ArePlain store.now kept.old }
    requires store { IsStore store.now }
    ensures exact { IfOk result (λ yes. IsTrue yes ↔ IsPlainTree (arrow_at store.now a)) }
    ensures kept { ArePlain store.now kept.new }
{
    if kept.arrows.has(AnyId::Arrow(a)) {
        return Ok(true);
    }
    if !has_plain_parts(store, kept, dim, a)? {
        return Ok(false);
    }
    kept.arrows.keep(AnyId::Arrow(a))?;
    Ok(true)
}

#[cycle(plain_parts)]
fn has_plain_parts(
    store: &Store,
    kept: &mut PlainKept,
    dim: usize,
    a: ArrowId,
) -> Result<bool, AllocError>
    requires arrow { IsArrowAt store.now dim a }
    requires kept { ArePlain store.now kept.old }
    requires store { IsStore store.now }
    ensures exact { IfOk result (λ yes. IsTrue yes ↔ IsPlainTree (arrow_at store.now a)) }
    ensures kept { ArePlain store.now kept.new }
{
    if dim == 0 {
        return Ok(true);
    }
    if !regs_are_identities(store, kept, dim, a)? {
        return Ok(false);
    }
    sings_are_plain(store, kept, dim, a)
}

#[cycle(plain_parts)]
fn sings_are_plain(
    store: &Store,
    kept: &mut PlainKept,
    dim: usize,
    a: ArrowId,
) -> Result<bool, AllocError>
    requires arrow { IsArrowAt store.now dim a }
    requires above { 0 < dim }
    requires kept { ArePlain store.now kept.old }
    requires store { IsStore store.now }
    ensures exact { IfOk result (λ yes. IsTrue yes ↔ HasPlainSings (arrow_at store.now a)) }
    ensures kept { ArePlain store.now kept.new }
{
    for i in 0..store.source_len(a) {
        let slice = store.arrow_sing(a, i);
        if !is_plain_once(store, kept, dim - 1, slice)? {
            return Ok(false);
        }
    }
    Ok(true)
}

/// Whether an arrow of dimension `dim` has the shape of an identity, where each arrow is looked at
/// once.
#[cycle(identity_parts)]
fn is_identity_once(
    store: &Store,
    kept: &mut PlainKept,
    dim: usize,
    a: ArrowId,
) -> Result<bool, AllocError>
    requires arrow { IsArrowAt store.now dim a }
    requires kept { ArePlain store.now kept.old }
    requires store { IsStore store.now }
    ensures exact { IfOk result (λ yes. IsTrue yes ↔ IsIdentityTree (arrow_at store.now a)) }
    ensures kept { ArePlain store.now kept.new }
{
    if kept.identities.has(AnyId::Arrow(a)) {
        return Ok(true);
    }
    if !has_identity_parts(store, kept, dim, a)? {
        return Ok(false);
    }
    kept.identities.keep(AnyId::Arrow(a))?;
    Ok(true)
}

#[cycle(identity_parts)]
fn has_identity_parts(
    store: &Store,
    kept: &mut PlainKept,
    dim: usize,
    a: ArrowId,
) -> Result<bool, AllocError>
    requires arrow { IsArrowAt store.now dim a }
    requires kept { ArePlain store.now kept.old }
    requires store { IsStore store.now }
    ensures exact { IfOk result (λ yes. IsTrue yes ↔ IsIdentityTree (arrow_at store.now a)) }
    ensures kept { ArePlain store.now kept.new }
{
    if dim == 0 {
        return Ok(has_equal_ends(store, a));
    }
    if !has_identity_heights(store, dim, a) {
        return Ok(false);
    }
    if !regs_are_identities(store, kept, dim, a)? {
        return Ok(false);
    }
    sings_are_identities(store, kept, dim, a)
}

#[cycle(identity_parts)]
fn regs_are_identities(
    store: &Store,
    kept: &mut PlainKept,
    dim: usize,
    a: ArrowId,
) -> Result<bool, AllocError>
    requires arrow { IsArrowAt store.now dim a }
    requires above { 0 < dim }
    requires kept { ArePlain store.now kept.old }
    requires store { IsStore store.now }
    ensures exact { IfOk result (λ yes. IsTrue yes ↔ HasIdentityRegs (arrow_at store.now a)) }
    ensures kept { ArePlain store.now kept.new }
{
    let last = store.target_len(a);
    for j in 0..last {
        let slice = store.arrow_reg(a, j);
        if !is_identity_once(store, kept, dim - 1, slice)? {
            return Ok(false);
        }
    }
    let slice = store.arrow_reg(a, last);
    is_identity_once(store, kept, dim - 1, slice)
}

#[cycle(identity_parts)]
fn sings_are_identities(
    store: &Store,
    kept: &mut PlainKept,
    dim: usize,
    a: ArrowId,
) -> Result<bool, AllocError>
    requires arrow { IsArrowAt store.now dim a }
    requires above { 0 < dim }
    requires kept { ArePlain store.now kept.old }
    requires store { IsStore store.now }
    ensures exact { IfOk result (λ yes. IsTrue yes ↔ HasIdentitySings (arrow_at store.now a)) }
    ensures kept { ArePlain store.now kept.new }
{
    for i in 0..store.source_len(a) {
        let slice = store.arrow_sing(a, i);
        if !is_identity_once(store, kept, dim - 1, slice)? {
            return Ok(false);
        }
    }
    Ok(true)
}
