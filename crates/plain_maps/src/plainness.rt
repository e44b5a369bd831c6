ghost use Rattle.std.specs.Prelude.{◌↔◌, ◌<◌, IsTrue};
ghost use Rattle.hashcons.specs.Contents.{IsStore, arrow_at};
ghost use Rattle.zigzag_maps.specs.Found.{IsValidMap};
ghost use Rattle.plain_maps.specs.Plainness.{IsArrowAt, IsIdentityTree, IsPlainTree, HasIdentityHeights, HasIdentityRegs, HasIdentitySings, HasPlainSings};

use hashcons::{AnyId, ArrowId, Store};
use zigzag_maps::Map;

/// Whether the arrow of a map is plain. It takes no memory, and so looks at a slice again where it
/// stands twice, but for one right behind its like.
pub fn plain(store: &Store, f: Map) -> bool
    requires { IsValidMap store.now f }
    ensures { IsTrue result ↔ IsPlainTree (arrow_at store.now f.arrow) }
{
    let dim = store.dim(AnyId::Arrow(f.arrow));
    is_plain(store, dim, f.arrow)
}

/// Whether an arrow of dimension `dim` is plain.
#[cycle(plain_parts)]
fn is_plain(store: &Store, dim: usize, a: ArrowId) -> bool
    requires arrow { IsArrowAt store.now dim a }
    requires store { IsStore store.now }
    ensures { IsTrue result ↔ IsPlainTree (arrow_at store.now a) }
{
    if dim == 0 {
        return true;
    }
    regs_are_identities(store, dim, a) && sings_are_plain(store, dim, a)
}

/// Whether the singular slices are plain. A slice like the one before it is not looked at.
#[cycle(plain_parts)]
fn sings_are_plain(store: &Store, dim: usize, a: ArrowId) -> bool
    requires arrow { IsArrowAt store.now dim a }
    requires above { 0 < dim }
    requires store { IsStore store.now }
    ensures { IsTrue result ↔ HasPlainSings (arrow_at store.now a) }
{
    let mut before = None;
    for i in 0..store.source_len(a) {
        let slice = store.arrow_sing(a, i);
        if before != Some(slice) && !is_plain(store, dim - 1, slice) {
            return false;
        }
        before = Some(slice);
    }
    true
}

/// Whether an arrow of dimension `dim` has the shape of an identity.
#[cycle(identity_parts)]
fn is_identity(store: &Store, dim: usize, a: ArrowId) -> bool
    requires arrow { IsArrowAt store.now dim a }
    requires store { IsStore store.now }
    ensures { IsTrue result ↔ IsIdentityTree (arrow_at store.now a) }
{
    if dim == 0 {
        return has_equal_ends(store, a);
    }
    if !has_identity_heights(store, dim, a) {
        return false;
    }
    regs_are_identities(store, dim, a) && sings_are_identities(store, dim, a)
}

/// Whether the regular slices are identities. A slice like the one before it is not looked at.
#[cycle(identity_parts)]
fn regs_are_identities(store: &Store, dim: usize, a: ArrowId) -> bool
    requires arrow { IsArrowAt store.now dim a }
    requires above { 0 < dim }
    requires store { IsStore store.now }
    ensures { IsTrue result ↔ HasIdentityRegs (arrow_at store.now a) }
{
    let mut before = store.arrow_reg(a, 0);
    if !is_identity(store, dim - 1, before) {
        return false;
    }
    for j in 0..store.target_len(a) {
        let slice = store.arrow_reg(a, j + 1);
        if slice != before && !is_identity(store, dim - 1, slice) {
            return false;
        }
        before = slice;
    }
    true
}

/// Whether the singular slices are identities. A slice like the one before it is not looked at.
#[cycle(identity_parts)]
fn sings_are_identities(store: &Store, dim: usize, a: ArrowId) -> bool
    requires arrow { IsArrowAt store.now dim a }
    requires above { 0 < dim }
    requires store { IsStore store.now }
    ensures { IsTrue result ↔ HasIdentitySings (arrow_at store.now a) }
{
    let mut before = None;
    for i in 0..store.source_len(a) {
        let slice = store.arrow_sing(a, i);
        if before != Some(slice) && !is_identity(store, dim - 1, slice) {
            return false;
        }
        before = Some(slice);
    }
    true
}

/// Whether both labels of an arrow of dimension 0 are one.
pub(crate) fn has_equal_ends(store: &Store, a: ArrowId) -> bool
    requires arrow { IsArrowAt store.now 0 a }
    ensures { IsTrue result ↔ IsIdentityTree (arrow_at store.now a) }
{
    let (from, to) = store.pair(a);
    from == to
}

/// Whether the heights are 0, 1, 2 and so on, with one regular slice more.
pub(crate) fn has_identity_heights(store: &Store, dim: usize, a: ArrowId) -> bool
    requires arrow { IsArrowAt store.now dim a }
    requires above { 0 < dim }
    ensures { IsTrue result ↔ HasIdentityHeights (arrow_at store.now a) }
{
    let len = store.source_len(a);
    if store.target_len(a) != len {
        return false;
    }
    for i in 0..len {
        if store.height(a, i) != i {
            return false;
        }
    }
    true
}
