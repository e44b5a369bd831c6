ghost use Rattle.std.specs.Prelude.{◌≡◌, ◌+◌, ◌<◌, ◌≤◌, ℕ, IfOk, IsSome, length, nat_lt, not, ◌&&◌, ◌||◌};
ghost use Rattle.hashcons.specs.Contents.{Grows, IsStore, arrow_at, diagram_at, noted_normal};
ghost use Rattle.hashcons.specs.NormalTrees.{tree_leg_at};
ghost use Rattle.hashcons.specs.NoteTables.{key_of};
ghost use Rattle.degeneracy.specs.FactorTrees.{factor_tree};
ghost use Rattle.normalise.specs.FormTrees.{identity_test, normal_tree};
ghost use Rattle.normalise.specs.StoreForms.{IsArrowOut, IsKeyOf, IsLevelWith, legs_of};

use crate::keys::source_at;
use crate::known::{known_factor, known_form};
use hashcons::{ArrowId, DiagramId, NormalKey, Store};
use std::alloc::{AllocError, Global};
use zigzag_maps::identity;

/// The normal form of a singular slice, the two legs between it and the normal forms of its
/// neighbours, and whether its height is kept.
#[derive(Clone, Copy, Debug)]
pub(crate) struct Level {
    pub(crate) source: DiagramId,
    pub(crate) arrow: ArrowId,
    pub(crate) fwd: ArrowId,
    pub(crate) bwd: ArrowId,
    pub(crate) kept: bool,
}

/// The level of a key that is noted, whose legs at `n` and `last`, the last two, come from the
/// neighbours. It is kept where there are others, or where one of the two legs between is no
/// identity.
pub(crate) fn level_of(
    alloc: Global,
    store: &mut Store,
    key: &NormalKey,
    n: usize,
    last: usize,
) -> Result<Level, AllocError>
    requires noted { IsSome (noted_normal store.old (key_of key.now)) }
    requires key { IsKeyOf store.old (key_of key.now) }
    requires last { last ≡ n + 1 }
    requires len { length key.now.legs.items ≡ last + 1 }
    ensures grows { Grows store.old store.new }
    ensures level { IfOk result (IsLevelWith store.new
        (normal_tree (diagram_at store.old key.now.target) (legs_of store.old key.now.legs.items))
        (factor_tree (normal_tree (diagram_at store.old key.now.target) (legs_of store.old key.now.legs.items)).arrow
        (tree_leg_at (legs_of store.old key.now.legs.items) n).arrow)
        (factor_tree (normal_tree (diagram_at store.old key.now.target) (legs_of store.old key.now.legs.items)).arrow
        (tree_leg_at (legs_of store.old key.now.legs.items) last).arrow)
        (nat_lt 0 n)) }
{
    let (source, arrow) = known_form(store, key);
    let fwd = known_factor(store, key, n);
    let bwd = known_factor(store, key, last);
    let before = source_at(key, n);
    let behind = source_at(key, last);
    let kept = is_kept(alloc, store, n, before, fwd, behind, bwd)?;
    Ok(Level {
        source,
        arrow,
        fwd,
        bwd,
        kept,
    })
}

/// Whether there are others, or one of the two arrows is no identity.
#[tactic(auto, using(crate::proofs::FormsInStore::forming))]
fn is_kept(
    alloc: Global,
    store: &mut Store,
    others: usize,
    before: DiagramId,
    fwd: ArrowId,
    behind: DiagramId,
    bwd: ArrowId,
) -> Result<bool, AllocError>
    requires fwd { IsArrowOut store.old before fwd }
    requires bwd { IsArrowOut store.old behind bwd }
    requires store { IsStore store.old }
    ensures grows { Grows store.old store.new }
    ensures kept { IfOk result (λ b. b ≡ (not (identity_test (arrow_at store.old fwd) && identity_test (arrow_at store.old bwd)) || nat_lt 0 others)) }
{
    if others > 0 {
        return Ok(true);
    }
    if !is_identity(alloc, store, before, fwd)? {
        return Ok(true);
    }
    let flat = is_identity(alloc, store, behind, bwd)?;
    Ok(!flat)
}

/// Whether an arrow out of a diagram is an identity.
fn is_identity(
    alloc: Global,
    store: &mut Store,
    source: DiagramId,
    arrow: ArrowId,
) -> Result<bool, AllocError>
    requires out { IsArrowOut store.old source arrow }
    requires store { IsStore store.old }
    ensures grows { Grows store.old store.new }
    ensures exact { IfOk result (λ b. b ≡ identity_test (arrow_at store.old arrow)) }
{
    let made = identity(alloc, store, source)?;
    Ok(made.arrow == arrow)
}
