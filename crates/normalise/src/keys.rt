ghost use Rattle.std.specs.Prelude.{◌≡◌, ◌<◌, IfOk, get_or, length, map};
ghost use Rattle.hashcons.specs.NoteTables.{key_of};
ghost use Rattle.normalise.specs.NormalMaps.{as_leg, key_for};
ghost use Rattle.normalise.specs.StoreForms.{leg_map_at};

use hashcons::{DiagramId, NormalKey};
use smallvec::SmallVec;
use std::alloc::{AllocError, Global};
use zigzag_maps::Map;

/// The key of a diagram and legs into it, in their order.
pub(crate) fn key_for(
    alloc: Global,
    target: DiagramId,
    legs: &[Map],
) -> Result<NormalKey, AllocError>
    ensures { IfOk result (λ k. key_of k ≡ key_for target legs.now) }
{
    let mut ids = SmallVec::new(alloc);
    for i in 0..legs.len() {
        let leg = legs[i];
        ids.push((leg.source, leg.arrow))?;
    }
    Ok(NormalKey { target, legs: ids })
}

/// The same key once more.
pub(crate) fn copy_of(alloc: Global, key: &NormalKey) -> Result<NormalKey, AllocError>
    ensures { IfOk result (λ k. key_of k ≡ key_of key.now) }
{
    let legs = SmallVec::from_slice(alloc, key.legs.as_slice())?;
    Ok(NormalKey {
        target: key.target,
        legs,
    })
}

/// The leg at `i` of a key, as a map.
pub(crate) fn leg_map(key: &NormalKey, i: usize) -> Map
    requires { i < length key.now.legs.items }
    ensures { result ≡ leg_map_at (key_of key.now) i }
{
    let (source, arrow) = key.legs[i];
    Map {
        source,
        target: key.target,
        arrow,
    }
}

/// The source of the leg at `i` of a key.
pub(crate) fn source_at(key: &NormalKey, i: usize) -> DiagramId
    requires { i < length key.now.legs.items }
    ensures { result ≡ (get_or key.now.legs.items i (0, 0)).0 }
{
    let (source, _) = key.legs[i];
    source
}
