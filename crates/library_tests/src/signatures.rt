ghost use Rattle.std.specs.Prelude.{◌≡◌, ◌<◌, ◌+◌, IfOk, OnOk, length};
ghost use Rattle.typecheck.specs.Signatures.{IsGoodOver};

use boundary_paths::cone;
use diagram_terms::Label;
use hashcons::Store;
use std::alloc::Global;
use std::test::Fail;
use store_fixtures::put_label;
use typecheck::{AddRefusal, Signature};
use zigzag_maps::Map;

/// A signature with one generator, which has no boundary.
#[tactic(auto, using(typecheck::proofs::ForCallers::signatures))]
fn point_alone(alloc: Global, store: &mut Store) -> Result<Signature, AddRefusal>
    ensures good { IfOk result (IsGoodOver store.new) }
    ensures one { IfOk result (λ s. length s.entries ≡ 1) }
{
    let mut signature = Signature::new(alloc);
    let _ = signature.add(store, None)?;
    Ok(signature)
}

/// The cones over the types of f: x -> x and of a: f -> f, each with the label of a generator from
/// that type to itself.
pub(crate) fn cones_over_types(alloc: Global, store: &mut Store) -> Result<(Map, Map), Fail> {
    let mut signature = point_alone(alloc, store)?;
    let _over_point = next_cone(alloc, store, &mut signature)?;
    let over_arrow = next_cone(alloc, store, &mut signature)?;
    let over_square = next_cone(alloc, store, &mut signature)?;
    Ok((over_arrow, over_square))
}

/// Adds a generator from the type of the last one to itself. The cone over this type with the label of
/// the new generator.
fn next_cone(alloc: Global, store: &mut Store, signature: &mut Signature) -> Result<Map, Fail>
    requires some { 0 < length signature.old.entries }
    requires good { IsGoodOver store.old signature.old }
    ensures one_more { OnOk result (length signature.new.entries ≡ length signature.old.entries + 1) }
    ensures good { IsGoodOver store.new signature.new }
{
    let last = signature.len() - 1;
    let d = signature.generator_type(store, last)?;
    let _ = signature.add(store, Some((d, d)))?;
    let label = signature.label(last + 1);
    Ok(cone(alloc, store, d, label)?)
}

/// What is answered to one more generator where 60,000 are there, and how many are there after it.
#[tactic(auto, using(typecheck::proofs::ForCallers::signatures))]
pub(crate) fn one_too_many(store: &mut Store) -> Result<(Result<Label, AddRefusal>, usize), Fail> {
    let mut signature = Signature::new(store.allocator());
    for _n in 0..60_000 {
        let _ = signature.add(store, None)?;
    }
    let answer = signature.add(store, None);
    Ok((answer, signature.len()))
}

/// What is answered to a generator from a label to itself.
fn add_loop(
    store: &mut Store,
    signature: &mut Signature,
    label: Label,
) -> Result<Result<Label, AddRefusal>, Fail>
    requires { IsGoodOver store.old signature.old }
{
    let d = put_label(store, label)?;
    Ok(signature.add(store, Some((d, d))))
}

/// The same where x alone is there.
pub(crate) fn loop_on(store: &mut Store, label: Label) -> Result<Result<Label, AddRefusal>, Fail> {
    let mut signature = point_alone(store.allocator(), store)?;
    add_loop(store, &mut signature, label)
}
