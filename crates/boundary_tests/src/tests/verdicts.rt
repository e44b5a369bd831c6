ghost use Rattle.std.specs.Prelude.{◌≡◌, ◌+◌, [], IfOk, OnOk, Some, length};
ghost use Rattle.hashcons.specs.Contents.{Grows, IsDiagramOf};
ghost use Rattle.typecheck.specs.Signatures.{IsBoundaryOf, IsGoodOver};

use super::{over_new_store, read_of};
use diagram_terms::{Fault, Label};
use hashcons::{DiagramId, Store};
use std::alloc::AllocError;
use std::test::Fail;
use store_fixtures::{label_of, put_label};
use typecheck::{AddRefusal, Signature, Verdict};

const X: Label = Label { number: 0, dim: 0 };

const F: Label = Label { number: 1, dim: 1 };

/// Adds a generator with this boundary, or without one. Its type.
fn add_typed(
    store: &mut Store,
    signature: &mut Signature,
    boundary: Option<(DiagramId, DiagramId)>,
) -> Result<DiagramId, AddRefusal>
    requires good { IsGoodOver store.old signature.old }
    requires of_store { IsBoundaryOf store.old boundary }
    ensures of_store { IfOk result (IsDiagramOf store.new) }
    ensures one_more { OnOk result (length signature.new.entries ≡ length signature.old.entries + 1) }
    ensures good { IsGoodOver store.new signature.new }
    ensures grows { Grows store.old store.new }
{
    let _ = signature.add(store, boundary)?;
    let last = signature.len() - 1;
    Ok(signature.generator_type(store, last)?)
}

/// Adds x, and f from x to x, to no generators. The types of both.
fn add_loop(
    store: &mut Store,
    signature: &mut Signature,
) -> Result<(DiagramId, DiagramId), AddRefusal>
    requires none { signature.old.entries ≡ [] }
    ensures point { IfOk result (λ r. IsDiagramOf store.new r.0) }
    ensures whole { IfOk result (λ r. IsDiagramOf store.new r.1) }
    ensures two { OnOk result (length signature.new.entries ≡ 2) }
    ensures good { IsGoodOver store.new signature.new }
{
    let point = add_typed(store, signature, None)?;
    let whole = add_typed(store, signature, Some((point, point)))?;
    Ok((point, whole))
}

/// The labels of x and of f.
fn labels_of_loop(store: &mut Store) -> Result<(Label, Label), AddRefusal> {
    let mut signature = Signature::new(store.allocator());
    let _types = add_loop(store, &mut signature)?;
    Ok((signature.label(0), signature.label(1)))
}

/// What is read of the types of x and of f.
#[derive(Drop)]
struct LoopRead {
    point: DiagramId,
    label: Option<Label>,
    whole: (usize, usize, Option<(DiagramId, DiagramId)>),
}

fn read_loop(store: &mut Store) -> Result<LoopRead, AddRefusal> {
    let mut signature = Signature::new(store.allocator());
    let (point, whole) = add_loop(store, &mut signature)?;
    Ok(LoopRead {
        point,
        label: label_of(store, point),
        whole: read_of(store, whole),
    })
}

#[test]
fn labels_and_types(rt: HostRuntime) -> Result<(), Fail> {
    let (x, f) = over_new_store(rt.alloc(), labels_of_loop)?;
    assert_eq!(rt; x, X);
    assert_eq!(rt; f, F);
    let read = over_new_store(rt.alloc(), read_loop)?;
    assert_eq!(rt; read.label, Some(X));
    let (dim, length, ends) = read.whole;
    assert_eq!(rt; dim, 1);
    assert_eq!(rt; length, 1);
    assert_eq!(rt; ends, Some((read.point, read.point)));
    Ok(())
}

/// What is answered to a generator from x to the type of f.
fn added_over_a_loop(store: &mut Store) -> Result<Result<Label, AddRefusal>, AddRefusal> {
    let mut signature = Signature::new(store.allocator());
    let (point, whole) = add_loop(store, &mut signature)?;
    Ok(signature.add(store, Some((point, whole))))
}

/// Whether a generator with this boundary is refused.
fn is_refused(
    store: &mut Store,
    signature: &mut Signature,
    boundary: (DiagramId, DiagramId),
) -> bool
    requires good { IsGoodOver store.old signature.old }
    requires of_store { IsBoundaryOf store.old (Some boundary) }
    ensures good { IsGoodOver store.new signature.new }
    ensures grows { Grows store.old store.new }
{
    signature.add(store, Some(boundary)).is_err()
}

/// Whether a generator from x to the type of f is refused, and then the verdict on that type.
fn verdict_on_type(store: &mut Store) -> Result<(bool, Verdict), AddRefusal> {
    let mut signature = Signature::new(store.allocator());
    let (point, whole) = add_loop(store, &mut signature)?;
    let refused = is_refused(store, &mut signature, (point, whole));
    Ok((refused, signature.check(store, whole)?))
}

/// The verdict on the diagram of a label.
fn verdict_on_label(
    store: &mut Store,
    signature: &mut Signature,
    label: Label,
) -> Result<Verdict, AllocError>
    requires { IsGoodOver store.old signature.old }
{
    let d = put_label(store, label)?;
    signature.check(store, d)
}

/// The verdict on the diagram of the label of f.
fn verdict_on_f(store: &mut Store) -> Result<Verdict, AddRefusal> {
    let mut signature = Signature::new(store.allocator());
    let _types = add_loop(store, &mut signature)?;
    Ok(verdict_on_label(store, &mut signature, F)?)
}

#[test]
fn refusals_and_verdicts(rt: HostRuntime) -> Result<(), Fail> {
    let refused = over_new_store(rt.alloc(), added_over_a_loop)?;
    assert!(rt; matches!(refused, Err(AddRefusal::DimDiffers)));
    let (refused, on_type) = over_new_store(rt.alloc(), verdict_on_type)?;
    assert!(rt; refused);
    assert!(rt; matches!(on_type, Verdict::Yes));
    let on_label = over_new_store(rt.alloc(), verdict_on_f)?;
    assert!(rt; matches!(on_label, Verdict::No(Fault::TypeAt(_))));
    Ok(())
}

/// How many generators there are when the only one was taken away, and when it was put back.
#[tactic(auto, using(typecheck::proofs::ForCallers::signatures))]
fn taken_and_put_back(store: &mut Store) -> Result<(usize, usize), AddRefusal> {
    let mut signature = Signature::new(store.allocator());
    let _ = signature.add(store, None)?;
    signature.remove_last();
    let taken = signature.len();
    signature.put_back(store, None);
    Ok((taken, signature.len()))
}

#[test]
fn put_back_after_remove_last(rt: HostRuntime) -> Result<(), Fail> {
    let (taken, put_back) = over_new_store(rt.alloc(), taken_and_put_back)?;
    assert_eq!(rt; taken, 0);
    assert_eq!(rt; put_back, 1);
    Ok(())
}
