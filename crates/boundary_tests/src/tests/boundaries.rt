ghost use Rattle.std.specs.Prelude.{◌≡◌, IfOk};
ghost use Rattle.diagram_terms.specs.ConeTrees.{HasLabelsBelowTree};
ghost use Rattle.diagram_terms.specs.Slices.{AreParallel};
ghost use Rattle.hashcons.specs.Contents.{IsDiagramOf, diagram_at};
ghost use Rattle.plain_maps.specs.ValidPlain.{IsValidPlain};

use super::{over_new_store, put_diagram_of, read_of};
use boundary_paths::{NoHeight, cone, identity_diagram, parallel, slice, type_over};
use diagram_terms::{Height, Label};
use hashcons::{AnyId, DiagramId, Store};
use std::alloc::AllocError;
use std::test::Fail;
use store_fixtures::{label_of, pair_of, put_label};

const X: Label = Label { number: 0, dim: 0 };

const F: Label = Label { number: 1, dim: 1 };

/// The nodes of x, f, (x, x), (x, f) and x -> x <- x -> f <- x.
const PATH: &str =
    "{\"label\":[0,0]},{\"label\":[1,1]},{\"labels\":[[0,0],[0,0]]},{\"labels\":[[0,0],[1,1]]},{\"bwds\":[2,3],\"fwds\":[2,3],\"regs\":[0,0,0],\"sings\":[0,1]}";

/// The place of a diagram among ids.
fn place_of(ids: &[AnyId], d: DiagramId) -> Option<usize> {
    for (place, id) in ids.iter().enumerate() {
        if *id == AnyId::Diagram(d) {
            return Some(place);
        }
    }
    None
}

/// The place of the slice of the last of these nodes along a path.
fn slice_of(store: &mut Store, path: &[Height]) -> Result<Result<Option<usize>, NoHeight>, Fail> {
    let (ids, d) = put_diagram_of(store.allocator(), store, PATH, 4)?;
    match slice(store, d, path) {
        Ok(found) => Ok(Ok(place_of(&ids, found))),
        Err(fault) => Ok(Err(fault)),
    }
}

#[test]
fn follows_a_path(rt: HostRuntime) -> Result<(), Fail> {
    let cases: [(&[Height], Result<Option<usize>, NoHeight>); 5] = [
        (&[], Ok(Some(4))),
        (&[Height::S(1)], Ok(Some(1))),
        (&[Height::R(2)], Ok(Some(0))),
        (&[Height::S(2)], Err(NoHeight { step: 0 })),
        (&[Height::S(0), Height::R(0)], Err(NoHeight { step: 1 })),
    ];
    for (path, want) in cases {
        let found = over_new_store(rt.alloc(), |store| slice_of(store, path))?;
        assert_eq!(rt; found, want);
    }
    Ok(())
}

/// The diagram of x, over which a cone with f can be made.
fn put_x(store: &mut Store) -> Result<DiagramId, AllocError>
    ensures valid { IfOk result (IsValidPlain store.new) }
    ensures labels { IfOk result (λ d. HasLabelsBelowTree 1 (diagram_at store.new d)) }
    ensures parallel { IfOk result (λ d. AreParallel (diagram_at store.new d) (diagram_at store.new d)) }
{
    let d = put_label(store, X)?;
    Ok(d)
}

/// The labels of the arrow and of the target of the cone over x with f, in dimension 0.
fn cone_over_x(store: &mut Store) -> Result<(Option<(Label, Label)>, Option<Label>), AllocError> {
    let x = put_x(store)?;
    let map = cone(store.allocator(), store, x, F)?;
    Ok((pair_of(store, map.arrow), label_of(store, map.target)))
}

#[test]
fn cones_over_a_label(rt: HostRuntime) -> Result<(), Fail> {
    let (arrow, target) = over_new_store(rt.alloc(), cone_over_x)?;
    assert_eq!(rt; arrow, Some((X, F)));
    assert_eq!(rt; target, Some(F));
    Ok(())
}

/// x, and the type of f from x to x.
fn loop_type(store: &mut Store) -> Result<(DiagramId, DiagramId), AllocError>
    ensures point { IfOk result (λ r. IsDiagramOf store.new r.0) }
    ensures whole { IfOk result (λ r. IsDiagramOf store.new r.1) }
{
    let x = put_x(store)?;
    let whole = type_over(store.allocator(), store, x, x, F)?;
    Ok((x, whole))
}

/// x, and what is read of the type of f.
fn read_loop_type(
    store: &mut Store,
) -> Result<(DiagramId, (usize, usize, Option<(DiagramId, DiagramId)>)), AllocError> {
    let (x, whole) = loop_type(store)?;
    Ok((x, read_of(store, whole)))
}

/// The identity diagram of x, beside x and the type of f.
#[derive(Drop)]
struct Compared {
    point: DiagramId,
    whole: DiagramId,
    degenerate: DiagramId,
}

fn make_compared(store: &mut Store) -> Result<Compared, AllocError>
    ensures point { IfOk result (λ r. IsDiagramOf store.new r.point) }
    ensures whole { IfOk result (λ r. IsDiagramOf store.new r.whole) }
    ensures degenerate { IfOk result (λ r. IsDiagramOf store.new r.degenerate) }
{
    let (point, whole) = loop_type(store)?;
    let degenerate = identity_diagram(store.allocator(), store, point)?;
    Ok(Compared {
        point,
        whole,
        degenerate,
    })
}

/// The length of the identity diagram of x, and whether it and whether x is parallel to the type of f.
fn parallel_to_type(store: &mut Store) -> Result<(usize, bool, bool), AllocError> {
    let made = make_compared(store)?;
    Ok((
        store.length(made.degenerate),
        parallel(store, made.whole, made.degenerate),
        parallel(store, made.whole, made.point),
    ))
}

#[test]
fn types_have_their_ends(rt: HostRuntime) -> Result<(), Fail> {
    let (x, (dim, length, ends)) = over_new_store(rt.alloc(), read_loop_type)?;
    assert_eq!(rt; dim, 1);
    assert_eq!(rt; length, 1);
    assert_eq!(rt; ends, Some((x, x)));
    let (length, of_identity, of_point) = over_new_store(rt.alloc(), parallel_to_type)?;
    assert_eq!(rt; length, 0);
    assert!(rt; of_identity);
    assert!(rt; !of_point);
    Ok(())
}
