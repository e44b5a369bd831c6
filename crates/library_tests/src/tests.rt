use crate::signatures::{loop_on, one_too_many};
use crate::stored::{
    MapPlaces, cones_beside, diagram_faults, map_fault, over_new_store, plain_of, unit_composites,
};
use diagram_terms::{End, Fault, Label, Place, Step};
use std::test::Fail;
use typecheck::AddRefusal;

/// The nodes of x -> f <- x, at place 3.
const COSPAN: &str =
    "{\"label\":[0,0]},{\"label\":[1,1]},{\"labels\":[[0,0],[1,1]]},{\"bwds\":[2],\"fwds\":[2],\"regs\":[0,0],\"sings\":[1]}";

/// The same at place 4, with a leg forward from f to x.
const FALLING_LEG: &str =
    "{\"label\":[0,0]},{\"label\":[1,1]},{\"labels\":[[0,0],[1,1]]},{\"labels\":[[1,1],[0,0]]},{\"bwds\":[2],\"fwds\":[3],\"regs\":[0,0],\"sings\":[1]}";

/// At place 10 a diagram of dimension 2, whose legs from x -> g <- x to x -> f <- x send g to f,
/// though f has the lower dimension.
const FALLING_SLICE: &str =
    "{\"label\":[0,0]},{\"label\":[1,1]},{\"label\":[2,2]},{\"labels\":[[0,0],[1,1]]},{\"bwds\":[3],\"fwds\":[3],\"regs\":[0,0],\"sings\":[1]},{\"labels\":[[0,0],[2,2]]},{\"bwds\":[5],\"fwds\":[5],\"regs\":[0,0],\"sings\":[2]},{\"labels\":[[0,0],[0,0]]},{\"labels\":[[2,2],[1,1]]},{\"heights\":[0],\"regs\":[7,7],\"sings\":[8]},{\"bwds\":[9],\"fwds\":[9],\"regs\":[6,6],\"sings\":[4]}";

/// At place 9 a diagram of dimension 2, whose legs send the one height of x -> f <- x to the first
/// and to the second of x -> f <- x -> f <- x; at place 10 the diagram of length 0 on x -> f <- x,
/// and at place 12 an arrow from there to place 9. Its one square has no height of the source, and
/// does not commute.
const EMPTY_FIBRE: &str =
    "{\"label\":[0,0]},{\"label\":[1,1]},{\"labels\":[[0,0],[1,1]]},{\"bwds\":[2],\"fwds\":[2],\"regs\":[0,0],\"sings\":[1]},{\"bwds\":[2,2],\"fwds\":[2,2],\"regs\":[0,0,0],\"sings\":[1,1]},{\"labels\":[[0,0],[0,0]]},{\"labels\":[[1,1],[1,1]]},{\"heights\":[0],\"regs\":[5,5,5],\"sings\":[6]},{\"heights\":[1],\"regs\":[5,5,5],\"sings\":[6]},{\"bwds\":[8],\"fwds\":[7],\"regs\":[3,3],\"sings\":[4]},{\"bwds\":[],\"fwds\":[],\"regs\":[3],\"sings\":[]},{\"heights\":[0],\"regs\":[5,5],\"sings\":[6]},{\"heights\":[],\"regs\":[11,11],\"sings\":[]}";

/// x and f, and at place 6 the arrow from x -> x <- x, at place 5, to x -> x <- x -> f <- x, at
/// place 4, that sends the one height to the first.
const INCLUSION: &str =
    "{\"label\":[0,0]},{\"label\":[1,1]},{\"labels\":[[0,0],[0,0]]},{\"labels\":[[0,0],[1,1]]},{\"bwds\":[2,3],\"fwds\":[2,3],\"regs\":[0,0,0],\"sings\":[0,1]},{\"bwds\":[2],\"fwds\":[2],\"regs\":[0,0],\"sings\":[0]},{\"heights\":[0],\"regs\":[2,2,2],\"sings\":[2]}";

/// The types F of f: x -> x at place 3 and A of a: f -> f at place 10. The cone over F with a is at
/// place 9 and goes to place 6; the cone over A with p, a label of dimension 3, is at place 21 and goes
/// to place 16.
const CONES: &str =
    "{\"label\":[0,0]},{\"label\":[1,1]},{\"labels\":[[0,0],[1,1]]},{\"bwds\":[2],\"fwds\":[2],\"regs\":[0,0],\"sings\":[1]},{\"label\":[2,2]},{\"labels\":[[0,0],[2,2]]},{\"bwds\":[5],\"fwds\":[5],\"regs\":[0,0],\"sings\":[4]},{\"labels\":[[0,0],[0,0]]},{\"labels\":[[1,1],[2,2]]},{\"heights\":[0],\"regs\":[7,7],\"sings\":[8]},{\"bwds\":[9],\"fwds\":[9],\"regs\":[3,3],\"sings\":[6]},{\"label\":[3,3]},{\"labels\":[[0,0],[3,3]]},{\"bwds\":[12],\"fwds\":[12],\"regs\":[0,0],\"sings\":[11]},{\"labels\":[[1,1],[3,3]]},{\"heights\":[0],\"regs\":[7,7],\"sings\":[14]},{\"bwds\":[15],\"fwds\":[15],\"regs\":[3,3],\"sings\":[13]},{\"labels\":[[1,1],[1,1]]},{\"heights\":[0],\"regs\":[7,7],\"sings\":[17]},{\"labels\":[[2,2],[3,3]]},{\"heights\":[0],\"regs\":[7,7],\"sings\":[19]},{\"heights\":[0],\"regs\":[18,18],\"sings\":[20]}";

/// The identity diagrams of x and of f at places 3 and 4, and at place 5 the arrow between them whose
/// regular slice is x -> f. At places 8 and 9 two diagrams of dimension 2, and at place 10 an arrow
/// between them: its regular slices are identities, and its singular slice is place 5.
const LOOSE_SLICES: &str =
    "{\"label\":[0,0]},{\"label\":[1,1]},{\"labels\":[[0,0],[1,1]]},{\"bwds\":[],\"fwds\":[],\"regs\":[0],\"sings\":[]},{\"bwds\":[],\"fwds\":[],\"regs\":[1],\"sings\":[]},{\"heights\":[],\"regs\":[2],\"sings\":[]},{\"labels\":[[0,0],[0,0]]},{\"heights\":[],\"regs\":[6],\"sings\":[]},{\"bwds\":[7],\"fwds\":[7],\"regs\":[3,3],\"sings\":[3]},{\"bwds\":[5],\"fwds\":[5],\"regs\":[3,3],\"sings\":[4]},{\"heights\":[0],\"regs\":[7,7],\"sings\":[5]}";

/// x, the arrow of dimension 0 on it, and the diagram of length 0 on it.
const TWO_DIMENSIONS: &str =
    "{\"label\":[0,0]},{\"labels\":[[0,0],[0,0]]},{\"bwds\":[],\"fwds\":[],\"regs\":[0],\"sings\":[]}";

/// Whether the fault that was found is the one that is expected.
fn is_at(found: &Option<Place>, want: Option<(&[Step], End)>) -> bool {
    match (found, want) {
        (None, None) => true,
        (Some(place), Some((steps, end))) => place.steps.as_slice() == steps && place.end == end,
        _ => false,
    }
}

/// The places of the ends and of the arrow of a map.
fn at(source: usize, target: usize, arrow: usize) -> MapPlaces {
    MapPlaces {
        source,
        target,
        arrow,
    }
}

#[test]
fn squares_tests_heights_with_an_empty_fibre(rt: HostRuntime) -> Result<(), Fail> {
    let places = at(10, 9, 12);
    let found = over_new_store(rt.alloc(), |store| map_fault(store, EMPTY_FIBRE, places))?;
    assert!(rt; is_at(&found, Some((&[], End::Square(0)))));
    Ok(())
}

#[test]
fn squares_names_ends_of_another_dimension(rt: HostRuntime) -> Result<(), Fail> {
    for (source, target) in [(2, 2), (0, 2), (2, 0)] {
        let places = at(source, target, 1);
        let found = over_new_store(rt.alloc(), |store| map_fault(store, TWO_DIMENSIONS, places))?;
        assert!(rt; is_at(&found, Some((&[], End::Ends))), "{source} {target}");
    }
    Ok(())
}

#[test]
fn composes_maps(rt: HostRuntime) -> Result<(), Fail> {
    let places = at(5, 4, 6);
    let made = over_new_store(
        rt.alloc(),
        |store| unit_composites(store, INCLUSION, places),
    )?;
    assert_eq!(rt; made.after_identity, made.map);
    assert_eq!(rt; made.before_identity, made.map);
    let (after, before) = made.noted.ok_or("no identity is noted")?;
    assert_eq!(rt; after, Some(made.map.arrow));
    assert_eq!(rt; before, None);
    Ok(())
}

#[test]
fn plain_asks_every_slice(rt: HostRuntime) -> Result<(), Fail> {
    let cases = [
        (INCLUSION, at(5, 4, 6), true),
        (CONES, at(10, 16, 21), true),
        (LOOSE_SLICES, at(0, 1, 2), true),
        (LOOSE_SLICES, at(3, 4, 5), false),
        (LOOSE_SLICES, at(8, 9, 10), false),
    ];
    for (nodes, places, want) in cases {
        let answer = over_new_store(rt.alloc(), |store| plain_of(store, nodes, places))?;
        assert_eq!(rt; answer, want, "{nodes} {}", places.arrow);
    }
    Ok(())
}

#[test]
fn cones_go_over_types(rt: HostRuntime) -> Result<(), Fail> {
    let places = (at(3, 6, 9), at(10, 16, 21));
    let (over_arrow, over_square) = over_new_store(
        rt.alloc(),
        |store| cones_beside(store, CONES, places),
    )?;
    assert_eq!(rt; over_arrow.0, over_arrow.1);
    assert_eq!(rt; over_square.0, over_square.1);
    Ok(())
}

#[test]
fn generators_are_refused(rt: HostRuntime) -> Result<(), Fail> {
    let (answer, len) = over_new_store(rt.alloc(), one_too_many)?;
    assert!(rt; matches!(answer, Err(AddRefusal::CountLimit)));
    assert_eq!(rt; len, 60_000);
    let unknown = Label { number: 1, dim: 0 };
    let answer = over_new_store(rt.alloc(), |store| loop_on(store, unknown))?;
    let Err(AddRefusal::IllTyped(Fault::LabelAt(point))) = answer else {
        panic!(rt; "a loop on no generator");
    };
    assert!(rt; point.as_slice().is_empty());
    Ok(())
}

#[test]
fn both_tests_of_validity_agree(rt: HostRuntime) -> Result<(), Fail> {
    let alloc = rt.alloc();
    let cube = format!(in alloc;
        "{EMPTY_FIBRE},{{\"bwds\":[12],\"fwds\":[12],\"regs\":[10,10],\"sings\":[9]}}"
    )?;
    let to_slice = [Step::F(0), Step::S(0)];
    let cases = [
        (COSPAN, 3, None),
        (FALLING_LEG, 4, Some((&to_slice[..1], End::Ends))),
        (FALLING_SLICE, 10, Some((&to_slice[..], End::Ends))),
        (EMPTY_FIBRE, 9, None),
        (cube.as_str(), 13, Some((&to_slice[..1], End::Square(0)))),
    ];
    for (nodes, place, want) in cases {
        let (plain, stored) = over_new_store(alloc, |store| diagram_faults(store, nodes, place))?;
        assert!(rt; is_at(&plain, want), "{nodes}");
        assert!(rt; is_at(&stored, want), "{nodes}");
    }
    Ok(())
}
