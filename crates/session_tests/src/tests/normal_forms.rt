use crate::tests::sessions::{Step, first_other, over_new_session};
use std::alloc::Global;
use std::test::Fail;

/// A leg L to the first height of x -> x <- x -> f <- x. Its target has a normal form, which is its
/// own; L keeps the first height; of two legs the factors come in their order. A normal form that was
/// taken once adds nothing to the store.
const LEGS: [Step; 20] = [
    (
        "{\"do\":\"bring\",\"name\":\"L\",\"nodes\":[{\"label\":[0,0]},{\"label\":[1,1]},{\"labels\":[[0,0],[0,0]]},{\"labels\":[[0,0],[1,1]]},{\"bwds\":[2,3],\"fwds\":[2,3],\"regs\":[0,0,0],\"sings\":[0,1]},{\"bwds\":[2],\"fwds\":[2],\"regs\":[0,0],\"sings\":[0]},{\"heights\":[0],\"regs\":[2,2,2],\"sings\":[2]}],\"source\":5,\"target\":4,\"arrow\":6}",
        "{\"name\":\"L\",\"ok\":\"bring\"}",
    ),
    (
        "{\"do\":\"normalise\",\"name\":\"n0\",\"of\":\"L:target\",\"legs\":[]}",
        "{\"arrow\":6,\"factors\":[],\"name\":\"n0\",\"nodes\":[{\"label\":[0,0]},{\"label\":[1,1]},{\"labels\":[[0,0],[1,1]]},{\"bwds\":[2],\"fwds\":[2],\"regs\":[0,0],\"sings\":[1]},{\"labels\":[[0,0],[0,0]]},{\"labels\":[[1,1],[1,1]]},{\"heights\":[1],\"regs\":[4,4,4],\"sings\":[5]}],\"ok\":\"normalise\",\"source\":3}",
    ),
    (
        "{\"do\":\"normalise\",\"name\":\"n1\",\"of\":\"n0:source\",\"legs\":[]}",
        "{\"arrow\":6,\"factors\":[],\"name\":\"n1\",\"nodes\":[{\"label\":[0,0]},{\"label\":[1,1]},{\"labels\":[[0,0],[1,1]]},{\"bwds\":[2],\"fwds\":[2],\"regs\":[0,0],\"sings\":[1]},{\"labels\":[[0,0],[0,0]]},{\"labels\":[[1,1],[1,1]]},{\"heights\":[0],\"regs\":[4,4],\"sings\":[5]}],\"ok\":\"normalise\",\"source\":3}",
    ),
    (
        "{\"do\":\"equal\",\"one\":\"n1:source\",\"two\":\"n0:source\"}",
        "{\"ok\":\"equal\",\"value\":true}",
    ),
    (
        "{\"do\":\"compose\",\"name\":\"n2\",\"first\":\"n1\",\"then\":\"n0\"}",
        "{\"name\":\"n2\",\"ok\":\"compose\"}",
    ),
    (
        "{\"do\":\"normalise\",\"name\":\"k\",\"of\":\"L:target\",\"legs\":[\"L\"]}",
        "{\"arrow\":6,\"factors\":[7],\"name\":\"k\",\"nodes\":[{\"label\":[0,0]},{\"label\":[1,1]},{\"labels\":[[0,0],[0,0]]},{\"labels\":[[0,0],[1,1]]},{\"bwds\":[2,3],\"fwds\":[2,3],\"regs\":[0,0,0],\"sings\":[0,1]},{\"labels\":[[1,1],[1,1]]},{\"heights\":[0,1],\"regs\":[2,2,2],\"sings\":[2,5]},{\"heights\":[0],\"regs\":[2,2,2],\"sings\":[2]}],\"ok\":\"normalise\",\"source\":4}",
    ),
    (
        "{\"do\":\"equal\",\"one\":\"k:source\",\"two\":\"L:target\"}",
        "{\"ok\":\"equal\",\"value\":true}",
    ),
    (
        "{\"do\":\"normalise\",\"name\":\"k2\",\"of\":\"L:target\",\"legs\":[\"L\",\"n0\"]}",
        "{\"arrow\":6,\"factors\":[7,8],\"name\":\"k2\",\"nodes\":[{\"label\":[0,0]},{\"label\":[1,1]},{\"labels\":[[0,0],[0,0]]},{\"labels\":[[0,0],[1,1]]},{\"bwds\":[2,3],\"fwds\":[2,3],\"regs\":[0,0,0],\"sings\":[0,1]},{\"labels\":[[1,1],[1,1]]},{\"heights\":[0,1],\"regs\":[2,2,2],\"sings\":[2,5]},{\"heights\":[0],\"regs\":[2,2,2],\"sings\":[2]},{\"heights\":[1],\"regs\":[2,2,2],\"sings\":[5]}],\"ok\":\"normalise\",\"source\":4}",
    ),
    (
        "{\"do\":\"stats\"}",
        "{\"arrows\":7,\"diagrams\":5,\"generators\":0,\"maps\":6,\"named\":0,\"ok\":\"stats\"}",
    ),
    (
        "{\"do\":\"normalise\",\"name\":\"again\",\"of\":\"L:target\",\"legs\":[\"L\",\"n0\"]}",
        "{\"arrow\":6,\"factors\":[7,8],\"name\":\"again\",\"nodes\":[{\"label\":[0,0]},{\"label\":[1,1]},{\"labels\":[[0,0],[0,0]]},{\"labels\":[[0,0],[1,1]]},{\"bwds\":[2,3],\"fwds\":[2,3],\"regs\":[0,0,0],\"sings\":[0,1]},{\"labels\":[[1,1],[1,1]]},{\"heights\":[0,1],\"regs\":[2,2,2],\"sings\":[2,5]},{\"heights\":[0],\"regs\":[2,2,2],\"sings\":[2]},{\"heights\":[1],\"regs\":[2,2,2],\"sings\":[5]}],\"ok\":\"normalise\",\"source\":4}",
    ),
    (
        "{\"do\":\"stats\"}",
        "{\"arrows\":7,\"diagrams\":5,\"generators\":0,\"maps\":7,\"named\":0,\"ok\":\"stats\"}",
    ),
    ("{\"do\":\"undo\"}", "{\"ok\":\"undo\"}"),
    (
        "{\"do\":\"normalise\",\"name\":\"L\",\"of\":\"L:target\",\"legs\":[]}",
        "{\"refused\":\"NameTaken\"}",
    ),
    (
        "{\"do\":\"normalise\",\"name\":\"m\",\"of\":\"Z:target\",\"legs\":[\"Q\"]}",
        "{\"name\":\"Z:target\",\"refused\":\"Unknown\"}",
    ),
    (
        "{\"do\":\"normalise\",\"name\":\"m\",\"of\":\"L:target\",\"legs\":[\"L\",\"Q\"]}",
        "{\"name\":\"Q\",\"refused\":\"Unknown\"}",
    ),
    (
        "{\"do\":\"normalise\",\"name\":\"m\",\"of\":\"L:source\",\"legs\":[\"L\"]}",
        "{\"refused\":\"EndsDiffer\"}",
    ),
    (
        "{\"do\":\"normalise\",\"name\":\"m\",\"of\":\"n0:source\",\"legs\":[\"n1\"]}",
        "{\"arrow\":6,\"factors\":[6],\"name\":\"m\",\"nodes\":[{\"label\":[0,0]},{\"label\":[1,1]},{\"labels\":[[0,0],[1,1]]},{\"bwds\":[2],\"fwds\":[2],\"regs\":[0,0],\"sings\":[1]},{\"labels\":[[0,0],[0,0]]},{\"labels\":[[1,1],[1,1]]},{\"heights\":[0],\"regs\":[4,4],\"sings\":[5]}],\"ok\":\"normalise\",\"source\":3}",
    ),
    ("{\"do\":\"undo\"}", "{\"ok\":\"undo\"}"),
    ("{\"do\":\"redo\"}", "{\"ok\":\"redo\"}"),
    (
        "{\"do\":\"save\"}",
        "{\"document\":{\"diagrams\":[],\"format\":1,\"generators\":[],\"maps\":[{\"arrow\":6,\"name\":\"L\",\"source\":2,\"target\":5},{\"arrow\":9,\"name\":\"n0\",\"source\":7,\"target\":5},{\"arrow\":10,\"name\":\"n1\",\"source\":7,\"target\":7},{\"arrow\":9,\"name\":\"n2\",\"source\":7,\"target\":5},{\"arrow\":11,\"name\":\"k\",\"source\":5,\"target\":5},{\"arrow\":11,\"name\":\"k2\",\"source\":5,\"target\":5},{\"arrow\":10,\"name\":\"m\",\"source\":7,\"target\":7}],\"nodes\":[{\"label\":[0,0]},{\"labels\":[[0,0],[0,0]]},{\"bwds\":[1],\"fwds\":[1],\"regs\":[0,0],\"sings\":[0]},{\"label\":[1,1]},{\"labels\":[[0,0],[1,1]]},{\"bwds\":[1,4],\"fwds\":[1,4],\"regs\":[0,0,0],\"sings\":[0,3]},{\"heights\":[0],\"regs\":[1,1,1],\"sings\":[1]},{\"bwds\":[4],\"fwds\":[4],\"regs\":[0,0],\"sings\":[3]},{\"labels\":[[1,1],[1,1]]},{\"heights\":[1],\"regs\":[1,1,1],\"sings\":[8]},{\"heights\":[0],\"regs\":[1,1],\"sings\":[8]},{\"heights\":[0,1],\"regs\":[1,1,1],\"sings\":[1,8]}]},\"ok\":\"save\"}",
    ),
];

/// The identity of the type of a cell between loops is a leg, so that nothing can be dropped.
const IDENTITY: [Step; 2] = [
    (
        "{\"do\":\"bring\",\"name\":\"I\",\"nodes\":[{\"label\":[0,0]},{\"label\":[1,1]},{\"labels\":[[0,0],[1,1]]},{\"bwds\":[2],\"fwds\":[2],\"regs\":[0,0],\"sings\":[1]},{\"label\":[3,2]},{\"labels\":[[0,0],[3,2]]},{\"bwds\":[5],\"fwds\":[5],\"regs\":[0,0],\"sings\":[4]},{\"labels\":[[0,0],[0,0]]},{\"labels\":[[1,1],[3,2]]},{\"heights\":[0],\"regs\":[7,7],\"sings\":[8]},{\"bwds\":[9],\"fwds\":[9],\"regs\":[3,3],\"sings\":[6]},{\"labels\":[[1,1],[1,1]]},{\"heights\":[0],\"regs\":[7,7],\"sings\":[11]},{\"labels\":[[3,2],[3,2]]},{\"heights\":[0],\"regs\":[7,7],\"sings\":[13]},{\"heights\":[0],\"regs\":[12,12],\"sings\":[14]}],\"source\":10,\"target\":10,\"arrow\":15}",
        "{\"name\":\"I\",\"ok\":\"bring\"}",
    ),
    (
        "{\"do\":\"normalise\",\"name\":\"J\",\"of\":\"I:target\",\"legs\":[\"I\"]}",
        "{\"arrow\":15,\"factors\":[15],\"name\":\"J\",\"nodes\":[{\"label\":[0,0]},{\"label\":[1,1]},{\"labels\":[[0,0],[1,1]]},{\"bwds\":[2],\"fwds\":[2],\"regs\":[0,0],\"sings\":[1]},{\"label\":[3,2]},{\"labels\":[[0,0],[3,2]]},{\"bwds\":[5],\"fwds\":[5],\"regs\":[0,0],\"sings\":[4]},{\"labels\":[[0,0],[0,0]]},{\"labels\":[[1,1],[3,2]]},{\"heights\":[0],\"regs\":[7,7],\"sings\":[8]},{\"bwds\":[9],\"fwds\":[9],\"regs\":[3,3],\"sings\":[6]},{\"labels\":[[1,1],[1,1]]},{\"heights\":[0],\"regs\":[7,7],\"sings\":[11]},{\"labels\":[[3,2],[3,2]]},{\"heights\":[0],\"regs\":[7,7],\"sings\":[13]},{\"heights\":[0],\"regs\":[12,12],\"sings\":[14]}],\"ok\":\"normalise\",\"source\":10}",
    ),
];

/// The place of the first of these steps whose reply is another one.
fn check_steps(alloc: Global, steps: &[Step]) -> Result<Option<usize>, Fail> {
    over_new_session(alloc, |session| first_other(alloc, session, steps))
}

#[test]
fn normal_forms_are_taken(rt: HostRuntime) -> Result<(), Fail> {
    assert_eq!(rt; check_steps(rt.alloc(), &LEGS)?, None);
    assert_eq!(rt; check_steps(rt.alloc(), &IDENTITY)?, None);
    Ok(())
}
