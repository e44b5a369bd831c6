use crate::tests::sessions::{Step, first_other, over_new_session};
use std::test::Fail;

/// The identity map of a point is brought, composed with itself and dropped, which is undone, redone and
/// undone. The last map goes from an identity into a cospan whose two legs differ: where its height has
/// an empty fibre, they do not agree.
const MAPS: [Step; 15] = [
    (
        "{\"do\":\"bring\",\"name\":\"i\",\"nodes\":[{\"label\":[0,0]},{\"labels\":[[0,0],[0,0]]}],\"source\":0,\"target\":0,\"arrow\":1}",
        "{\"name\":\"i\",\"ok\":\"bring\"}",
    ),
    (
        "{\"do\":\"bring\",\"name\":\"i\",\"nodes\":[{\"label\":[0,0]},{\"labels\":[[0,0],[0,0]]}],\"source\":0,\"target\":0,\"arrow\":1}",
        "{\"refused\":\"NameTaken\"}",
    ),
    (
        "{\"do\":\"compose\",\"name\":\"j\",\"first\":\"i\",\"then\":\"i\"}",
        "{\"name\":\"j\",\"ok\":\"compose\"}",
    ),
    (
        "{\"do\":\"compose\",\"name\":\"k\",\"first\":\"i\",\"then\":\"h\"}",
        "{\"name\":\"h\",\"refused\":\"Unknown\"}",
    ),
    (
        "{\"do\":\"slice\",\"of\":\"i:target\",\"path\":[]}",
        "{\"nodes\":[{\"label\":[0,0]}],\"ok\":\"slice\",\"root\":0}",
    ),
    (
        "{\"do\":\"save\"}",
        "{\"document\":{\"diagrams\":[],\"format\":1,\"generators\":[],\"maps\":[{\"arrow\":1,\"name\":\"i\",\"source\":0,\"target\":0},{\"arrow\":1,\"name\":\"j\",\"source\":0,\"target\":0}],\"nodes\":[{\"label\":[0,0]},{\"labels\":[[0,0],[0,0]]}]},\"ok\":\"save\"}",
    ),
    (
        "{\"do\":\"stats\"}",
        "{\"arrows\":1,\"diagrams\":1,\"generators\":0,\"maps\":2,\"named\":0,\"ok\":\"stats\"}",
    ),
    (
        "{\"do\":\"drop\",\"name\":\"i\"}",
        "{\"name\":\"i\",\"ok\":\"drop\"}",
    ),
    (
        "{\"do\":\"slice\",\"of\":\"i:target\",\"path\":[]}",
        "{\"name\":\"i:target\",\"refused\":\"Unknown\"}",
    ),
    ("{\"do\":\"undo\"}", "{\"ok\":\"undo\"}"),
    ("{\"do\":\"redo\"}", "{\"ok\":\"redo\"}"),
    ("{\"do\":\"undo\"}", "{\"ok\":\"undo\"}"),
    (
        "{\"do\":\"equal\",\"one\":\"i:target\",\"two\":\"j:source\"}",
        "{\"ok\":\"equal\",\"value\":true}",
    ),
    (
        "{\"do\":\"bring\",\"name\":\"E\",\"nodes\":[{\"label\":[0,0]},{\"label\":[1,1]},{\"labels\":[[0,0],[1,1]]},{\"bwds\":[2],\"fwds\":[2],\"regs\":[0,0],\"sings\":[1]},{\"bwds\":[2,2],\"fwds\":[2,2],\"regs\":[0,0,0],\"sings\":[1,1]},{\"labels\":[[0,0],[0,0]]},{\"labels\":[[1,1],[1,1]]},{\"heights\":[0],\"regs\":[5,5,5],\"sings\":[6]},{\"heights\":[1],\"regs\":[5,5,5],\"sings\":[6]},{\"bwds\":[8],\"fwds\":[7],\"regs\":[3,3],\"sings\":[4]},{\"bwds\":[],\"fwds\":[],\"regs\":[3],\"sings\":[]},{\"heights\":[0],\"regs\":[5,5],\"sings\":[6]},{\"heights\":[],\"regs\":[11,11],\"sings\":[]}],\"source\":10,\"target\":9,\"arrow\":12}",
        "{\"at\":\"q0\",\"fault\":\"square\",\"refused\":\"IllTyped\"}",
    ),
    (
        "{\"do\":\"stats\"}",
        "{\"arrows\":1,\"diagrams\":1,\"generators\":0,\"maps\":2,\"named\":0,\"ok\":\"stats\"}",
    ),
];

#[test]
fn maps_are_brought_and_dropped(rt: HostRuntime) -> Result<(), Fail> {
    let alloc = rt.alloc();
    let other = over_new_session(alloc, |session| first_other(alloc, session, &MAPS))?;
    assert_eq!(rt; other, None);
    Ok(())
}
