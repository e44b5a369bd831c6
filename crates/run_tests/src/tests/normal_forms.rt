use super::{Case, TWO_HEIGHTS, check_runs};
use hom_run::Status;
use std::test::Fail;

/// A diagram D from U = x -> x <- x -> f <- x to itself through x -> x <- x -> a <- x.
const HALF_STRIPPED: &str =
    "{\"diagrams\":[{\"name\":\"D\",\"root\":10},{\"name\":\"U\",\"root\":7}],\"format\":1,\"generators\":[],\"maps\":[],\"nodes\":[{\"label\":[0,0]},{\"label\":[1,1]},{\"label\":[3,2]},{\"labels\":[[0,0],[0,0]]},{\"labels\":[[0,0],[1,1]]},{\"labels\":[[0,0],[3,2]]},{\"labels\":[[1,1],[3,2]]},{\"bwds\":[3,4],\"fwds\":[3,4],\"regs\":[0,0,0],\"sings\":[0,1]},{\"bwds\":[3,5],\"fwds\":[3,5],\"regs\":[0,0,0],\"sings\":[0,2]},{\"heights\":[0,1],\"regs\":[3,3,3],\"sings\":[3,6]},{\"bwds\":[9],\"fwds\":[9],\"regs\":[7,7],\"sings\":[8]}]}";

/// A diagram G whose leg goes against the order of labels, and a map M from it to itself.
const BAD_DIAGRAM: &str =
    "{\"diagrams\":[{\"name\":\"G\",\"root\":3}],\"format\":1,\"generators\":[],\"maps\":[{\"arrow\":6,\"name\":\"M\",\"source\":3,\"target\":3}],\"nodes\":[{\"label\":[0,0]},{\"label\":[1,1]},{\"labels\":[[1,1],[0,0]]},{\"bwds\":[2],\"fwds\":[2],\"regs\":[1,1],\"sings\":[0]},{\"labels\":[[1,1],[1,1]]},{\"labels\":[[0,0],[0,0]]},{\"heights\":[0],\"regs\":[4,4],\"sings\":[5]}]}";

/// A map H from a valid diagram to one that is not.
const BAD_TARGET: &str =
    "{\"diagrams\":[],\"format\":1,\"generators\":[],\"maps\":[{\"arrow\":9,\"name\":\"H\",\"source\":7,\"target\":3}],\"nodes\":[{\"label\":[0,0]},{\"label\":[1,1]},{\"labels\":[[1,1],[0,0]]},{\"bwds\":[2],\"fwds\":[2],\"regs\":[1,1],\"sings\":[0]},{\"labels\":[[1,1],[1,1]]},{\"labels\":[[0,0],[0,0]]},{\"labels\":[[1,1],[1,1]]},{\"bwds\":[4],\"fwds\":[4],\"regs\":[1,1],\"sings\":[1]},{\"labels\":[[1,1],[0,0]]},{\"heights\":[0],\"regs\":[4,4],\"sings\":[8]}]}";

/// A map B between valid diagrams, whose singular slice begins at another label.
const BAD_ARROW: &str =
    "{\"diagrams\":[],\"format\":1,\"generators\":[],\"maps\":[{\"arrow\":5,\"name\":\"B\",\"source\":3,\"target\":3}],\"nodes\":[{\"label\":[0,0]},{\"label\":[1,1]},{\"labels\":[[0,0],[1,1]]},{\"bwds\":[2],\"fwds\":[2],\"regs\":[0,0],\"sings\":[1]},{\"labels\":[[0,0],[0,0]]},{\"heights\":[0],\"regs\":[4,4],\"sings\":[4]}]}";

const NORMAL_FORMS: [Case; 12] = [
    (
        "normalise T",
        TWO_HEIGHTS,
        Status::Done,
        "{\"arrow\":6,\"factors\":[],\"name\":\"T\",\"nodes\":[{\"label\":[0,0]},{\"label\":[1,1]},{\"labels\":[[0,0],[1,1]]},{\"bwds\":[2],\"fwds\":[2],\"regs\":[0,0],\"sings\":[1]},{\"labels\":[[0,0],[0,0]]},{\"labels\":[[1,1],[1,1]]},{\"heights\":[1],\"regs\":[4,4,4],\"sings\":[5]}],\"ok\":\"normalise\",\"source\":3}
",
    ),
    (
        "normalise L",
        TWO_HEIGHTS,
        Status::Done,
        "{\"arrow\":6,\"factors\":[7],\"name\":\"L\",\"nodes\":[{\"label\":[0,0]},{\"label\":[1,1]},{\"labels\":[[0,0],[0,0]]},{\"labels\":[[0,0],[1,1]]},{\"bwds\":[2,3],\"fwds\":[2,3],\"regs\":[0,0,0],\"sings\":[0,1]},{\"labels\":[[1,1],[1,1]]},{\"heights\":[0,1],\"regs\":[2,2,2],\"sings\":[2,5]},{\"heights\":[0],\"regs\":[2,2,2],\"sings\":[2]}],\"ok\":\"normalise\",\"source\":4}
",
    ),
    (
        "normalise x",
        TWO_HEIGHTS,
        Status::Refused,
        "{\"name\":\"x\",\"refused\":\"Unknown\"}
",
    ),
    (
        "normalise Z",
        TWO_HEIGHTS,
        Status::Refused,
        "{\"name\":\"Z\",\"refused\":\"Unknown\"}
",
    ),
    (
        "normalise D",
        HALF_STRIPPED,
        Status::Done,
        "{\"arrow\":15,\"factors\":[],\"name\":\"D\",\"nodes\":[{\"label\":[0,0]},{\"label\":[1,1]},{\"labels\":[[0,0],[1,1]]},{\"bwds\":[2],\"fwds\":[2],\"regs\":[0,0],\"sings\":[1]},{\"label\":[3,2]},{\"labels\":[[0,0],[3,2]]},{\"bwds\":[5],\"fwds\":[5],\"regs\":[0,0],\"sings\":[4]},{\"labels\":[[0,0],[0,0]]},{\"labels\":[[1,1],[3,2]]},{\"heights\":[0],\"regs\":[7,7],\"sings\":[8]},{\"bwds\":[9],\"fwds\":[9],\"regs\":[3,3],\"sings\":[6]},{\"labels\":[[1,1],[1,1]]},{\"heights\":[1],\"regs\":[7,7,7],\"sings\":[11]},{\"labels\":[[3,2],[3,2]]},{\"heights\":[1],\"regs\":[7,7,7],\"sings\":[13]},{\"heights\":[0],\"regs\":[12,12],\"sings\":[14]}],\"ok\":\"normalise\",\"source\":10}
",
    ),
    (
        "normalise G",
        BAD_DIAGRAM,
        Status::Refused,
        "{\"at\":\"f0 ends\",\"fault\":\"square\",\"refused\":\"IllTyped\"}
",
    ),
    (
        "normalise M",
        BAD_DIAGRAM,
        Status::Refused,
        "{\"at\":\"source f0 ends\",\"fault\":\"square\",\"refused\":\"IllTyped\"}
",
    ),
    (
        "normalise H",
        BAD_TARGET,
        Status::Refused,
        "{\"at\":\"target f0 ends\",\"fault\":\"square\",\"refused\":\"IllTyped\"}
",
    ),
    (
        "normalise B",
        BAD_ARROW,
        Status::Refused,
        "{\"at\":\"s0 ends\",\"fault\":\"square\",\"refused\":\"IllTyped\"}
",
    ),
    ("normalise", TWO_HEIGHTS, Status::Usage, ""),
    ("normalise T T", TWO_HEIGHTS, Status::Usage, ""),
    (
        "normalise T",
        "{\"diagrams\":[{\"name\":\"T\",\"root\":4}],\"for",
        Status::Form,
        "{\"refused\":\"NotJson\"}
",
    ),
];

#[test]
fn takes_normal_forms(rt: HostRuntime) -> Result<(), Fail> {
    check_runs(&rt, &NORMAL_FORMS)
}
