use super::{Case, check_runs};
use hom_run::Status;
use std::test::Fail;

pub(super) const POINT_AND_LOOP: &str =
    "{\"do\":\"generator\",\"name\":\"x\"}\n{\"do\":\"generator\",\"name\":\"f\",\"source\":\"x\",\"target\":\"x\"}\n";

pub(super) const POINT_AND_LOOP_LINES: &str =
    "{\"dim\":0,\"name\":\"x\",\"number\":0,\"ok\":\"generator\"}\n{\"dim\":1,\"name\":\"f\",\"number\":1,\"ok\":\"generator\"}\n";

const REPLAYS: [Case; 13] = [
    ("replay", "", Status::Done, ""),
    (
        "replay",
        "{\"do\":\"generator\",\"name\":\"x\"}\n{\"do\":\"generator\",\"name\":\"f\",\"source\":\"x\",\"target\":\"x\"}\n{\"do\":\"generator\",\"name\":\"a\",\"source\":\"f\",\"target\":\"f\"}\n{\"do\":\"stats\"}\n",
        Status::Done,
        "{\"dim\":0,\"name\":\"x\",\"number\":0,\"ok\":\"generator\"}\n{\"dim\":1,\"name\":\"f\",\"number\":1,\"ok\":\"generator\"}\n{\"dim\":2,\"name\":\"a\",\"number\":2,\"ok\":\"generator\"}\n{\"arrows\":1,\"diagrams\":3,\"generators\":3,\"maps\":0,\"named\":0,\"ok\":\"stats\"}\n",
    ),
    (
        "replay",
        "{\"do\":\"generator\",\"name\":\"x\"}\n{\"do\":\"generator\",\"name\":\"f\",\"source\":\"x\",\"target\":\"x\"}\n{\"do\":\"save\"}\n",
        Status::Done,
        "{\"dim\":0,\"name\":\"x\",\"number\":0,\"ok\":\"generator\"}\n{\"dim\":1,\"name\":\"f\",\"number\":1,\"ok\":\"generator\"}\n{\"document\":{\"diagrams\":[],\"format\":1,\"generators\":[{\"name\":\"x\"},{\"name\":\"f\",\"source\":0,\"target\":0}],\"maps\":[],\"nodes\":[{\"label\":[0,0]}]},\"ok\":\"save\"}\n",
    ),
    (
        "replay",
        "{\"do\":\"generator\",\"name\":\"x\"}\n{\"do\":\"generator\",\"name\":\"f\",\"source\":\"x\",\"target\":\"x\"}\n{\"do\":\"identity\",\"name\":\"ix\",\"of\":\"x\"}\n{\"do\":\"generator\",\"name\":\"p\",\"source\":\"ix\",\"target\":\"ix\"}\n",
        Status::Done,
        "{\"dim\":0,\"name\":\"x\",\"number\":0,\"ok\":\"generator\"}\n{\"dim\":1,\"name\":\"f\",\"number\":1,\"ok\":\"generator\"}\n{\"dim\":1,\"length\":0,\"name\":\"ix\",\"ok\":\"identity\"}\n{\"dim\":2,\"name\":\"p\",\"number\":2,\"ok\":\"generator\"}\n",
    ),
    (
        "replay",
        "{\"do\":\"undo\"}\n",
        Status::Refused,
        "{\"refused\":\"NothingToUndo\"}\n",
    ),
    (
        "replay",
        "{\"do\":\"generator\",\"name\":\"x\"}\n{\"do\":\"undo\"}\n{\"do\":\"redo\"}\n{\"do\":\"undo\"}\n{\"do\":\"generator\",\"name\":\"y\"}\n{\"do\":\"redo\"}\n",
        Status::Refused,
        "{\"dim\":0,\"name\":\"x\",\"number\":0,\"ok\":\"generator\"}\n{\"ok\":\"undo\"}\n{\"ok\":\"redo\"}\n{\"ok\":\"undo\"}\n{\"dim\":0,\"name\":\"y\",\"number\":0,\"ok\":\"generator\"}\n{\"refused\":\"NothingToRedo\"}\n",
    ),
    (
        "replay",
        "{\"do\":\"fly\"}\n{\"do\":\"generator\",\"name\":\"x\"}\n",
        Status::Refused,
        "{\"field\":\"do\",\"refused\":\"Form\"}\n{\"dim\":0,\"name\":\"x\",\"number\":0,\"ok\":\"generator\"}\n",
    ),
    (
        "replay",
        "{\"do\":\"generator\",\"name\":\"x\"}\n{\"do\":\"generator\",\"name\":\"f\",\"source\":\"x\",\"target\":\"x\"}\n{\"do\":\"generator\",\"name\":\"g\",\"source\":\"x\",\"target\":\"f\"}\n",
        Status::Refused,
        "{\"dim\":0,\"name\":\"x\",\"number\":0,\"ok\":\"generator\"}\n{\"dim\":1,\"name\":\"f\",\"number\":1,\"ok\":\"generator\"}\n{\"refused\":\"DimDiffers\"}\n",
    ),
    (
        "replay",
        "{\"do\":\"generator\",\"name\":\"x\"}\n{\"do\":\"generator\",\"name\":\"f\",\"source\":\"x\",\"target\":\"x\"}\n{\"do\":\"generator\",\"name\":\"y\"}\n{\"do\":\"generator\",\"name\":\"h\",\"source\":\"x\",\"target\":\"y\"}\n{\"do\":\"generator\",\"name\":\"g\",\"source\":\"f\",\"target\":\"h\"}\n",
        Status::Refused,
        "{\"dim\":0,\"name\":\"x\",\"number\":0,\"ok\":\"generator\"}\n{\"dim\":1,\"name\":\"f\",\"number\":1,\"ok\":\"generator\"}\n{\"dim\":0,\"name\":\"y\",\"number\":2,\"ok\":\"generator\"}\n{\"dim\":1,\"name\":\"h\",\"number\":3,\"ok\":\"generator\"}\n{\"refused\":\"NotParallel\"}\n",
    ),
    (
        "replay",
        "{\"do\":\"generator\",\"name\":\"x\"}\n{\"do\":\"identity\",\"name\":\"x\",\"of\":\"x\"}\n",
        Status::Refused,
        "{\"dim\":0,\"name\":\"x\",\"number\":0,\"ok\":\"generator\"}\n{\"refused\":\"NameTaken\"}\n",
    ),
    (
        "replay",
        "{\"do\":\"generator\",\"name\":\"x\"}\n{\"do\":\"equal\",\"one\":\"x\",\"two\":\"z\"}\n",
        Status::Refused,
        "{\"dim\":0,\"name\":\"x\",\"number\":0,\"ok\":\"generator\"}\n{\"name\":\"z\",\"refused\":\"Unknown\"}\n",
    ),
    (
        "replay",
        "{\"do\":\"generator\",\"name\":\"x\"}\n{\"do\":\"boundary\",\"name\":\"w\",\"of\":\"x\",\"side\":\"source\"}\n",
        Status::Refused,
        "{\"dim\":0,\"name\":\"x\",\"number\":0,\"ok\":\"generator\"}\n{\"refused\":\"NoHeight\",\"step\":0}\n",
    ),
    (
        "replay",
        "\n \t\r\n{\"do\":\"generator\",\"name\":\"x\"}",
        Status::Done,
        "{\"dim\":0,\"name\":\"x\",\"number\":0,\"ok\":\"generator\"}\n",
    ),
];

#[test]
fn replays_sessions(rt: HostRuntime) -> Result<(), Fail> {
    check_runs(&rt, &REPLAYS)
}
