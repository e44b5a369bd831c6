ghost use Rattle.std.specs.Prelude.{◌<◌};

use hom_run::{Status, run};
use io_edge::{MemSink, MemSource, SureSink, SureSource};
use std::alloc::{AllocError, Global};
use std::process::Abort;
use std::test::Fail;

mod faults;
mod hostile;
mod long_inputs;
mod normal_forms;
mod numbers;
mod replays;

const ONE_ARROW: &str =
    "{\"diagrams\":[{\"name\":\"F\",\"root\":3}],\"format\":1,\"generators\":[],\"maps\":[],\"nodes\":[{\"label\":[0,0]},{\"label\":[1,1]},{\"labels\":[[0,0],[1,1]]},{\"bwds\":[2],\"fwds\":[2],\"regs\":[0,0],\"sings\":[1]}]}";

const ONE_ARROW_LINE: &str = "{\"dim\":1,\"length\":1,\"name\":\"F\",\"ok\":\"look\"}\n";

fn words_of(alloc: Global, line: &str) -> Result<Vec<String>, AllocError> {
    let mut words = Vec::new(alloc);
    for word in line.split(' ').filter(|word| !word.is_empty()) {
        words.push(String::from_str(alloc, word)?)?;
    }
    Ok(words)
}

/// The words, the input, and the status and the text that are wanted.
type Case = (&'static str, &'static str, Status, &'static str);

const LOOKS: [Case; 15] = [
    ("look", ONE_ARROW, Status::Done, ONE_ARROW_LINE),
    (
        "look",
        "{\"diagrams\":[{\"name\":\"F\",\"root\"",
        Status::Form,
        "{\"refused\":\"NotJson\"}\n",
    ),
    (
        "look",
        "{\"diagrams\":[{\"name\":\"X\",\"root\":0}],\"format\":1,\"generators\":[],\"maps\":[],\"nodes\":[{\"label\":[0,0]}]}",
        Status::Done,
        "{\"dim\":0,\"length\":0,\"name\":\"X\",\"ok\":\"look\"}\n",
    ),
    (
        "look",
        "{\"diagrams\":[{\"name\":\"G\",\"root\":3}],\"format\":1,\"generators\":[],\"maps\":[],\"nodes\":[{\"label\":[0,0]},{\"label\":[1,1]},{\"labels\":[[1,1],[0,0]]},{\"bwds\":[2],\"fwds\":[2],\"regs\":[1,1],\"sings\":[0]}]}",
        Status::Refused,
        "{\"at\":\"f0 ends\",\"dim\":1,\"length\":1,\"name\":\"G\",\"no\":\"look\"}\n",
    ),
    (
        "look",
        "{\"diagrams\":[{\"name\":\"D\",\"root\":10}],\"format\":1,\"generators\":[],\"maps\":[],\"nodes\":[{\"label\":[0,0]},{\"label\":[1,1]},{\"label\":[2,2]},{\"labels\":[[0,0],[1,1]]},{\"bwds\":[3],\"fwds\":[3],\"regs\":[0,0],\"sings\":[1]},{\"labels\":[[0,0],[2,2]]},{\"bwds\":[5],\"fwds\":[5],\"regs\":[0,0],\"sings\":[2]},{\"labels\":[[0,0],[0,0]]},{\"labels\":[[2,2],[1,1]]},{\"heights\":[0],\"regs\":[7,7],\"sings\":[8]},{\"bwds\":[9],\"fwds\":[9],\"regs\":[6,6],\"sings\":[4]}]}",
        Status::Refused,
        "{\"at\":\"f0 s0 ends\",\"dim\":2,\"length\":1,\"name\":\"D\",\"no\":\"look\"}\n",
    ),
    (
        "look",
        "{\"diagrams\":[{\"name\":\"g\",\"root\":4},{\"name\":\"i\",\"root\":5},{\"name\":\"h\",\"root\":6}],\"format\":1,\"generators\":[],\"maps\":[],\"nodes\":[{\"label\":[0,0]},{\"label\":[1,1]},{\"labels\":[[0,0],[1,1]]},{\"labels\":[[0,0],[0,0]]},{\"bwds\":[2,3],\"fwds\":[2,2],\"regs\":[0,0,0],\"sings\":[1,1]},{\"bwds\":[],\"fwds\":[],\"regs\":[1],\"sings\":[]},{\"bwds\":[3],\"fwds\":[2],\"regs\":[0,0],\"sings\":[1]}]}",
        Status::Refused,
        "{\"at\":\"b1 ends\",\"dim\":1,\"length\":2,\"name\":\"g\",\"no\":\"look\"}\n{\"dim\":1,\"length\":0,\"name\":\"i\",\"ok\":\"look\"}\n{\"at\":\"b0 ends\",\"dim\":1,\"length\":1,\"name\":\"h\",\"no\":\"look\"}\n",
    ),
    (
        "look",
        "{\"diagrams\":[],\"format\":1,\"generators\":[],\"maps\":[],\"nodes\":[{\"bwds\":[],\"fwds\":[],\"regs\":[1],\"sings\":[]},{\"label\":[0,0]}]}",
        Status::Form,
        "{\"node\":0,\"refused\":\"Early\"}\n",
    ),
    (
        "look",
        "{\"diagrams\":[],\"format\":1,\"generators\":[],\"maps\":[],\"nodes\":[{\"label\":[0,7]}]}",
        Status::Form,
        "{\"node\":0,\"refused\":\"Label\"}\n",
    ),
    (
        "look",
        "{\"diagrams\":[],\"format\":1,\"generators\":[],\"maps\":[],\"nodes\":[{\"labels\":[[0,0],[0,0]]},{\"heights\":[1,0],\"regs\":[0,0,0],\"sings\":[0,0]}]}",
        Status::Form,
        "{\"node\":1,\"refused\":\"Shape\"}\n",
    ),
    (
        "look",
        "{\"diagrams\":[{\"name\":\"E\",\"root\":13}],\"format\":1,\"generators\":[],\"maps\":[],\"nodes\":[{\"label\":[0,0]},{\"label\":[1,1]},{\"labels\":[[0,0],[1,1]]},{\"bwds\":[2],\"fwds\":[2],\"regs\":[0,0],\"sings\":[1]},{\"bwds\":[2,2],\"fwds\":[2,2],\"regs\":[0,0,0],\"sings\":[1,1]},{\"labels\":[[0,0],[0,0]]},{\"labels\":[[1,1],[1,1]]},{\"heights\":[0],\"regs\":[5,5,5],\"sings\":[6]},{\"heights\":[1],\"regs\":[5,5,5],\"sings\":[6]},{\"bwds\":[8],\"fwds\":[7],\"regs\":[3,3],\"sings\":[4]},{\"bwds\":[],\"fwds\":[],\"regs\":[3],\"sings\":[]},{\"heights\":[0],\"regs\":[5,5],\"sings\":[6]},{\"heights\":[],\"regs\":[11,11],\"sings\":[]},{\"bwds\":[12],\"fwds\":[12],\"regs\":[10,10],\"sings\":[9]}]}",
        Status::Refused,
        "{\"at\":\"f0 q0\",\"dim\":3,\"length\":1,\"name\":\"E\",\"no\":\"look\"}\n",
    ),
    ("", ONE_ARROW, Status::Usage, ""),
    ("demo 0", ONE_ARROW, Status::Usage, ""),
    ("slice T s01", ONE_ARROW, Status::Usage, ""),
    ("look look", ONE_ARROW, Status::Usage, ""),
    ("Look", ONE_ARROW, Status::Usage, ""),
];

/// The status of a run on an input without faults, and what it writes.
fn answer_to(alloc: Global, line: &str, bytes: &[u8]) -> Result<(Status, Vec<u8>), AllocError> {
    let words = words_of(alloc, line)?;
    let mut input = SureSource::new(Vec::from_slice(alloc, bytes)?);
    let mut output = SureSink::new(alloc);
    let status = run(alloc, words.as_slice(), &mut input, &mut output);
    Ok((status, Vec::from_slice(alloc, output.written())?))
}

/// Runs on an input without faults.
fn check_run(
    rt: &(impl Abort + AllocGlobal),
    line: &str,
    bytes: &[u8],
    status: Status,
    want: &str,
) -> Result<(), Fail> {
    let (answer, written) = answer_to(rt.alloc(), line, bytes)?;
    assert_eq!(rt; answer, status, "{line} {want}");
    assert!(rt; written.as_slice() == want.as_bytes(), "{line} {want}");
    Ok(())
}

/// Runs on each case.
fn check_runs(rt: &(impl Abort + AllocGlobal), cases: &[Case]) -> Result<(), Fail> {
    for (line, text, status, want) in cases {
        check_run(rt, line, text.as_bytes(), *status, want)?;
    }
    Ok(())
}

#[test]
fn looks_at_documents(rt: HostRuntime) -> Result<(), Fail> {
    check_runs(&rt, &LOOKS)
}

const TWO_HEIGHTS: &str =
    "{\"diagrams\":[{\"name\":\"T\",\"root\":4}],\"format\":1,\"generators\":[{\"name\":\"x\"},{\"name\":\"f\",\"source\":0,\"target\":0}],\"maps\":[{\"arrow\":6,\"name\":\"L\",\"source\":5,\"target\":4}],\"nodes\":[{\"label\":[0,0]},{\"label\":[1,1]},{\"labels\":[[0,0],[0,0]]},{\"labels\":[[0,0],[1,1]]},{\"bwds\":[2,3],\"fwds\":[2,3],\"regs\":[0,0,0],\"sings\":[0,1]},{\"bwds\":[2],\"fwds\":[2],\"regs\":[0,0],\"sings\":[0]},{\"heights\":[0],\"regs\":[2,2,2],\"sings\":[2]}]}";

const ALL_OF_IT: &str =
    "{\"nodes\":[{\"label\":[0,0]},{\"label\":[1,1]},{\"labels\":[[0,0],[0,0]]},{\"labels\":[[0,0],[1,1]]},{\"bwds\":[2,3],\"fwds\":[2,3],\"regs\":[0,0,0],\"sings\":[0,1]}],\"ok\":\"slice\",\"root\":4}\n";

const SLICES: [Case; 9] = [
    (
        "slice T s1",
        TWO_HEIGHTS,
        Status::Done,
        "{\"nodes\":[{\"label\":[1,1]}],\"ok\":\"slice\",\"root\":0}\n",
    ),
    ("slice T .", TWO_HEIGHTS, Status::Done, ALL_OF_IT),
    (
        "slice T s2",
        TWO_HEIGHTS,
        Status::Refused,
        "{\"refused\":\"NoHeight\",\"step\":0}\n",
    ),
    (
        "slice T r2,r0",
        TWO_HEIGHTS,
        Status::Refused,
        "{\"refused\":\"NoHeight\",\"step\":1}\n",
    ),
    (
        "slice U .",
        TWO_HEIGHTS,
        Status::Refused,
        "{\"name\":\"U\",\"refused\":\"Unknown\"}\n",
    ),
    (
        "slice L .",
        TWO_HEIGHTS,
        Status::Refused,
        "{\"name\":\"L\",\"refused\":\"Unknown\"}\n",
    ),
    ("slice T s01", TWO_HEIGHTS, Status::Usage, ""),
    ("slice T", TWO_HEIGHTS, Status::Usage, ""),
    ("slice T s4294967296", TWO_HEIGHTS, Status::Usage, ""),
];

#[test]
fn slices_diagrams(rt: HostRuntime) -> Result<(), Fail> {
    check_runs(&rt, &SLICES)
}

/// How many bytes a source or a sink takes in a call, at least one, and which calls fail.
#[derive(Clone, Copy)]
struct Calls<'c> {
    most: usize,
    fails: &'c [usize],
    ghost some: { 0 < most },
}

/// A run over a source and a sink of such calls.
fn run_on(
    alloc: Global,
    word: &str,
    bytes: &[u8],
    reads: Calls<'_>,
    writes: Calls<'_>,
) -> Result<(Status, Vec<u8>), AllocError> {
    let words = words_of(alloc, word)?;
    let mut input = MemSource::new(
        Vec::from_slice(alloc, bytes)?,
        reads.most,
        Vec::from_slice(alloc, reads.fails)?,
    );
    let mut output = MemSink::new(alloc, writes.most, Vec::from_slice(alloc, writes.fails)?);
    let status = run(alloc, words.as_slice(), &mut input, &mut output);
    Ok((status, Vec::from_slice(alloc, output.written())?))
}

#[test]
fn stops_short(rt: HostRuntime) -> Result<(), Fail> {
    let alloc = rt.alloc();
    let arrow = ("look", ONE_ARROW, ONE_ARROW_LINE);
    let lines = (
        "replay",
        replays::POINT_AND_LOOP,
        replays::POINT_AND_LOOP_LINES,
    );
    let cases = [
        (arrow, 1000, 1000, Status::Done, ONE_ARROW_LINE.len()),
        (arrow, 0, 1000, Status::ReadFault, 0),
        (arrow, 3, 0, Status::ReadFault, 0),
        (arrow, 1000, 0, Status::WriteFault, 0),
        (arrow, 1000, 2, Status::WriteFault, 32),
        (lines, 1000, 5, Status::WriteFault, 65),
        (lines, 0, 1000, Status::ReadFault, 0),
    ];
    for ((word, text, whole), read_fails, write_fails, status, count) in cases {
        let reads = Calls {
            most: 7,
            fails: &[read_fails],
        };
        let writes = Calls {
            most: 16,
            fails: &[write_fails],
        };
        let (answer, written) = run_on(alloc, word, text.as_bytes(), reads, writes)?;
        assert_eq!(rt; answer, status, "{word} {read_fails} {write_fails}");
        assert_eq!(rt; written.len(), count, "{word} {read_fails} {write_fails}");
        assert!(rt;
            whole.as_bytes().starts_with(written.as_slice()),
            "{word} {read_fails} {write_fails}"
        );
    }
    Ok(())
}

/// The newline of the first line is the byte of call 29.
const POINT_AND_UNDO: &str = "{\"do\":\"generator\",\"name\":\"x\"}\n{\"do\":\"undo\"}";

#[test]
fn answers_a_line_before_the_next(rt: HostRuntime) -> Result<(), Fail> {
    let reply = "{\"dim\":0,\"name\":\"x\",\"number\":0,\"ok\":\"generator\"}\n";
    let cases: [(&[usize], Status, &str); 2] = [
        (&[], Status::ReadFault, reply),
        (&[0], Status::WriteFault, ""),
    ];
    for (write_fails, status, want) in cases {
        let reads = Calls {
            most: 1,
            fails: &[30],
        };
        let writes = Calls {
            most: 64,
            fails: write_fails,
        };
        let (answer, written) = run_on(
            rt.alloc(),
            "replay",
            POINT_AND_UNDO.as_bytes(),
            reads,
            writes,
        )?;
        assert_eq!(rt; answer, status);
        assert!(rt; written.as_slice() == want.as_bytes());
    }
    Ok(())
}

#[test]
fn numbers_statuses(rt: HostRuntime) {
    let statuses = [
        Status::Done,
        Status::Refused,
        Status::Usage,
        Status::Form,
        Status::ReadFault,
        Status::WriteFault,
        Status::NoMemory,
        Status::TooLong,
    ];
    for (place, status) in statuses.iter().enumerate() {
        assert_eq!(rt; usize::from(status.number()), place);
    }
}
