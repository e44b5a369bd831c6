use super::check_run;
use super::replays::{POINT_AND_LOOP, POINT_AND_LOOP_LINES};
use hom_run::Status;
use std::alloc::{AllocError, Global};
use std::process::Abort;
use std::test::Fail;

/// One byte so many times, and what stands before and behind it.
struct Long {
    before: &'static str,
    byte: u8,
    count: usize,
    behind: &'static str,
}

/// The word, the input, and the status and the text that are wanted.
type LongCase = (&'static str, Long, Status, &'static str);

const POINT: &str = "{\"do\":\"generator\",\"name\":\"x\"}";

const POINT_LINE: &str = "{\"dim\":0,\"name\":\"x\",\"number\":0,\"ok\":\"generator\"}\n";

const NOT_JSON: &str = "{\"refused\":\"NotJson\"}\n";

const POINT_AND_NEWLINE: &str = "{\"do\":\"generator\",\"name\":\"x\"}\n";

const NAMED: &str = "{\"do\":\"generator\",\"name\":\"";

/// The bytes of an input.
fn bytes_of(alloc: Global, long: &Long) -> Result<Vec<u8>, AllocError> {
    let mut bytes = Vec::from_slice(alloc, long.before.as_bytes())?;
    bytes.resize(long.before.len().saturating_add(long.count), long.byte)?;
    bytes.extend_from_slice(long.behind.as_bytes())?;
    Ok(bytes)
}

/// Runs on each case.
fn check_long_runs(rt: &(impl Abort + AllocGlobal), cases: &[LongCase]) -> Result<(), Fail> {
    for (word, long, status, want) in cases {
        let bytes = bytes_of(rt.alloc(), long)?;
        check_run(rt, word, &bytes, *status, want)?;
    }
    Ok(())
}

const INPUTS: [LongCase; 12] = [
    (
        "look",
        Long {
            before: "",
            byte: b'[',
            count: 200,
            behind: "",
        },
        Status::Form,
        NOT_JSON,
    ),
    (
        "look",
        Long {
            before: "",
            byte: 0xFF,
            count: 1,
            behind: "",
        },
        Status::Form,
        NOT_JSON,
    ),
    (
        "look",
        Long {
            before: "",
            byte: b'[',
            count: 127,
            behind: "]]]]]]]]]]]]]]]]]]]]]]]]]]]]]]]]]]]]]]]]]]]]]]]]]]]]]]]]]]]]]]]]]]]]]]]]]]]]]]]]]]]]]]]]]]]]]]]]]]]]]]]]]]]]]]]]]]]]]]]]]]]]]]]",
        },
        Status::Form,
        "{\"field\":\"document\",\"refused\":\"Form\"}\n",
    ),
    (
        "look",
        Long {
            before: "",
            byte: b'[',
            count: 128,
            behind: "]]]]]]]]]]]]]]]]]]]]]]]]]]]]]]]]]]]]]]]]]]]]]]]]]]]]]]]]]]]]]]]]]]]]]]]]]]]]]]]]]]]]]]]]]]]]]]]]]]]]]]]]]]]]]]]]]]]]]]]]]]]]]]]]",
        },
        Status::Form,
        NOT_JSON,
    ),
    (
        "replay",
        Long {
            before: NAMED,
            byte: b'a',
            count: 64,
            behind: "\"}",
        },
        Status::Done,
        "{\"dim\":0,\"name\":\"aaaaaaaaaaaaaaaaaaaaaaaaaaaaaaaaaaaaaaaaaaaaaaaaaaaaaaaaaaaaaaaa\",\"number\":0,\"ok\":\"generator\"}\n",
    ),
    (
        "replay",
        Long {
            before: NAMED,
            byte: b'a',
            count: 65,
            behind: "\"}",
        },
        Status::Refused,
        "{\"refused\":\"NameBad\"}\n",
    ),
    (
        "replay",
        Long {
            before: "",
            byte: b' ',
            count: 1_048_576,
            behind: "\n",
        },
        Status::Done,
        "",
    ),
    (
        "replay",
        Long {
            before: "",
            byte: b' ',
            count: 1_048_577,
            behind: "\n",
        },
        Status::TooLong,
        "",
    ),
    (
        "replay",
        Long {
            before: POINT,
            byte: b' ',
            count: 1_048_547,
            behind: "\n",
        },
        Status::Done,
        POINT_LINE,
    ),
    (
        "replay",
        Long {
            before: POINT,
            byte: b' ',
            count: 1_048_548,
            behind: "\n",
        },
        Status::TooLong,
        "",
    ),
    (
        "replay",
        Long {
            before: POINT_AND_NEWLINE,
            byte: b' ',
            count: 1_048_577,
            behind: "\n",
        },
        Status::TooLong,
        POINT_LINE,
    ),
    (
        "replay",
        Long {
            before: POINT_AND_LOOP,
            byte: b' ',
            count: 1_048_577,
            behind: "\n",
        },
        Status::TooLong,
        POINT_AND_LOOP_LINES,
    ),
];

#[test]
fn answers_long_inputs(rt: HostRuntime) -> Result<(), Fail> {
    check_long_runs(&rt, &INPUTS)
}

/// An input of the greatest length, and one that is longer by a byte.
const GREATEST_INPUTS: [LongCase; 2] = [
    (
        "look",
        Long {
            before: "",
            byte: b' ',
            count: 67_108_864,
            behind: "",
        },
        Status::Form,
        NOT_JSON,
    ),
    (
        "look",
        Long {
            before: "",
            byte: b' ',
            count: 67_108_865,
            behind: "",
        },
        Status::TooLong,
        "",
    ),
];

#[test]
fn answers_the_greatest_inputs(rt: HostRuntime) -> Result<(), Fail> {
    check_long_runs(&rt, &GREATEST_INPUTS)
}
