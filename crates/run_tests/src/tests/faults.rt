use super::{Calls, run_on};
use hom_run::Status;
use std::alloc::{AllocError, Global};
use std::test::Fail;

/// The lines of a session and their replies.
const SESSION: [(&str, &str); 5] = [
    (
        "{\"do\":\"generator\",\"name\":\"x\"}\n",
        "{\"dim\":0,\"name\":\"x\",\"number\":0,\"ok\":\"generator\"}\n",
    ),
    (
        "{\"do\":\"generator\",\"name\":\"f\",\"source\":\"x\",\"target\":\"x\"}\n",
        "{\"dim\":1,\"name\":\"f\",\"number\":1,\"ok\":\"generator\"}\n",
    ),
    (
        "{\"do\":\"identity\",\"name\":\"i\",\"of\":\"f\"}\n",
        "{\"dim\":2,\"length\":0,\"name\":\"i\",\"ok\":\"identity\"}\n",
    ),
    ("{\"do\":\"undo\"}\n", "{\"ok\":\"undo\"}\n"),
    (
        "{\"do\":\"stats\"}\n",
        "{\"arrows\":0,\"diagrams\":1,\"generators\":2,\"maps\":0,\"named\":0,\"ok\":\"stats\"}\n",
    ),
];

/// How many bytes a call takes.
const MOST: usize = 7;

/// The reads of the whole session, of which the last finds its end.
const READS: usize = 23;

/// The writes of all replies.
const WRITES: usize = 34;

/// A run of the session where these reads and these writes fail.
fn run_with(
    alloc: Global,
    reads: &[usize],
    writes: &[usize],
) -> Result<(Status, Vec<u8>), AllocError> {
    let mut lines = Vec::new(alloc);
    for (line, _) in SESSION {
        lines.extend_from_slice(line.as_bytes())?;
    }
    run_on(
        alloc,
        "replay",
        &lines,
        Calls {
            most: MOST,
            fails: reads,
        },
        Calls {
            most: MOST,
            fails: writes,
        },
    )
}

/// The replies to the lines that end within the first `taken` bytes.
fn replies_within(alloc: Global, taken: usize) -> Result<Vec<u8>, AllocError> {
    let mut end = 0usize;
    let mut replies = Vec::new(alloc);
    for (line, reply) in SESSION {
        end = end.saturating_add(line.len());
        if end <= taken {
            replies.extend_from_slice(reply.as_bytes())?;
        }
    }
    Ok(replies)
}

/// What so many writes take of the replies, each of which is written by itself.
fn front_of_replies(alloc: Global, writes: usize) -> Result<Vec<u8>, AllocError> {
    let mut left = writes;
    let mut front = Vec::new(alloc);
    for (_, reply) in SESSION {
        for part in reply.as_bytes().chunks(MOST) {
            if left > 0 {
                left -= 1;
                front.extend_from_slice(part)?;
            }
        }
    }
    Ok(front)
}

#[test]
fn each_read_fails_in_turn(rt: HostRuntime) -> Result<(), Fail> {
    let alloc = rt.alloc();
    for call in 0..READS {
        let (status, written) = run_with(alloc, &[call], &[])?;
        assert_eq!(rt; status, Status::ReadFault, "{call}");
        assert!(rt; written == replies_within(alloc, call * MOST)?, "{call}");
    }
    let (status, written) = run_with(alloc, &[READS], &[])?;
    assert_eq!(rt; status, Status::Done);
    assert!(rt; written == replies_within(alloc, READS * MOST)?);
    Ok(())
}

#[test]
fn each_write_fails_in_turn(rt: HostRuntime) -> Result<(), Fail> {
    let alloc = rt.alloc();
    for call in 0..WRITES {
        let (status, written) = run_with(alloc, &[], &[call])?;
        assert_eq!(rt; status, Status::WriteFault, "{call}");
        assert!(rt; written == front_of_replies(alloc, call)?, "{call}");
    }
    let (status, written) = run_with(alloc, &[], &[WRITES])?;
    assert_eq!(rt; status, Status::Done);
    assert!(rt; written == front_of_replies(alloc, WRITES)?);
    Ok(())
}

#[test]
fn the_first_fault_ends_the_run(rt: HostRuntime) -> Result<(), Fail> {
    let alloc = rt.alloc();
    let (status, written) = run_with(alloc, &[], &[0, 2])?;
    assert_eq!(rt; status, Status::WriteFault);
    assert!(rt; written.is_empty());
    let (status, written) = run_with(alloc, &[22], &[2, 0])?;
    assert_eq!(rt; status, Status::WriteFault);
    assert!(rt; written.is_empty());
    Ok(())
}
