use session_undo::{NothingToRedo, NothingToUndo, Session};
use std::alloc::{AllocError, Global};
use std::test::Fail;
use workspace_json::{read_command, reply_text};
use workspace_lists::Stats;

/// A command, and the reply to it.
pub(crate) type Step = (&'static str, &'static str);

/// Point x, loop f of x, the identity of f, the end of f, two cells between loops, and refusals in between.
const CHANGES: [Step; 14] = [
    (
        "{\"do\":\"generator\",\"name\":\"x\"}",
        "{\"dim\":0,\"name\":\"x\",\"number\":0,\"ok\":\"generator\"}",
    ),
    (
        "{\"do\":\"generator\",\"name\":\"f\",\"source\":\"x\",\"target\":\"x\"}",
        "{\"dim\":1,\"name\":\"f\",\"number\":1,\"ok\":\"generator\"}",
    ),
    (
        "{\"do\":\"generator\",\"name\":\"g\",\"source\":\"x\",\"target\":\"f\"}",
        "{\"refused\":\"DimDiffers\"}",
    ),
    (
        "{\"do\":\"generator\",\"name\":\"g\",\"source\":\"x\",\"target\":\"h\"}",
        "{\"name\":\"h\",\"refused\":\"Unknown\"}",
    ),
    (
        "{\"do\":\"generator\",\"name\":\"f\",\"source\":\"x\",\"target\":\"h\"}",
        "{\"refused\":\"NameTaken\"}",
    ),
    (
        "{\"do\":\"identity\",\"name\":\"loop\",\"of\":\"f\"}",
        "{\"dim\":2,\"length\":0,\"name\":\"loop\",\"ok\":\"identity\"}",
    ),
    (
        "{\"do\":\"boundary\",\"name\":\"end\",\"of\":\"f\",\"side\":\"target\"}",
        "{\"dim\":0,\"length\":0,\"name\":\"end\",\"ok\":\"boundary\"}",
    ),
    (
        "{\"do\":\"boundary\",\"name\":\"no\",\"of\":\"x\",\"side\":\"source\"}",
        "{\"refused\":\"NoHeight\",\"step\":0}",
    ),
    (
        "{\"do\":\"generator\",\"name\":\"a\",\"source\":\"f\",\"target\":\"f\"}",
        "{\"dim\":2,\"name\":\"a\",\"number\":2,\"ok\":\"generator\"}",
    ),
    (
        "{\"do\":\"equal\",\"one\":\"end\",\"two\":\"x\"}",
        "{\"ok\":\"equal\",\"value\":true}",
    ),
    (
        "{\"do\":\"drop\",\"name\":\"a\"}",
        "{\"name\":\"a\",\"refused\":\"Unknown\"}",
    ),
    (
        "{\"do\":\"drop\",\"name\":\"end\"}",
        "{\"name\":\"end\",\"ok\":\"drop\"}",
    ),
    ("{\"do\":\"redo\"}", "{\"refused\":\"NothingToRedo\"}"),
    (
        "{\"do\":\"stats\"}",
        "{\"arrows\":1,\"diagrams\":4,\"generators\":3,\"maps\":0,\"named\":1,\"ok\":\"stats\"}",
    ),
];

/// A command that makes a point.
const POINT: Step = (
    "{\"do\":\"generator\",\"name\":\"y\"}",
    "{\"dim\":0,\"name\":\"y\",\"number\":0,\"ok\":\"generator\"}",
);

/// What is answered over a new session. A function that has a session of its own is dear to prove, so
/// this is the only one.
pub(crate) fn over_new_session<R, F: FnOnce(&mut Session) -> R>(alloc: Global, answer: F) -> R
    requires { F.IsAlwaysCallable answer }
{
    let mut session = Session::new(alloc);
    answer(&mut session)
}

/// The text of the reply to a command.
fn reply_to(alloc: Global, session: &mut Session, command: &str) -> Result<Vec<u8>, Fail> {
    let command = read_command(alloc, command.as_bytes())?;
    let reply = session.apply(&command)?;
    Ok(reply_text(alloc, &reply)?)
}

/// The place of the first of these steps whose reply is another one.
pub(crate) fn first_other(
    alloc: Global,
    session: &mut Session,
    steps: &[Step],
) -> Result<Option<usize>, Fail> {
    for (place, (command, want)) in steps.iter().enumerate() {
        let reply = reply_to(alloc, session, command)?;
        if reply.as_slice() != want.as_bytes() {
            return Ok(Some(place));
        }
    }
    Ok(None)
}

/// What is read of a session.
#[derive(Clone, Copy)]
struct Read {
    loop_and_f: Option<bool>,
    loop_and_itself: Option<bool>,
    loop_and_end: Option<bool>,
    counts: Stats,
    generators: usize,
    diagrams: usize,
}

fn read_of(session: &Session) -> Result<Read, AllocError> {
    Ok(Read {
        loop_and_f: session.equal("loop", "f"),
        loop_and_itself: session.equal("loop", "loop"),
        loop_and_end: session.equal("loop", "end"),
        counts: session.stats()?,
        generators: session.workspace().generators.len(),
        diagrams: session.workspace().diagrams.len(),
    })
}

/// Which change was answered otherwise, and what is read after the changes.
fn read_changed(alloc: Global, session: &mut Session) -> Result<(Option<usize>, Read), Fail> {
    let other = first_other(alloc, session, &CHANGES)?;
    Ok((other, read_of(session)?))
}

#[test]
fn changes_and_reads(rt: HostRuntime) -> Result<(), Fail> {
    let alloc = rt.alloc();
    let (other, read) = over_new_session(alloc, |session| read_changed(alloc, session))?;
    assert_eq!(rt; other, None);
    assert_eq!(rt; read.loop_and_f, Some(false));
    assert_eq!(rt; read.loop_and_itself, Some(true));
    assert_eq!(rt; read.loop_and_end, None);
    let counts = Stats {
        generators: 3,
        named: 1,
        maps: 0,
        diagrams: 4,
        arrows: 1,
    };
    assert_eq!(rt; read.counts, counts);
    assert_eq!(rt; read.generators, 3);
    assert_eq!(rt; read.diagrams, 1);
    Ok(())
}

/// What is answered while two changes are undone and one is redone.
#[derive(Clone, Copy)]
struct Turns {
    too_early: Result<(), NothingToRedo>,
    first: Result<(), NothingToUndo>,
    end_and_point: Option<bool>,
    second: Result<(), NothingToUndo>,
    undone_cell: Option<bool>,
    again: Result<(), NothingToRedo>,
    redone_cell: Option<bool>,
}

fn turn(session: &mut Session) -> Turns {
    let too_early = session.redo();
    let first = session.undo();
    let end_and_point = session.equal("end", "x");
    let second = session.undo();
    let undone_cell = session.equal("a", "a");
    let again = session.redo();
    let redone_cell = session.equal("a", "a");
    Turns {
        too_early,
        first,
        end_and_point,
        second,
        undone_cell,
        again,
        redone_cell,
    }
}

/// Whether each of six undos took a change back.
fn undo_six_times(alloc: Global, session: &mut Session) -> Result<Vec<bool>, AllocError> {
    let mut taken_back = Vec::new(alloc);
    for _ in 0..6 {
        taken_back.push(session.undo().is_ok())?;
    }
    Ok(taken_back)
}

/// What is left when everything is undone, and what is answered to a point then and to a redo after it.
#[derive(Drop)]
struct Anew {
    taken_back: Vec<bool>,
    generators: usize,
    reply: Vec<u8>,
    redone: Result<(), NothingToRedo>,
}

fn begin_anew(alloc: Global, session: &mut Session) -> Result<Anew, Fail> {
    let taken_back = undo_six_times(alloc, session)?;
    let generators = session.workspace().generators.len();
    let reply = reply_to(alloc, session, POINT.0)?;
    let redone = session.redo();
    Ok(Anew {
        taken_back,
        generators,
        reply,
        redone,
    })
}

/// Which change was answered otherwise, and what is answered to turns after the changes.
fn turn_changed(
    alloc: Global,
    session: &mut Session,
) -> Result<(Option<usize>, Turns, Anew), Fail> {
    let other = first_other(alloc, session, &CHANGES)?;
    let turns = turn(session);
    Ok((other, turns, begin_anew(alloc, session)?))
}

#[test]
fn undoes_and_redoes(rt: HostRuntime) -> Result<(), Fail> {
    let alloc = rt.alloc();
    let (other, turns, anew) = over_new_session(alloc, |session| turn_changed(alloc, session))?;
    assert_eq!(rt; other, None);
    assert_eq!(rt; turns.too_early, Err(NothingToRedo));
    assert_eq!(rt; turns.first, Ok(()));
    assert_eq!(rt; turns.end_and_point, Some(true));
    assert_eq!(rt; turns.second, Ok(()));
    assert_eq!(rt; turns.undone_cell, None);
    assert_eq!(rt; turns.again, Ok(()));
    assert_eq!(rt; turns.redone_cell, Some(true));
    assert_eq!(rt;
        anew.taken_back.as_slice(),
        [true, true, true, true, true, false].as_slice()
    );
    assert_eq!(rt; anew.generators, 0);
    assert!(rt; anew.reply.as_slice() == POINT.1.as_bytes());
    assert_eq!(rt; anew.redone, Err(NothingToRedo));
    Ok(())
}

/// The text of the reply to a command, which is applied once more where the first time found no
/// memory.
fn reply_at_last(alloc: Global, session: &mut Session, command: &str) -> Result<Vec<u8>, Fail> {
    let command = read_command(alloc, command.as_bytes())?;
    let reply = match session.apply(&command) {
        Ok(reply) => reply,
        Err(_) => session.apply(&command)?,
    };
    Ok(reply_text(alloc, &reply)?)
}

#[test]
fn apply_again(rt: HostRuntime) -> Result<(), Fail> {
    let alloc = rt.alloc();
    let (command, usual) = CHANGES[0];
    let reply = over_new_session(alloc, |session| reply_at_last(alloc, session, command))?;
    assert!(rt; reply.as_slice() == usual.as_bytes());
    Ok(())
}
