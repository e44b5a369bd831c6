use super::{LineFault, LineReader};
use crate::limits::LINE_LIMIT;
use crate::memory::MemSource;
use crate::sure::SureSource;
use crate::traits::Source;
use std::test::Fail;

fn is_line(answer: &Option<Vec<u8>>, bytes: &[u8]) -> bool {
    match answer {
        Some(line) => line.as_slice() == bytes,
        None => false,
    }
}

#[test]
fn gives_lines_and_then_none(rt: HostRuntime) -> Result<(), Fail> {
    let alloc = rt.alloc();
    let mut source = SureSource::new(Vec::from_slice(alloc, b"a\n\nb")?);
    let mut reader = LineReader::new(alloc);
    assert!(rt; is_line(&reader.next(&mut source)?, b"a"));
    assert!(rt; is_line(&reader.next(&mut source)?, b""));
    assert!(rt; is_line(&reader.next(&mut source)?, b"b"));
    assert!(rt; reader.next(&mut source)?.is_none());
    assert!(rt; reader.next(&mut source)?.is_none());
    let mut empty = SureSource::new(Vec::new(alloc));
    assert!(rt; LineReader::new(alloc).next(&mut empty)?.is_none());
    Ok(())
}

#[test]
fn answers_a_fault_again(rt: HostRuntime) -> Result<(), Fail> {
    let alloc = rt.alloc();
    let bytes = Vec::from_slice(alloc, b"abc\nde\n")?;
    let mut source = MemSource::new(bytes, 1, Vec::from_slice(alloc, &[5])?);
    let mut reader = LineReader::new(alloc);
    assert!(rt; is_line(&reader.next(&mut source)?, b"abc"));
    assert_eq!(rt; reader.next(&mut source).err(), Some(LineFault::ReadFault));
    assert_eq!(rt; reader.next(&mut source).err(), Some(LineFault::ReadFault));
    // The source goes on where it failed.
    assert_eq!(rt; source.read(&mut [0; 8]), Ok(1));
    assert!(rt; is_line(&LineReader::new(alloc).next(&mut source)?, b""));
    Ok(())
}

#[test]
fn bounds_a_line(rt: HostRuntime) -> Result<(), Fail> {
    let alloc = rt.alloc();
    let mut source = SureSource::new(vec![in alloc; b'a'; LINE_LIMIT]?);
    let mut reader = LineReader::new(alloc);
    assert_eq!(rt;
        reader.next(&mut source)?.map(|line| line.len()),
        Some(LINE_LIMIT)
    );
    assert!(rt; reader.next(&mut source)?.is_none());
    let mut source = SureSource::new(vec![in alloc; b'a'; LINE_LIMIT + 1]?);
    let mut reader = LineReader::new(alloc);
    assert_eq!(rt; reader.next(&mut source).err(), Some(LineFault::TooLong));
    assert_eq!(rt; reader.next(&mut source).err(), Some(LineFault::TooLong));
    Ok(())
}
