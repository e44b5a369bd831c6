use crate::{
    Failed, MemSink, MemSource, ReadAllFault, Sink, SinkFault, Source, SureSink, SureSource,
    WriteAllFault, read_all, write_all,
};
use std::test::Fail;

const TEXT: &[u8] = b"the quick brown fox jumps over the lazy dog, and over another one";

#[test]
fn copies(rt: HostRuntime) -> Result<(), Fail> {
    let alloc = rt.alloc();
    let mut source = SureSource::new(Vec::from_slice(alloc, TEXT)?);
    let bytes = read_all(alloc, &mut source, TEXT.len())?;
    let mut sink = SureSink::new(alloc);
    write_all(&mut sink, &bytes)?;
    assert!(rt; sink.written() == TEXT);
    let mut source = SureSource::new(bytes);
    let answer = read_all(alloc, &mut source, TEXT.len() - 1);
    assert_eq!(rt; answer.err(), Some(ReadAllFault::TooLong));
    Ok(())
}

#[test]
fn source_fails_and_goes_on(rt: HostRuntime) -> Result<(), Fail> {
    let alloc = rt.alloc();
    let bytes = Vec::from_slice(alloc, TEXT)?;
    let mut source = MemSource::new(bytes, 3, Vec::from_slice(alloc, &[0, 2])?);
    assert_eq!(rt;
        read_all(alloc, &mut source, 100).err(),
        Some(ReadAllFault::ReadFault)
    );
    let mut buffer = [0; 8];
    assert_eq!(rt; source.read(&mut buffer), Ok(3));
    assert!(rt; &buffer[..3] == b"the".as_slice());
    assert_eq!(rt; source.read(&mut buffer), Err(Failed));
    let rest = read_all(alloc, &mut source, 100)?;
    assert!(rt; rest.as_slice() == &TEXT[3..]);
    Ok(())
}

#[test]
fn sink_fails_at_its_call(rt: HostRuntime) -> Result<(), Fail> {
    let alloc = rt.alloc();
    let mut sink = MemSink::new(alloc, 16, Vec::from_slice(alloc, &[5])?);
    write_all(&mut sink, &TEXT[..49])?;
    assert_eq!(rt; sink.write(&TEXT[49..]), Ok(16));
    assert_eq!(rt;
        write_all(&mut sink, b"more"),
        Err(WriteAllFault::WriteFault)
    );
    assert!(rt; sink.written() == TEXT);
    assert_eq!(rt; sink.write(b"more"), Ok(4));
    Ok(())
}
