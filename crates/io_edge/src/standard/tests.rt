ghost use Rattle.std.specs.Prelude.{◌≤◌, IfOk};

use super::{StdSink, read_counted, write_counted};
use crate::traits::{Failed, Sink, SinkFault};
use crate::whole::write_all;
use std::io;
use std::io::{ErrorKind, Read, Write};

// It is interrupted at its first call, moves two bytes at the next, then none, and then fails.
#[derive(Drop)]
struct Unruly {
    calls: u8,
}

impl Unruly {
    fn answer(&mut self, most: usize) -> io::Result<usize>
        ensures { IfOk result (λ n. n ≤ most) }
    {
        self.calls = self.calls.saturating_add(1);
        match self.calls {
            1 => Err(io::Error::from(ErrorKind::Interrupted)),
            2 => Ok(most.min(2)),
            3 => Ok(0),
            _ => Err(io::Error::from(ErrorKind::BrokenPipe)),
        }
    }
}

impl Read for Unruly {
    fn read(&mut self, buf: &mut [u8]) -> io::Result<usize> {
        self.answer(buf.len())
    }
}

impl Write for Unruly {
    fn write(&mut self, buf: &[u8]) -> io::Result<usize> {
        self.answer(buf.len())
    }

    fn flush(&mut self) -> io::Result<()> {
        Ok(())
    }
}

#[test]
fn counts_what_fails(rt: HostRuntime) {
    let mut input = Unruly { calls: 0 };
    let mut faults = 0;
    let mut into = [0; 3];
    assert_eq!(rt; read_counted(&mut input, &mut faults, &mut into), Ok(2));
    assert_eq!(rt; read_counted(&mut input, &mut faults, &mut into), Ok(0));
    assert_eq!(rt; faults, 0);
    assert_eq!(rt;
        read_counted(&mut input, &mut faults, &mut into),
        Err(Failed)
    );
    assert_eq!(rt; faults, 1);
    let mut output = Unruly { calls: 0 };
    assert_eq!(rt; write_counted(&mut output, &mut faults, b"abc"), Ok(2));
    assert_eq!(rt; faults, 1);
    let refused = Err(SinkFault::Failed);
    assert_eq!(rt; write_counted(&mut output, &mut faults, b"c"), refused);
    assert_eq!(rt; write_counted(&mut output, &mut faults, b"c"), refused);
    assert_eq!(rt; faults, 3);
}

#[test]
fn writes_to_standard_output(rt: HostRuntime) {
    let mut sink = StdSink::new(rt.stdout());
    assert_eq!(rt; sink.write(b""), Ok(0));
    assert_eq!(rt; write_all(&mut sink, b"io_edge\n"), Ok(()));
}
