ghost use Rattle.std.specs.Prelude.{◌≡◌, ◌≢◌, ◌≤◌, ◌<◌, None, length, OnOk, OnErr, IfOk, IfErr, IsErrOf};
ghost use Rattle.std.specs.Io.{ReadsAtMost, WritesAtMost};
ghost use Rattle.std.specs.Io.KnownBytes.{ReadConsumes, WriteAppends};
ghost use Rattle.std.specs.IoError.{error_kind};
ghost use Rattle.io_edge.specs.Counts.{raised};

use crate::traits::{Failed, Sink, SinkFault, Source};
use std::io;
use std::io::{ErrorKind, Read, Stdin, Stdout, Write};
use std::marker::Model;

/// Standard input. It does not tell its bytes; contracts see how often it has failed.
///
/// A read that a signal interrupts is tried again, and is no fault.
#[derive(Drop)]
pub struct StdSource {
    input: Stdin,
    faults: u64,
}

impl Model for StdSource {
    ghost use Rattle.std.specs.Prelude.{ℕ};

    ghost Value = { ℕ };

    ghost view = { λ s. s.faults };
}

impl StdSource {
    /// It has not failed yet.
    pub fn new(input: Stdin) -> StdSource
        ensures { result ≡ 0 }
    {
        StdSource { input, faults: 0 }
    }
}

impl Source for StdSource {
    ghost left = { λ _. None };

    ghost faults = { λ s. s };

    fn read(&mut self, into: &mut [u8]) -> Result<usize, Failed>
        ensures bound { ReadsAtMost result into.new }
        ensures later { self.old ≤ self.new }
        ensures ok { OnOk result (self.new ≡ self.old) }
        ensures err { OnErr result (self.new ≡ raised self.old) }
    {
        read_counted(&mut self.input, &mut self.faults, into)
    }
}

/// Standard output. It does not tell its bytes; contracts see how often it has failed.
///
/// It keeps no buffer: the bytes that it took were handed to the system. A write that a signal
/// interrupts before it took any is tried again, and is no fault.
#[derive(Drop)]
pub struct StdSink {
    output: Stdout,
    faults: u64,
}

impl Model for StdSink {
    ghost use Rattle.std.specs.Prelude.{ℕ};

    ghost Value = { ℕ };

    ghost view = { λ s. s.faults };
}

impl StdSink {
    /// It has not failed yet.
    pub fn new(output: Stdout) -> StdSink
        ensures { result ≡ 0 }
    {
        StdSink { output, faults: 0 }
    }
}

impl Sink for StdSink {
    ghost written = { λ _. None };

    ghost faults = { λ s. s };

    fn write(&mut self, piece: &[u8]) -> Result<usize, SinkFault>
        ensures bound { WritesAtMost result piece.now }
        ensures goes_on { IfOk result (λ n. 0 < length piece.now → 0 < n) }
        ensures later { self.old ≤ self.new }
        ensures ok { OnOk result (self.new ≡ self.old) }
        ensures err { OnErr result (self.new ≡ raised self.old) }
        ensures no_memory { ¬ IsErrOf result SinkFault.NoMemory }
    {
        write_counted(&mut self.output, &mut self.faults, piece)
    }
}

/// One read, which counts its failure.
fn read_counted<R: Read>(input: &mut R, faults: &mut u64, into: &mut [u8]) -> Result<usize, Failed>
    ensures bound { ReadsAtMost result into.new }
    ensures bytes { ReadConsumes (R.remaining input.old) (R.remaining input.new) result into.new }
    ensures later { faults.old ≤ faults.new }
    ensures ok { OnOk result (faults.new ≡ faults.old) }
    ensures err { OnErr result (faults.new ≡ raised faults.old) }
{
    match read_retrying(input, into) {
        Ok(count) => Ok(count),
        Err(_) => {
            *faults = faults.saturating_add(1);
            Err(Failed)
        }
    }
}

/// One write, which counts its failure. To take nothing of a piece that has bytes is one.
fn write_counted<W: Write>(
    output: &mut W,
    faults: &mut u64,
    piece: &[u8],
) -> Result<usize, SinkFault>
    ensures bound { WritesAtMost result piece.now }
    ensures goes_on { IfOk result (λ n. 0 < length piece.now → 0 < n) }
    ensures bytes { WriteAppends (W.contents output.old) (W.contents output.new) result piece.now }
    ensures later { faults.old ≤ faults.new }
    ensures ok { OnOk result (faults.new ≡ faults.old) }
    ensures err { OnErr result (faults.new ≡ raised faults.old) }
    ensures no_memory { ¬ IsErrOf result SinkFault.NoMemory }
{
    match write_retrying(output, piece) {
        Ok(count) if count > 0 || piece.is_empty() => Ok(count),
        _ => {
            *faults = faults.saturating_add(1);
            Err(SinkFault::Failed)
        }
    }
}

/// One read, tried again where a signal interrupts it.
fn read_retrying<R: Read>(input: &mut R, into: &mut [u8]) -> io::Result<usize>
    ensures bound { ReadsAtMost result into.new }
    ensures bytes { ReadConsumes (R.remaining input.old) (R.remaining input.new) result into.new }
    ensures retried { IfErr result (λ e. error_kind e ≢ ErrorKind.Interrupted) }
{
    for _ in 0..u64::MAX {
        match input.read(into) {
            Err(error) if error.kind() == ErrorKind::Interrupted => {}
            answer => return answer,
        }
    }
    Err(io::Error::from(ErrorKind::TimedOut))
}

/// One write, tried again where a signal interrupts it.
fn write_retrying<W: Write>(output: &mut W, piece: &[u8]) -> io::Result<usize>
    ensures bound { WritesAtMost result piece.now }
    ensures bytes { WriteAppends (W.contents output.old) (W.contents output.new) result piece.now }
    ensures retried { IfErr result (λ e. error_kind e ≢ ErrorKind.Interrupted) }
{
    for _ in 0..u64::MAX {
        match output.write(piece) {
            Err(error) if error.kind() == ErrorKind::Interrupted => {}
            answer => return answer,
        }
    }
    Err(io::Error::from(ErrorKind::TimedOut))
}

#[cfg(test)]
mod tests;
