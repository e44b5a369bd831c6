ghost use Rattle.std.specs.Prelude.{◌≡◌, ◌≤◌, ◌<◌, ◌+◌, ◌++◌, ◌⊎◌, [], true, false, None, Some, Err, length, nat_lt, is_some, IfSome, IfNone, IfOk, IfErr, OnOk, OnErr, IsErrOf, not};
ghost use Rattle.std.specs.Io.KnownBytes.{Consumes, IsAtEnd};
ghost use Rattle.io_edge.specs.Counts.{Rose};
ghost use Rattle.io_edge.specs.declared.limits.TheConstants.{INPUT_LIMIT, LINE_LIMIT, READ_LIMIT};
ghost use Rattle.io_edge.specs.Lines.{line_end, has_newline, holds_line, first_line, behind_line, line_extent, is_too_long, rest_of, AnswersFirst, TakesLine, TakesNoLine};

use crate::limits::{INPUT_LIMIT, LINE_LIMIT, READ_LIMIT};
use crate::traits::Source;
use std::alloc::Global;
use std::marker::Model;

/// Why a reader gives no more lines.
#[derive(Clone, Copy, Debug, PartialEq, Eq)]
pub enum LineFault {
    /// The source failed.
    ReadFault,
    /// A line has more bytes than a line may have, or goes on behind the greatest input.
    TooLong,
    /// There was no memory for a line or for the reader's buffer.
    NoMemory,
}

/// Where the first newline stands, or the length where there is none.
fn end_of_line(bytes: &[u8]) -> usize
    ensures end { result ≡ line_end bytes.now }
    ensures within { result ≤ length bytes.now }
{
    match bytes.iter().position(|byte| *byte == b'\n') {
        Some(at) => at,
        None => bytes.len(),
    }
}

/// The last line of an input, where it has a byte.
fn unless_empty(line: Vec<u8>) -> Option<Vec<u8>>
    ensures some { IfSome result (λ last. (last.items ≡ line.items) × (0 < length line.items)) }
    ensures none { IfNone result (line.items ≡ []) }
{
    if line.is_empty() { None } else { Some(line) }
}

/// Gives the lines of a source one by one, without their newlines.
///
/// A last line without a newline is a line where it has a byte. Give each call the same source: what
/// the reader took and has not given it keeps for the next call.
#[derive(Drop)]
pub struct LineReader {
    alloc: Global,
    // Empty until the first read.
    buffer: Vec<u8>,
    // The bytes from `at` up to `filled` were taken and not given.
    at: usize,
    filled: usize,
    passed: usize,
    ended: bool,
    fault: Option<LineFault>,
}

impl Model for LineReader {
    ghost use Rattle.std.specs.Prelude.{◌≤◌, slice_range, length};
    ghost use Rattle.io_edge.specs.declared.limits.TheConstants.{INPUT_LIMIT, READ_LIMIT};
    ghost use Rattle.io_edge.specs.Lines.{ReaderState};

    ghost Value = { ReaderState };

    ghost view = { λ s. record {
      pending = slice_range s.buffer.items s.at s.filled;
      passed = s.passed;
      ended = s.ended;
      fault = s.fault;
    } };

    ghost invariant = { λ s. (s.at ≤ s.filled) × (s.filled ≤ length s.buffer.items) × (length s.buffer.items ≤ READ_LIMIT) × (s.passed ≤ INPUT_LIMIT) };
}

impl LineReader {
    /// It stands at the start of an input.
    pub fn new(alloc: Global) -> LineReader
        ensures { result ≡ record { pending = []; passed = 0; ended = false; fault = None } }
    {
        LineReader {
            alloc,
            buffer: Vec::new(alloc),
            at: 0,
            filled: 0,
            passed: 0,
            ended: false,
            fault: None,
        }
    }

    /// The next line, or None at the end of the input.
    pub fn next<S: Source>(&mut self, source: &mut S) -> Result<Option<Vec<u8>>, LineFault>
        // Where the rest of the input is told, the answer is its first line, and None at its end.
        ensures line { IfOk result (λ line. IfSome (rest_of self.old (S.left source.old))
            (AnswersFirst self.old self.new (S.left source.new) line)) }
        ensures too_long { IfNone self.old.fault (IsErrOf result LineFault.TooLong
            → IfSome (rest_of self.old (S.left source.old)) (λ rest. is_too_long self.old.passed rest ≡ true)) }

        // Told or not, it is the first line of what was pending and what this call took.
        ensures takes { IfNone self.old.fault
            (TakesLine self.old self.new (S.left source.old) (S.left source.new) result) }

        // It reads only while what was taken and not given holds no newline and no line that is too
        // long: so no newline where the source fails, and less than one read behind a line.
        ensures waits { holds_line self.old ≡ true → source.new ≡ source.old }
        ensures no_line { IfNone self.old.fault (IsErrOf result LineFault.ReadFault
            → TakesNoLine self.old (S.left source.old) (S.left source.new)) }
        ensures few { OnOk result (length self.new.pending < READ_LIMIT) }

        // A fault is answered again ever after, and nothing more is taken.
        ensures fault { IfErr result (λ fault. self.new.fault ≡ Some fault) }
        ensures again { IfSome self.old.fault (λ fault.
            (result ≡ Err fault) × (self.new ≡ self.old) × (source.new ≡ source.old)) }

        // A source that came to its end is not read again.
        ensures ended { self.old.ended ≡ true → source.new ≡ source.old }
        ensures told { is_some (S.left source.new) ≡ is_some (S.left source.old) }
        ensures later { S.faults source.old ≤ S.faults source.new }
        ensures cause { IsErrOf result LineFault.ReadFault → (self.old.fault ≡ Some LineFault.ReadFault)
            ⊎ ((self.old.ended ≡ false) × Rose (S.faults source.old) (S.faults source.new)) }
    {
        if let Some(fault) = self.fault {
            return Err(fault);
        }
        match self.take_line(source) {
            Ok(line) => Ok(line),
            Err(fault) => {
                self.fault = Some(fault);
                Err(fault)
            }
        }
    }

    /// The next line, whatever fault was answered before. It records no fault.
    fn take_line<S: Source>(&mut self, source: &mut S) -> Result<Option<Vec<u8>>, LineFault>
        ensures takes { TakesLine self.old self.new (S.left source.old) (S.left source.new) result }
        ensures waits { holds_line self.old ≡ true → source.new ≡ source.old }
        ensures no_line { IsErrOf result LineFault.ReadFault
            → TakesNoLine self.old (S.left source.old) (S.left source.new) }
        ensures few { OnOk result (length self.new.pending < READ_LIMIT) }
        ensures ended { self.old.ended ≡ true → source.new ≡ source.old }
        ensures told { is_some (S.left source.new) ≡ is_some (S.left source.old) }
        ensures later { S.faults source.old ≤ S.faults source.new }
        ensures cause { IsErrOf result LineFault.ReadFault
            → (self.old.ended ≡ false) × Rose (S.faults source.old) (S.faults source.new) }
    {
        let mut line = Vec::new(self.alloc);
        'pieces: loop {
            match self.move_piece(&mut line) {
                Ok(false) => {}
                Ok(true) => return Ok(Some(line)),
                Err(fault) => return Err(fault),
            }
            match self.fill(source) {
                Ok(true) => {}
                Ok(false) => return Ok(unless_empty(line)),
                Err(fault) => return Err(fault),
            }
        }
    }

    /// Moves what is pending of a line to what came before of it, and says whether its newline came.
    fn move_piece(&mut self, line: &mut Vec<u8>) -> Result<bool, LineFault>
        requires { length line.old.items ≤ LINE_LIMIT }
        ensures newline { IfOk result (λ newline. newline ≡ has_newline self.old.pending) }
        ensures line { OnOk result (line.new.items ≡ line.old.items ++ first_line self.old.pending) }
        ensures state { OnOk result (self.new ≡ record self.old {
          pending = behind_line self.old.pending;
          passed = self.old.passed + line_extent self.old.pending;
        }) }
        ensures few { IfOk result (λ newline. newline ≡ true → length self.new.pending < READ_LIMIT) }
        ensures short { OnOk result (length line.old.items + line_end self.old.pending ≤ LINE_LIMIT) }
        ensures within { OnOk result (self.old.passed + line_extent self.old.pending ≤ INPUT_LIMIT) }
        ensures too_long { IsErrOf result LineFault.TooLong
            → (LINE_LIMIT < length line.old.items + line_end self.old.pending)
            ⊎ (INPUT_LIMIT < self.old.passed + line_extent self.old.pending) }
        ensures memory { ¬ IsErrOf result LineFault.ReadFault }
    {
        let piece = &self.buffer[self.at..self.filled];
        let end = end_of_line(piece);
        let newline = end < piece.len();
        let extent = (end + 1).min(piece.len());
        if LINE_LIMIT - line.len() < end || INPUT_LIMIT - self.passed < extent {
            return Err(LineFault::TooLong);
        }
        if line.extend_from_slice(&piece[..end]).is_err() {
            return Err(LineFault::NoMemory);
        }
        self.at += extent;
        self.passed += extent;
        Ok(newline)
    }

    /// Takes the next bytes of the source, if it has not ended, and says whether there are any.
    fn fill<S: Source>(&mut self, source: &mut S) -> Result<bool, LineFault>
        requires { self.old.pending ≡ [] }
        ensures bytes { Consumes (S.left source.old) (S.left source.new) self.new.pending }
        ensures more { IfOk result (λ more. more ≡ nat_lt 0 (length self.new.pending)) }
        ensures state { IfOk result (λ more. self.new ≡ record self.old {
          pending = self.new.pending;
          ended = not more;
        }) }
        ensures err { OnErr result (self.new ≡ self.old) }
        ensures at_end { IfOk result (λ more.
            more ≡ false → self.old.ended ≡ false → IsAtEnd (S.left source.new)) }
        ensures ended { self.old.ended ≡ true → (self.new ≡ self.old) × (source.new ≡ source.old) }
        ensures told { is_some (S.left source.new) ≡ is_some (S.left source.old) }
        ensures later { S.faults source.old ≤ S.faults source.new }
        ensures cause { IsErrOf result LineFault.ReadFault
            → (self.old.ended ≡ false) × Rose (S.faults source.old) (S.faults source.new) }
        ensures memory { ¬ IsErrOf result LineFault.TooLong }
    {
        if self.ended {
            return Ok(false);
        }
        if self.buffer.is_empty() && self.buffer.resize(READ_LIMIT, 0).is_err() {
            return Err(LineFault::NoMemory);
        }
        self.at = 0;
        self.filled = 0;
        match source.read(&mut self.buffer) {
            Ok(0) => {
                self.ended = true;
                Ok(false)
            }
            Ok(count) => {
                self.filled = count;
                Ok(true)
            }
            Err(_) => Err(LineFault::ReadFault),
        }
    }
}

#[cfg(test)]
mod tests;
