ghost use Rattle.std.specs.Prelude.{◌≡◌, ◌<◌, ◌≤◌, is_some, OnOk, OnErr, IsErrOf};
ghost use Rattle.std.specs.Io.KnownBytes.{Appends};
ghost use Rattle.io_edge.specs.declared.whole.WriteAllFault.TheVariants.{NoMemory};
ghost use Rattle.io_edge.specs.Counts.{Rose};
ghost use Rattle.io_edge.specs.Transfers.{TakesUpTo, AppendsPrefix, AppendsLess};

use crate::limits::READ_LIMIT;
use crate::traits::{Sink, SinkFault, Source};
use std::alloc::{AllocError, AllocFailed, Global};

/// Why `read_all` gave up.
#[derive(Clone, Copy, Debug, PartialEq, Eq)]
pub enum ReadAllFault {
    /// The source failed.
    ReadFault,
    /// There is more than the limit.
    TooLong,
    /// There was no memory for the bytes.
    NoMemory,
}

/// Why `write_all` gave up.
#[derive(Clone, Copy, Debug, PartialEq, Eq)]
pub enum WriteAllFault {
    /// The sink failed.
    WriteFault,
    /// The sink found no memory.
    NoMemory,
}

impl From<AllocError> for WriteAllFault {
    ghost from_gives = { λ _ fault. fault ≡ NoMemory };

    fn from(_error: AllocError) -> WriteAllFault {
        WriteAllFault::NoMemory
    }
}

impl<T: Drop> From<AllocFailed<T>> for WriteAllFault {
    ghost from_gives = { λ _ fault. fault ≡ NoMemory };

    fn from(_error: AllocFailed<T>) -> WriteAllFault {
        WriteAllFault::NoMemory
    }
}

/// All bytes up to the end of the input, if they are at most `limit`.
///
/// After an error the source stands behind the bytes that were taken.
pub fn read_all<S: Source>(
    alloc: Global,
    source: &mut S,
    limit: usize,
) -> Result<Vec<u8>, ReadAllFault>
    requires { limit < usize.MAX }
    ensures bytes { TakesUpTo limit (S.left source.old) (S.left source.new) result }
    ensures told { is_some (S.left source.new) ≡ is_some (S.left source.old) }
    ensures later { S.faults source.old ≤ S.faults source.new }
    ensures cause { IsErrOf result ReadAllFault.ReadFault
        → Rose (S.faults source.old) (S.faults source.new) }
{
    let mut bytes = Vec::new(alloc);
    let mut chunk = [0u8; READ_LIMIT];
    'reads: loop {
        // One byte past the limit shows that there is more.
        let room = (limit + 1 - bytes.len()).min(READ_LIMIT);
        let count = match source.read(&mut chunk[..room]) {
            Ok(0) => return Ok(bytes),
            Ok(count) => count,
            Err(_) => return Err(ReadAllFault::ReadFault),
        };
        if limit - bytes.len() < count {
            return Err(ReadAllFault::TooLong);
        }
        if bytes.extend_from_slice(&chunk[..count]).is_err() {
            return Err(ReadAllFault::NoMemory);
        }
    }
}

/// Writes the whole piece, in as many writes as the sink needs.
pub fn write_all<K: Sink>(sink: &mut K, piece: &[u8]) -> Result<(), WriteAllFault>
    ensures ok { OnOk result (Appends (K.written sink.old) (K.written sink.new) piece.now) }
    ensures err { OnErr result (AppendsPrefix (K.written sink.old) (K.written sink.new) piece.now) }
    ensures less { IsErrOf result WriteAllFault.WriteFault
        → AppendsLess (K.written sink.old) (K.written sink.new) piece.now }
    ensures told { is_some (K.written sink.new) ≡ is_some (K.written sink.old) }
    ensures later { K.faults sink.old ≤ K.faults sink.new }
    ensures cause { IsErrOf result WriteAllFault.WriteFault
        → Rose (K.faults sink.old) (K.faults sink.new) }
{
    let mut at = 0;
    'writes: while at < piece.len() {
        match sink.write(&piece[at..]) {
            Ok(count) => at += count,
            Err(SinkFault::Failed) => return Err(WriteAllFault::WriteFault),
            Err(SinkFault::NoMemory) => return Err(WriteAllFault::NoMemory),
        }
    }
    Ok(())
}
