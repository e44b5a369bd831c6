ghost use Rattle.std.specs.Prelude.{◌≡◌, ◌<◌, ◌≤◌, List, ℕ, Option, is_some, length, IfOk, OnErr, IsErrOf};
ghost use Rattle.std.specs.Io.{ReadsAtMost, WritesAtMost};
ghost use Rattle.std.specs.Io.KnownBytes.{ReadConsumes, WriteAppends};
ghost use Rattle.io_edge.specs.Counts.{Rose};

/// A read that the outside refused.
#[derive(Clone, Copy, Debug, PartialEq, Eq)]
pub struct Failed;

/// Why a write took nothing.
#[derive(Clone, Copy, Debug, PartialEq, Eq)]
pub enum SinkFault {
    /// The outside refused it.
    Failed,
    /// The sink keeps its bytes in memory and found no room.
    NoMemory,
}

/// Where bytes come from.
pub trait Source {
    /// The bytes still to come, where they are told.
    ghost left: { Self → Option (List ℕ) };

    /// How often it has failed.
    ghost faults: { Self → ℕ };

    /// Reads some bytes into the front of `into` and says how many. `Ok(0)` into a buffer that has
    /// room is the end of the input.
    fn read(&mut self, into: &mut [u8]) -> Result<usize, Failed>
        ensures bound { ReadsAtMost result into.new }
        ensures bytes { ReadConsumes (left self.old) (left self.new) result into.new }
        ensures told { is_some (left self.new) ≡ is_some (left self.old) }
        ensures later { faults self.old ≤ faults self.new }
        ensures cause { OnErr result (Rose (faults self.old) (faults self.new)) };
}

/// Where bytes go.
pub trait Sink {
    /// The bytes written so far, where they are told.
    ghost written: { Self → Option (List ℕ) };

    /// How often it has failed.
    ghost faults: { Self → ℕ };

    /// Writes some bytes from the front of `piece` and says how many, at least one where there is
    /// one.
    fn write(&mut self, piece: &[u8]) -> Result<usize, SinkFault>
        ensures bound { WritesAtMost result piece.now }
        ensures goes_on { IfOk result (λ n. 0 < length piece.now → 0 < n) }
        ensures bytes { WriteAppends (written self.old) (written self.new) result piece.now }
        ensures told { is_some (written self.new) ≡ is_some (written self.old) }
        ensures later { faults self.old ≤ faults self.new }
        ensures cause { IsErrOf result SinkFault.Failed → Rose (faults self.old) (faults self.new) };
}
