ghost use Rattle.std.specs.Prelude.{◌≡◌, ◌↔◌, ◌≤◌, ◌<◌, ◌++◌, [], Some, min, drop, take, length};
ghost use Rattle.std.specs.Prelude.{IsErr, OnErr, IfOk, IsErrOf, Contains};
ghost use Rattle.std.specs.Io.{ReadsAtMost, WritesAtMost};
ghost use Rattle.std.specs.Io.KnownBytes.{ReadConsumes, WriteAppends};
ghost use Rattle.io_edge.specs.Counts.{Rose, raised};
ghost use Rattle.io_edge.specs.Memory.{next_call};

use crate::script::Script;
use crate::sure::{SureSink, SureSource};
use crate::traits::{Failed, Sink, SinkFault, Source};
use std::alloc::Global;
use std::marker::Model;

/// Bytes in memory, which come a few at a time and with faults at chosen calls.
#[derive(Drop)]
pub struct MemSource {
    source: SureSource,
    most: usize,
    script: Script,
}

impl Model for MemSource {
    ghost use Rattle.std.specs.Prelude.{◌<◌};
    ghost use Rattle.io_edge.specs.Memory.{SourceState};

    ghost Value = { SourceState };

    ghost view = { λ s. record {
      left = s.source;
      most = s.most;
      failing = s.script.failing.items;
      calls = s.script.calls;
      faults = s.script.faults;
    } };

    ghost invariant = { λ s. 0 < s.most };
}

impl MemSource {
    /// At most `most` bytes come in a call. The calls whose numbers are in `failing` fail, counted
    /// from 0.
    pub fn new(bytes: Vec<u8>, most: usize, failing: Vec<usize>) -> MemSource
        requires { 0 < most }
        ensures { result ≡ record {
          left = bytes.items;
          most = most;
          failing = failing.items;
          calls = 0;
          faults = 0;
        } }
    {
        MemSource {
            source: SureSource::new(bytes),
            most,
            script: Script::new(failing),
        }
    }
}

impl Source for MemSource {
    ghost left = { λ s. Some s.left };

    ghost faults = { λ s. s.faults };

    fn read(&mut self, into: &mut [u8]) -> Result<usize, Failed>
        ensures bound { ReadsAtMost result into.new }
        ensures bytes { ReadConsumes (Some self.old.left) (Some self.new.left) result into.new }
        ensures later { self.old.faults ≤ self.new.faults }
        ensures cause { OnErr result (Rose self.old.faults self.new.faults) }

        // It fails exactly at the chosen calls, and else takes as many bytes as there are and fit.
        ensures fails { IsErr result ↔ Contains self.old.failing self.old.calls }
        ensures takes { IfOk result
            (λ n. n ≡ min (min (length into.new) (length self.old.left)) self.old.most) }
        ensures ok { IfOk result (λ n. self.new ≡ record self.old {
          left = drop n self.old.left;
          calls = next_call self.old.calls;
        }) }
        ensures err { OnErr result (self.new ≡ record self.old {
          calls = next_call self.old.calls;
          faults = raised self.old.faults;
        }) }
    {
        if self.script.fails() {
            return Err(Failed);
        }
        let room = into.len().min(self.most);
        self.source.read(&mut into[..room])
    }
}

/// Memory that takes a few bytes at a time, with faults at chosen calls.
#[derive(Drop)]
pub struct MemSink {
    sink: SureSink,
    most: usize,
    script: Script,
}

impl Model for MemSink {
    ghost use Rattle.std.specs.Prelude.{◌<◌};
    ghost use Rattle.io_edge.specs.Memory.{SinkState};

    ghost Value = { SinkState };

    ghost view = { λ s. record {
      written = s.sink;
      most = s.most;
      failing = s.script.failing.items;
      calls = s.script.calls;
      faults = s.script.faults;
    } };

    ghost invariant = { λ s. 0 < s.most };
}

impl MemSink {
    /// A call takes at most `most` bytes. The calls whose numbers are in `failing` fail, counted
    /// from 0.
    pub fn new(alloc: Global, most: usize, failing: Vec<usize>) -> MemSink
        requires { 0 < most }
        ensures { result ≡ record {
          written = [];
          most = most;
          failing = failing.items;
          calls = 0;
          faults = 0;
        } }
    {
        MemSink {
            sink: SureSink::new(alloc),
            most,
            script: Script::new(failing),
        }
    }

    /// The bytes written so far.
    pub fn written(&self) -> &[u8]
        ensures { result.now ≡ self.now.written }
    {
        self.sink.written()
    }
}

impl Sink for MemSink {
    ghost written = { λ s. Some s.written };

    ghost faults = { λ s. s.faults };

    /// A call that finds no memory counts as a call, and is no fault.
    fn write(&mut self, piece: &[u8]) -> Result<usize, SinkFault>
        ensures bound { WritesAtMost result piece.now }
        ensures goes_on { IfOk result (λ n. 0 < length piece.now → 0 < n) }
        ensures bytes { WriteAppends (Some self.old.written) (Some self.new.written) result piece.now }
        ensures later { self.old.faults ≤ self.new.faults }
        ensures cause { IsErrOf result SinkFault.Failed → Rose self.old.faults self.new.faults }

        // It fails exactly at the chosen calls, and else takes as many bytes as there are, or finds
        // no memory for them.
        ensures fails { IsErrOf result SinkFault.Failed ↔ Contains self.old.failing self.old.calls }
        ensures takes { IfOk result (λ n. n ≡ min (length piece.now) self.old.most) }
        ensures ok { IfOk result (λ n. self.new ≡ record self.old {
          written = self.old.written ++ take n piece.now;
          calls = next_call self.old.calls;
        }) }
        ensures failed { IsErrOf result SinkFault.Failed → self.new ≡ record self.old {
          calls = next_call self.old.calls;
          faults = raised self.old.faults;
        } }
        ensures no_memory { IsErrOf result SinkFault.NoMemory
            → self.new ≡ record self.old { calls = next_call self.old.calls } }
    {
        if self.script.fails() {
            return Err(SinkFault::Failed);
        }
        let count = piece.len().min(self.most);
        self.sink.write(&piece[..count])
    }
}
