ghost use Rattle.std.specs.Prelude.{◌≡◌, ◌≢◌, ◌≤◌, ◌↔◌, List, ℕ, IfSome, IsSome, None, map, string_bytes};
ghost use Rattle.std.specs.Io.KnownBytes.{Keeps};
ghost use Rattle.io_edge.specs.Counts.{Rose};
ghost use Rattle.hom_run.specs.Full.{full, mode_of, on_input, Writes, Reads};
ghost use Rattle.hom_run.specs.Modes.{mode_in, question_in};
ghost use Rattle.hom_run.specs.Taken.{AfterReadFault, AfterWriteFault};

use crate::answer::answer;
use crate::replay::replay;
use crate::status::Status;
use crate::words::{Asked, Query, asked_of};
use io_edge::{INPUT_LIMIT, ReadAllFault, Sink, Source, read_all};
use std::alloc::Global;

/// What a document says to a query, with the bytes of this input as the document.
fn ask<S: Source, K: Sink>(alloc: Global, query: Query, input: &mut S, output: &mut K) -> Status
    requires { IsSome (question_in query) }
    ensures writes { (bytes : List ℕ) × IfSome (S.left input.old) (λ left. bytes ≡ left)
        × Writes (on_input (mode_in (Asked.Document query.entry)) bytes) result (K.written output.old) (K.written output.new) }
    ensures reads { Reads (mode_in (Asked.Document query.entry)) result (S.left input.old) (S.left input.new) }
    ensures nothing { result ≡ Status.ReadFault → Keeps (K.written output.old) (K.written output.new) }
    ensures read_fault { result ≡ Status.ReadFault → Rose (S.faults input.old) (S.faults input.new) }
    ensures write_fault { result ≡ Status.WriteFault → Rose (K.faults output.old) (K.faults output.new) }
    ensures later { (S.faults input.old ≤ S.faults input.new) × (K.faults output.old ≤ K.faults output.new) }
    ensures others { result ≢ Status.Usage }
{
    match read_all(alloc, input, INPUT_LIMIT) {
        Ok(bytes) => answer(alloc, query, &bytes, output),
        Err(ReadAllFault::ReadFault) => Status::ReadFault,
        Err(ReadAllFault::TooLong) => Status::TooLong,
        Err(ReadAllFault::NoMemory) => Status::NoMemory,
    }
}

/// All that the program does on these words, but for the program's name, with this input and output.
pub fn run<S: Source, K: Sink>(
    alloc: Global,
    words: &[String],
    input: &mut S,
    output: &mut K,
) -> Status
    // For some input, which is what was left where the source tells it, the text written and the
    // status are those of the full run, or what is left of them where the run stops short.
    ensures writes { (bytes : List ℕ) × IfSome (S.left input.old) (λ left. bytes ≡ left)
        × Writes (full (map string_bytes words.now) bytes) result (K.written output.old) (K.written output.new) }
    ensures reads { Reads (mode_of (map string_bytes words.now)) result (S.left input.old) (S.left input.new) }

    // Where reading fails, the answers to the lines of a session that were taken whole were written,
    // and nothing else, and to a document nothing. Where writing fails, little of a session was taken
    // behind the line whose answer is the first that was not written whole.
    ensures after_read_fault { result ≡ Status.ReadFault → AfterReadFault (mode_of (map string_bytes words.now))
        (S.left input.old) (S.left input.new) (K.written output.old) (K.written output.new) }
    ensures after_write_fault { result ≡ Status.WriteFault → AfterWriteFault (mode_of (map string_bytes words.now))
        (S.left input.old) (S.left input.new) (K.written output.old) (K.written output.new) }

    // Words of no form: nothing is read or written.
    ensures usage { (result ≡ Status.Usage) ↔ (mode_of (map string_bytes words.now) ≡ None) }
    ensures untouched { result ≡ Status.Usage → (input.new ≡ input.old) × (output.new ≡ output.old) }

    // Reading and writing fail only by a fault in this call.
    ensures read_fault { result ≡ Status.ReadFault → Rose (S.faults input.old) (S.faults input.new) }
    ensures write_fault { result ≡ Status.WriteFault → Rose (K.faults output.old) (K.faults output.new) }
    ensures later { (S.faults input.old ≤ S.faults input.new) × (K.faults output.old ≤ K.faults output.new) }
{
    match asked_of(words) {
        Some(Asked::Document(query)) => ask(alloc, query, input, output),
        Some(Asked::Replay) => replay(alloc, input, output),
        None => Status::Usage,
    }
}
