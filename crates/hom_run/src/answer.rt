ghost use Rattle.std.specs.Prelude.{◌≡◌, ◌≢◌, ◌≤◌, IfOk, IsErrOf, IsSome, Ok, OnErr, OnOk};
ghost use Rattle.std.specs.Io.KnownBytes.{Appends};
ghost use Rattle.io_edge.specs.Counts.{Rose};
ghost use Rattle.io_edge.specs.Transfers.{AppendsPrefix};
ghost use Rattle.node_json.specs.Documents.{IsDocument};
ghost use Rattle.node_json.specs.Reading.{exact_document};
ghost use Rattle.hom_run.specs.Full.{Writes};
ghost use Rattle.hom_run.specs.Modes.{question_in, question_run};

use crate::look::write_looks;
use crate::normal::write_normal;
use crate::slice::write_slice;
use crate::status::Status;
use crate::words::Query;
use crate::writing::{status_of, write_fault};
use io_edge::{Sink, WriteAllFault};
use std::alloc::Global;
use workspace_json::{Document, FormFault, read_document};

/// Writes the replies of a document to a query.
fn write_replies<K: Sink>(
    alloc: Global,
    query: Query,
    document: &Document,
    output: &mut K,
) -> Result<Status, WriteAllFault>
    requires form { IsSome (question_in query) }
    requires document { IsDocument document.now }
    ensures ok { IfOk result (λ status. status ≡ (question_run (question_in query.entry) (Ok document.now)).status) }
    ensures wrote { OnOk result
        (Appends (K.written output.old) (K.written output.new) (question_run (question_in query.entry) (Ok document.now)).text) }
    ensures err { OnErr result
        (AppendsPrefix (K.written output.old) (K.written output.new) (question_run (question_in query.entry) (Ok document.now)).text) }
    ensures later { K.faults output.old ≤ K.faults output.new }
    ensures cause { IsErrOf result WriteAllFault.WriteFault
        → Rose (K.faults output.old) (K.faults output.new) }
{
    match query {
        Query::Look => write_looks(alloc, document, output),
        Query::Slice { name, path } => write_slice(alloc, document, name, path, output),
        Query::Normalise { name } => write_normal(alloc, document, name, output),
    }
}

/// A query on the bytes of a document: its replies, or the line of the document's fault.
pub(crate) fn answer<K: Sink>(alloc: Global, query: Query, bytes: &[u8], output: &mut K) -> Status
    requires { IsSome (question_in query) }
    ensures writes { Writes (question_run (question_in query.entry) (exact_document bytes.now)) result
        (K.written output.old) (K.written output.new) }
    ensures later { K.faults output.old ≤ K.faults output.new }
    ensures cause { result ≡ Status.WriteFault → Rose (K.faults output.old) (K.faults output.new) }
    ensures others { (result ≢ Status.ReadFault) × (result ≢ Status.TooLong) × (result ≢ Status.Usage) }
{
    match read_document(alloc, bytes) {
        Ok(document) => status_of(write_replies(alloc, query, &document, output)),
        Err(FormFault::NoMemory) => Status::NoMemory,
        Err(fault) => status_of(write_fault(alloc, fault, output)),
    }
}
