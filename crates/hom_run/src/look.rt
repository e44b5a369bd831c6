ghost use Rattle.std.specs.Prelude.{◌≡◌, ◌≤◌, ℕ, Ok, OnOk, OnErr, IsErrOf, IfOk};
ghost use Rattle.std.specs.Io.KnownBytes.{Appends};
ghost use Rattle.io_edge.specs.Counts.{Rose};
ghost use Rattle.io_edge.specs.Transfers.{AppendsPrefix};
ghost use Rattle.diagram_terms.specs.declared.limits.TheConstants.{GREATEST_DIM};
ghost use Rattle.diagram_terms.specs.Dimension.{dimension_of};
ghost use Rattle.hashcons.specs.Contents.{IsDiagramOf, Grows, diagram_at};
ghost use Rattle.node_json.specs.Documents.{IsDocument};
ghost use Rattle.zigzag_maps.specs.Visits.{fault_of};
ghost use Rattle.hom_run.specs.Full.{looks, on_document, tree_reply};

use crate::nodes::diagram_of;
use crate::status::Status;
use crate::writing::{is_yes, write_line};
use diagram_terms::{Place, Text};
use hashcons::{AnyId, DiagramId, Store};
use io_edge::{Sink, WriteAllFault};
use std::alloc::{AllocError, Global};
use workspace_json::{Document, Reply, reply_text};
use zigzag_maps::{SquareTest, valid};

/// The first place where a diagram is not valid, where the test found one.
fn place_of(test: SquareTest) -> Option<Place>
    ensures { result ≡ fault_of test }
{
    match test {
        SquareTest::Valid => None,
        SquareTest::Fault(place) => Some(place),
    }
}

/// What `look` says of a diagram of the store.
fn looked_at(
    alloc: Global,
    store: &mut Store,
    diagram: DiagramId,
    name: &Text,
) -> Result<Reply, AllocError>
    requires of_store { IsDiagramOf store.old diagram }
    requires dim { dimension_of (diagram_at store.old diagram) ≤ GREATEST_DIM }
    ensures reply { IfOk result (λ reply. reply ≡ tree_reply name.now (diagram_at store.old diagram)) }
    ensures grows { Grows store.old store.new }
{
    let at = place_of(valid(alloc, store, diagram)?);
    let name = name.copy(alloc)?;
    Ok(Reply::Look {
        dim: store.dim(AnyId::Diagram(diagram)) as u8,
        length: store.length(diagram),
        name,
        at,
    })
}

/// Writes a line for each diagram of the document.
pub(crate) fn write_looks<K: Sink>(
    alloc: Global,
    document: &Document,
    output: &mut K,
) -> Result<Status, WriteAllFault>
    requires { IsDocument document.now }
    ensures ok { IfOk result (λ status. status ≡ (on_document looks (Ok document.now)).status) }
    ensures wrote { OnOk result
        (Appends (K.written output.old) (K.written output.new) (on_document looks (Ok document.now)).text) }
    ensures err { OnErr result
        (AppendsPrefix (K.written output.old) (K.written output.new) (on_document looks (Ok document.now)).text) }
    ensures later { K.faults output.old ≤ K.faults output.new }
    ensures cause { IsErrOf result WriteAllFault.WriteFault
        → Rose (K.faults output.old) (K.faults output.new) }
{
    let mut store = Store::new(alloc);
    let ids = store.put_nodes(document.nodes.as_slice())?;
    let mut status = Status::Done;
    for entry in document.diagrams.as_slice() {
        let diagram = diagram_of(ids[entry.root]);
        let reply = looked_at(alloc, &mut store, diagram, &entry.name)?;
        write_line(output, reply_text(alloc, &reply)?)?;
        if !is_yes(&reply) {
            status = Status::Refused;
        }
    }
    Ok(status)
}
