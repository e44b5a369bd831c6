ghost use Rattle.std.specs.Prelude.{◌≡◌, ◌≤◌, IfOk, IsErrOf, IsSome, Ok, OnErr, OnOk};
ghost use Rattle.std.specs.Io.KnownBytes.{Appends};
ghost use Rattle.io_edge.specs.Counts.{Rose};
ghost use Rattle.io_edge.specs.Transfers.{AppendsPrefix};
ghost use Rattle.node_json.specs.Documents.{IsDocument};
ghost use Rattle.workspace_json.specs.Paths.{path_in};
ghost use Rattle.hom_run.specs.Full.{root_of, slice_question, slice_reply as slice_reply_lem};
ghost use Rattle.hom_run.specs.Modes.{question_run};

use crate::nodes::diagram_of;
use crate::status::Status;
use crate::writing::write_reply;
use boundary_paths::{NoHeight, slice};
use diagram_terms::{Height, Text};
use hashcons::Store;
use io_edge::{Sink, WriteAllFault};
use std::alloc::{AllocError, Global};
use workspace_json::{Document, Refusal, Reply, path_of};
use workspace_lists::printed;

/// The place of the diagram of this name.
pub(crate) fn root_named(document: &Document, name: &str) -> Option<usize>
    ensures { result ≡ root_of name.now document.now.diagrams }
{
    document
        .diagrams
        .as_slice()
        .iter()
        .find(|entry| entry.name.as_str() == name)
        .map(|entry| entry.root)
}

/// What `slice` replies to a document.
fn slice_reply(
    alloc: Global,
    document: &Document,
    name: &str,
    path: &[Height],
) -> Result<Reply, AllocError>
    requires { IsDocument document.now }
    ensures { IfOk result (λ reply. reply ≡ slice_reply_lem document.now name.now path.now) }
{
    let Some(root) = root_named(document, name) else {
        let name = Text::from_str(alloc, name)?;
        return Ok(Reply::Refused(Refusal::Unknown { name }));
    };
    let mut store = Store::new(alloc);
    let ids = store.put_nodes(document.nodes.as_slice())?;
    let diagram = diagram_of(ids[root]);
    match slice(&store, diagram, path) {
        Ok(found) => printed(&store, found),
        Err(NoHeight { step }) => Ok(Reply::Refused(Refusal::NoHeight { step })),
    }
}

/// Writes the line of the slice of the diagram of this name along the path that this text is.
pub(crate) fn write_slice<K: Sink>(
    alloc: Global,
    document: &Document,
    name: &str,
    path: &str,
    output: &mut K,
) -> Result<Status, WriteAllFault>
    requires form { IsSome (path_in path.now) }
    requires document { IsDocument document.now }
    ensures ok { IfOk result
        (λ status. status ≡ (question_run (slice_question name.now path.now) (Ok document.now)).status) }
    ensures wrote { OnOk result
        (Appends (K.written output.old) (K.written output.new) (question_run (slice_question name.now path.now) (Ok document.now)).text) }
    ensures err { OnErr result
        (AppendsPrefix (K.written output.old) (K.written output.new) (question_run (slice_question name.now path.now) (Ok document.now)).text) }
    ensures later { K.faults output.old ≤ K.faults output.new }
    ensures cause { IsErrOf result WriteAllFault.WriteFault
        → Rose (K.faults output.old) (K.faults output.new) }
{
    let Some(heights) = path_of(alloc, path)? else {
        unreachable!();
    };
    let reply = slice_reply(alloc, document, name, heights.as_slice())?;
    write_reply(alloc, &reply, output)
}
