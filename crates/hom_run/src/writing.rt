ghost use Rattle.std.specs.Prelude.{◌≡◌, ◌≢◌, ◌≤◌, [], ◌∷◌, OnOk, OnErr, IsErrOf, IfOk};
ghost use Rattle.std.specs.Io.KnownBytes.{Appends};
ghost use Rattle.io_edge.specs.Counts.{Rose};
ghost use Rattle.io_edge.specs.Transfers.{AppendsLess, AppendsPrefix};
ghost use Rattle.workspace_json.specs.Replies.{text_of_fault};
ghost use Rattle.hom_run.specs.Full.{is_yes as is_yes_lem, line, replying};

use crate::status::Status;
use io_edge::{Sink, WriteAllFault, write_all};
use std::alloc::Global;
use workspace_json::{FormFault, Reply, form_text, reply_text};

/// Whether a reply is a yes: neither a `no` nor a refusal.
pub(crate) fn is_yes(reply: &Reply) -> bool
    ensures { result ≡ is_yes_lem reply.now }
{
    match reply {
        Reply::Look { at, .. } => at.is_none(),
        Reply::Refused(_) => false,
        Reply::Generator { .. }
        | Reply::Stored { .. }
        | Reply::Named { .. }
        | Reply::Slice { .. }
        | Reply::Normalise { .. }
        | Reply::Equal { .. }
        | Reply::Stats { .. }
        | Reply::Save { .. }
        | Reply::Undo
        | Reply::Redo => true,
    }
}

/// Writes a text and a newline as one piece.
pub(crate) fn write_line<K: Sink>(output: &mut K, text: Vec<u8>) -> Result<(), WriteAllFault>
    ensures ok { OnOk result (Appends (K.written output.old) (K.written output.new) (line text.items)) }
    ensures err { OnErr result
        (AppendsPrefix (K.written output.old) (K.written output.new) (line text.items)) }
    ensures less { IsErrOf result WriteAllFault.WriteFault
        → AppendsLess (K.written output.old) (K.written output.new) (line text.items) }
    ensures later { K.faults output.old ≤ K.faults output.new }
    ensures cause { IsErrOf result WriteAllFault.WriteFault
        → Rose (K.faults output.old) (K.faults output.new) }
{
    let mut piece = text;
    piece.push(b'\n')?;
    write_all(output, &piece)
}

/// Writes the line of the one reply of a run.
pub(crate) fn write_reply<K: Sink>(
    alloc: Global,
    reply: &Reply,
    output: &mut K,
) -> Result<Status, WriteAllFault>
    ensures ok { IfOk result (λ status. status ≡ (replying (reply.now ∷ [])).status) }
    ensures wrote { OnOk result
        (Appends (K.written output.old) (K.written output.new) (replying (reply.now ∷ [])).text) }
    ensures err { OnErr result
        (AppendsPrefix (K.written output.old) (K.written output.new) (replying (reply.now ∷ [])).text) }
    ensures later { K.faults output.old ≤ K.faults output.new }
    ensures cause { IsErrOf result WriteAllFault.WriteFault
        → Rose (K.faults output.old) (K.faults output.new) }
{
    write_line(output, reply_text(alloc, reply)?)?;
    if is_yes(reply) {
        Ok(Status::Done)
    } else {
        Ok(Status::Refused)
    }
}

/// Writes the line of a form fault.
pub(crate) fn write_fault<K: Sink>(
    alloc: Global,
    fault: FormFault,
    output: &mut K,
) -> Result<Status, WriteAllFault>
    requires { fault ≢ FormFault.NoMemory }
    ensures ok { IfOk result (λ status. status ≡ Status.Form) }
    ensures wrote { OnOk result
        (Appends (K.written output.old) (K.written output.new) (line (text_of_fault fault))) }
    ensures err { OnErr result
        (AppendsPrefix (K.written output.old) (K.written output.new) (line (text_of_fault fault))) }
    ensures later { K.faults output.old ≤ K.faults output.new }
    ensures cause { IsErrOf result WriteAllFault.WriteFault
        → Rose (K.faults output.old) (K.faults output.new) }
{
    write_line(output, form_text(alloc, &fault)?)?;
    Ok(Status::Form)
}

/// The status of a run that wrote its text, or of one that could not.
pub(crate) fn status_of(wrote: Result<Status, WriteAllFault>) -> Status
    ensures ok { IfOk wrote (λ status. result ≡ status) }
    ensures write { IsErrOf wrote WriteAllFault.WriteFault → result ≡ Status.WriteFault }
    ensures memory { IsErrOf wrote WriteAllFault.NoMemory → result ≡ Status.NoMemory }
{
    match wrote {
        Ok(status) => status,
        Err(WriteAllFault::WriteFault) => Status::WriteFault,
        Err(WriteAllFault::NoMemory) => Status::NoMemory,
    }
}
