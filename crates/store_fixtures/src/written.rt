ghost use Rattle.std.specs.Prelude.{IfOk};
ghost use Rattle.diagram_terms.specs.Nodes.{AreNodes};

use node_json::{Document, FormFault, read_document};
use std::alloc::Global;

/// The document with these nodes, and no entries.
pub fn document_of(alloc: Global, nodes: &str) -> Result<Document, FormFault>
    ensures { IfOk result (λ document. AreNodes document.nodes) }
{
    let text = format!(in alloc;
        "{{\"diagrams\":[],\"format\":1,\"generators\":[],\"maps\":[],\"nodes\":[{nodes}]}}"
    )?;
    read_document(alloc, text.as_bytes())
}
