ghost use Rattle.std.specs.Prelude.{◌≡◌, Ok};
ghost use Rattle.node_json.specs.declared.document.Document.{Document};
ghost use Rattle.node_json.specs.Documents.{IsDocument};
ghost use Rattle.node_json.specs.Printing.{HasWords, text_of_document};
ghost use Rattle.node_json.specs.Reading.{exact_document};

/// The text of a document is read as that document, if it has the form of one and its numbers are of 64
/// bits, as all are that a program holds.
#[tactic(auto, using(crate::proofs::Printed::documents_are_read_back))]
pub fn documents_are_read_back()
    ensures { (document : Document) → IsDocument document → HasWords document
        → exact_document (text_of_document document) ≡ Ok document }
{}
