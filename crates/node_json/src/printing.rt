ghost use Rattle.std.specs.Prelude.{◌≡◌, map, IfOk};
ghost use Rattle.serde_json.specs.View.{view};
ghost use Rattle.node_json.specs.Printing.{list_data, numbers_data, label_data, node_data, nodes_data, generator_data, diagram_data, map_data, document_data, text_of_document};

use crate::document::{DiagramEntry, Document, GeneratorEntry, MapEntry};
use diagram_terms::{Label, Node};
use serde_json::{Value, json};
use std::alloc::{AllocError, Global};

/// The value of a list of numbers.
pub fn numbers_value(alloc: Global, numbers: &[usize]) -> Result<Value, AllocError>
    ensures { IfOk result (λ value. view value ≡ numbers_data numbers.now) }
{
    let mut values = Vec::with_capacity(alloc, numbers.len())?;
    for number in numbers {
        values.push(Value::from(*number))?;
    }
    Ok(Value::Array(values))
}

fn label_value(alloc: Global, label: Label) -> Result<Value, AllocError>
    ensures { IfOk result (λ value. view value ≡ label_data label) }
{
    json!(in alloc; [label.number, label.dim])
}

fn diagram_node_value(
    alloc: Global,
    regs: &[usize],
    sings: &[usize],
    fwds: &[usize],
    bwds: &[usize],
) -> Result<Value, AllocError>
    ensures { IfOk result (λ value. view value
        ≡ node_data (Node.Diagram regs.now sings.now fwds.now bwds.now)) }
{
    json!(in alloc; {
        "bwds": numbers_value(alloc, bwds)?, "fwds": numbers_value(alloc, fwds)?,
        "regs": numbers_value(alloc, regs)?, "sings": numbers_value(alloc, sings)?
    })
}

fn arrow_node_value(
    alloc: Global,
    heights: &[usize],
    regs: &[usize],
    sings: &[usize],
) -> Result<Value, AllocError>
    ensures { IfOk result (λ value. view value
        ≡ node_data (Node.Arrow heights.now regs.now sings.now)) }
{
    json!(in alloc; {
        "heights": numbers_value(alloc, heights)?, "regs": numbers_value(alloc, regs)?,
        "sings": numbers_value(alloc, sings)?
    })
}

/// The value of a node.
pub(crate) fn node_value(alloc: Global, node: &Node) -> Result<Value, AllocError>
    ensures { IfOk result (λ value. view value ≡ node_data node.now) }
{
    match node {
        Node::Label(label) => json!(in alloc; {"label": label_value(alloc, *label)?}),
        Node::Labels(one, other) => json!(in alloc; {
            "labels": [label_value(alloc, *one)?, label_value(alloc, *other)?]
        }),
        Node::Diagram {
            regs,
            sings,
            fwds,
            bwds,
        } => diagram_node_value(
            alloc,
            regs.as_slice(),
            sings.as_slice(),
            fwds.as_slice(),
            bwds.as_slice(),
        ),
        Node::Arrow {
            heights,
            regs,
            sings,
        } => arrow_node_value(alloc, heights.as_slice(), regs.as_slice(), sings.as_slice()),
    }
}

/// The JSON list of nodes, in their order. The error is want of memory.
pub fn nodes_value(alloc: Global, nodes: &[Node]) -> Result<Value, AllocError>
    ensures { IfOk result (λ value. view value ≡ nodes_data nodes.now) }
{
    let mut values = Vec::with_capacity(alloc, nodes.len())?;
    for node in nodes {
        values.push(node_value(alloc, node)?)?;
    }
    Ok(Value::Array(values))
}

fn generator_value(alloc: Global, generator: &GeneratorEntry) -> Result<Value, AllocError>
    ensures { IfOk result (λ value. view value ≡ generator_data generator.now) }
{
    let name = generator.name.as_str();
    match generator.boundary {
        None => json!(in alloc; {"name": name}),
        Some((source, target)) =>
            json!(in alloc; {"name": name, "source": source, "target": target}),
    }
}

fn diagram_value(alloc: Global, diagram: &DiagramEntry) -> Result<Value, AllocError>
    ensures { IfOk result (λ value. view value ≡ diagram_data diagram.now) }
{
    json!(in alloc; {"name": diagram.name.as_str(), "root": diagram.root})
}

fn map_value(alloc: Global, map: &MapEntry) -> Result<Value, AllocError>
    ensures { IfOk result (λ value. view value ≡ map_data map.now) }
{
    json!(in alloc; {
        "arrow": map.arrow, "name": map.name.as_str(),
        "source": map.source, "target": map.target
    })
}

fn generators_value(alloc: Global, generators: &[GeneratorEntry]) -> Result<Value, AllocError>
    ensures { IfOk result (λ value. view value
        ≡ list_data (map generator_data generators.now)) }
{
    let mut values = Vec::with_capacity(alloc, generators.len())?;
    for generator in generators {
        values.push(generator_value(alloc, generator)?)?;
    }
    Ok(Value::Array(values))
}

fn diagrams_value(alloc: Global, diagrams: &[DiagramEntry]) -> Result<Value, AllocError>
    ensures { IfOk result (λ value. view value ≡ list_data (map diagram_data diagrams.now)) }
{
    let mut values = Vec::with_capacity(alloc, diagrams.len())?;
    for diagram in diagrams {
        values.push(diagram_value(alloc, diagram)?)?;
    }
    Ok(Value::Array(values))
}

fn maps_value(alloc: Global, maps: &[MapEntry]) -> Result<Value, AllocError>
    ensures { IfOk result (λ value. view value ≡ list_data (map map_data maps.now)) }
{
    let mut values = Vec::with_capacity(alloc, maps.len())?;
    for map in maps {
        values.push(map_value(alloc, map)?)?;
    }
    Ok(Value::Array(values))
}

/// The JSON value of a document: its format and its four lists, each in its order. The error is want of
/// memory.
pub fn document_value(alloc: Global, document: &Document) -> Result<Value, AllocError>
    ensures { IfOk result (λ value. view value ≡ document_data document.now) }
{
    json!(in alloc; {
        "diagrams": diagrams_value(alloc, document.diagrams.as_slice())?, "format": 1u64,
        "generators": generators_value(alloc, document.generators.as_slice())?,
        "maps": maps_value(alloc, document.maps.as_slice())?,
        "nodes": nodes_value(alloc, document.nodes.as_slice())?
    })
}

/// The text of a document, without a newline: compact JSON, with the keys of each object in the order of
/// their bytes. It is read as the same document again (`documents_are_read_back`). The error is want of
/// memory.
pub fn document_text(alloc: Global, document: &Document) -> Result<Vec<u8>, AllocError>
    ensures { IfOk result (λ text. text.items ≡ text_of_document document.now) }
{
    document_value(alloc, document)?.to_vec(alloc)
}
