ghost use Rattle.std.specs.Prelude.{◌≡◌, map, IfOk};
ghost use Rattle.serde_json.specs.View.{view};
ghost use Rattle.diagram_terms.specs.Nodes.{sorts_of};
ghost use Rattle.node_json.specs.Step.{Gives, GivesExactly};
ghost use Rattle.node_json.specs.NodeForms.{label_in, label_node, labels_node, diagram_node, arrow_node, limited, limited_label, written_at, nodes_in};

use crate::fault::FormFault;
use crate::parts::{has_keys, list_at, list_of, numbers_at};
use crate::sorts::sort_behind;
use diagram_terms::{GREATEST_DIM, Items, Label, NUMBER_LIMIT, Node, Sort};
use serde_json::Value;
use std::alloc::Global;

/// Nodes, and the sort of each.
#[derive(Debug, Drop)]
pub struct Nodes {
    pub nodes: Items<Node>,
    pub sorts: Items<Sort>,
}

/// The two numbers of a label.
fn pair_of(wrong: FormFault, value: &Value) -> Result<(u64, u64), FormFault>
    ensures { GivesExactly (λ pair. record { number = pair.0; dim = pair.1 }) result
        (label_in wrong (view value.now)) }
{
    let Some([number, dim]) = list_of(Some(value)) else {
        return Err(wrong);
    };
    match (number.as_u64(), dim.as_u64()) {
        (Some(number), Some(dim)) => Ok((number, dim)),
        _ => Err(wrong),
    }
}

/// The label with these numbers, if they are within the limits.
fn limited_label(place: usize, pair: (u64, u64)) -> Result<Label, FormFault>
    ensures { GivesExactly (λ label. label) result
        (limited_label place (record { number = pair.0; dim = pair.1 })) }
{
    let (number, dim) = pair;
    if number < NUMBER_LIMIT as u64 && dim <= GREATEST_DIM as u64 {
        Ok(Label {
            number: number as u32,
            dim: dim as u8,
        })
    } else {
        Err(FormFault::Label(place))
    }
}

fn label_node(place: usize, value: &Value) -> Result<Node, FormFault>
    ensures { GivesExactly (λ node. node) result
        (limited place (label_node (FormFault.Shape place) (view value.now))) }
{
    let wrong = FormFault::Shape(place);
    let Some(pair) = value.get("label") else {
        return Err(wrong);
    };
    Ok(Node::Label(limited_label(place, pair_of(wrong, pair)?)?))
}

fn labels_node(place: usize, value: &Value) -> Result<Node, FormFault>
    ensures { GivesExactly (λ node. node) result
        (limited place (labels_node (FormFault.Shape place) (view value.now))) }
{
    let wrong = FormFault::Shape(place);
    let [one, other] = list_at(wrong, value, "labels")? else {
        return Err(wrong);
    };
    let one = pair_of(wrong, one)?;
    let other = pair_of(wrong, other)?;
    let one = limited_label(place, one)?;
    let other = limited_label(place, other)?;
    Ok(Node::Labels(one, other))
}

fn diagram_node(alloc: Global, place: usize, value: &Value) -> Result<Node, FormFault>
    ensures { Gives (λ node. node) result
        (limited place (diagram_node (FormFault.Shape place) (view value.now))) }
{
    let wrong = FormFault::Shape(place);
    Ok(Node::Diagram {
        regs: numbers_at(alloc, wrong, value, "regs")?,
        sings: numbers_at(alloc, wrong, value, "sings")?,
        fwds: numbers_at(alloc, wrong, value, "fwds")?,
        bwds: numbers_at(alloc, wrong, value, "bwds")?,
    })
}

fn arrow_node(alloc: Global, place: usize, value: &Value) -> Result<Node, FormFault>
    ensures { Gives (λ node. node) result
        (limited place (arrow_node (FormFault.Shape place) (view value.now))) }
{
    let wrong = FormFault::Shape(place);
    Ok(Node::Arrow {
        heights: numbers_at(alloc, wrong, value, "heights")?,
        regs: numbers_at(alloc, wrong, value, "regs")?,
        sings: numbers_at(alloc, wrong, value, "sings")?,
    })
}

/// The node as it is written, with labels within the limits.
fn written_at(alloc: Global, place: usize, value: &Value) -> Result<Node, FormFault>
    ensures { Gives (λ node. node) result (written_at place (view value.now)) }
{
    if has_keys(value, &["label"]) {
        label_node(place, value)
    } else if has_keys(value, &["labels"]) {
        labels_node(place, value)
    } else if has_keys(value, &["bwds", "fwds", "regs", "sings"]) {
        diagram_node(alloc, place, value)
    } else if has_keys(value, &["heights", "regs", "sings"]) {
        arrow_node(alloc, place, value)
    } else {
        Err(FormFault::Shape(place))
    }
}

/// The nodes that the values of a list are, each behind those before it, and the sort of each. Else the
/// fault is that of the first value that is no node; `NoMemory` may come in place of any answer.
#[tactic(auto, using(crate::proofs::MoreNodes::sorts_of_push), unfolding(crate::specs::NodeForms::node_at))]
pub fn nodes_in(alloc: Global, list: &[Value]) -> Result<Nodes, FormFault>
    ensures nodes { Gives (λ read. read.nodes) result (nodes_in (map view list.now)) }
    ensures sorts { IfOk result (λ read. read.sorts ≡ sorts_of read.nodes) }
{
    let mut nodes = Items::new(alloc);
    let mut sorts = Items::new(alloc);
    for value in list {
        let node = written_at(alloc, nodes.len(), value)?;
        let sort = sort_behind(sorts.as_slice(), &node)?;
        nodes.push(node)?;
        sorts.push(sort)?;
    }
    Ok(Nodes { nodes, sorts })
}
