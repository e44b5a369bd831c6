ghost use Rattle.std.specs.Prelude.{◌≡◌, map, List, IfOk};
ghost use Rattle.serde_json.specs.View.{view};
ghost use Rattle.diagram_terms.specs.declared.node.Node.{Node};
ghost use Rattle.diagram_terms.specs.Nodes.{sorts_of};
ghost use Rattle.node_json.specs.Step.{Gives, GivesExactly};
ghost use Rattle.workspace_json.specs.Commands.{text_in, keyed, side_of, side_in, heights_of, heights_at, texts_of, texts_in, nodes_at, diagram_in, arrow_in, bring_row, point_row, cell_row, generator_row, identity_row, boundary_row, slice_row, compose_row, normalise_row, equal_row, drop_row, bare_row, row_of, command_of, exact_command};
ghost use Rattle.workspace_json.specs.Forms.{HasForm};

use crate::command::Command;
use crate::paths::height_of;
use crate::writing::field_word;
use diagram_terms::{Height, Items, Side, Sort, Text};
use node_json::{
    Field, FormFault, Nodes, arrow_place, diagram_place, field_fault, has_keys, list_at, nodes_in,
    text_at, value_of,
};
use serde_json::Value;
use std::alloc::Global;

/// Asks for exactly these keys.
fn keyed(value: &Value, keys: &[&str]) -> Result<(), FormFault>
    ensures { GivesExactly (λ _. tt) result (keyed (map (λ key. key.now) keys.now) (view value.now)) }
{
    node_json::keyed(field_fault(Field::Command), value, keys)
}

/// The string of a field, at the key that is the field's word.
fn str_in<'v>(field: Field, value: &'v Value) -> Result<&'v str, FormFault>
    ensures { GivesExactly (λ text. text.now) result (text_in field (view value.now)) }
{
    text_at(field_fault(field), value, field_word(field))
}

fn text_in(alloc: Global, field: Field, value: &Value) -> Result<Text, FormFault>
    ensures { Gives (λ text. text) result (text_in field (view value.now)) }
{
    Ok(Text::from_str(alloc, str_in(field, value)?)?)
}

fn side_of(word: &str) -> Option<Side>
    ensures { result ≡ side_of word.now }
{
    match word {
        "source" => Some(Side::Source),
        "target" => Some(Side::Target),
        _ => None,
    }
}

fn side_in(value: &Value) -> Result<Side, FormFault>
    ensures { GivesExactly (λ side. side) result (side_in (view value.now)) }
{
    match side_of(str_in(Field::Side, value)?) {
        Some(side) => Ok(side),
        None => Err(field_fault(Field::Side)),
    }
}

fn heights_of(alloc: Global, list: &[Value]) -> Result<Items<Height>, FormFault>
    ensures { Gives (λ path. path) result (heights_of (map view list.now)) }
{
    let mut path = Items::new(alloc);
    for step in list {
        let Some(height) = step.as_str().and_then(height_of) else {
            return Err(field_fault(Field::Path));
        };
        path.push(height)?;
    }
    Ok(path)
}

fn heights_at(alloc: Global, value: &Value) -> Result<Items<Height>, FormFault>
    ensures { Gives (λ path. path) result (heights_at (view value.now)) }
{
    let list = list_at(field_fault(Field::Path), value, field_word(Field::Path))?;
    heights_of(alloc, list)
}

fn texts_of(alloc: Global, field: Field, list: &[Value]) -> Result<Items<Text>, FormFault>
    ensures { Gives (λ texts. texts) result (texts_of field (map view list.now)) }
{
    let mut texts = Items::new(alloc);
    for value in list {
        let Some(text) = value.as_str() else {
            return Err(field_fault(field));
        };
        texts.push(Text::from_str(alloc, text)?)?;
    }
    Ok(texts)
}

/// The strings of a list at a field.
fn texts_in(alloc: Global, field: Field, value: &Value) -> Result<Items<Text>, FormFault>
    ensures { Gives (λ texts. texts) result (texts_in field (view value.now)) }
{
    let list = list_at(field_fault(field), value, field_word(field))?;
    texts_of(alloc, field, list)
}

fn nodes_at(alloc: Global, value: &Value) -> Result<Nodes, FormFault>
    ensures nodes { Gives (λ read. read.nodes) result (nodes_at (view value.now)) }
    ensures sorts { IfOk result (λ read. read.sorts ≡ sorts_of read.nodes) }
{
    let list = list_at(field_fault(Field::Nodes), value, field_word(Field::Nodes))?;
    nodes_in(alloc, list)
}

/// The place at a field, where a diagram of these nodes stands.
fn diagram_in(field: Field, nodes: &Nodes, value: &Value) -> Result<usize, FormFault>
    requires { nodes.now.sorts ≡ sorts_of nodes.now.nodes }
    ensures { GivesExactly (λ place. place) result
        (diagram_in field nodes.now.nodes (view value.now)) }
{
    diagram_place(
        field_fault(field),
        nodes.sorts.as_slice(),
        field_word(field),
        value,
    )
}

/// The place at a field, where an arrow of these nodes stands.
fn arrow_in(field: Field, nodes: &Nodes, value: &Value) -> Result<usize, FormFault>
    requires { nodes.now.sorts ≡ sorts_of nodes.now.nodes }
    ensures { GivesExactly (λ place. place) result
        (arrow_in field nodes.now.nodes (view value.now)) }
{
    arrow_place(
        field_fault(field),
        nodes.sorts.as_slice(),
        field_word(field),
        value,
    )
}

#[tactic(auto, unfolding(crate::specs::Commands::bring_row))]
fn bring_row(alloc: Global, value: &Value) -> Result<Command, FormFault>
    ensures { Gives (λ command. command) result (bring_row (view value.now)) }
{
    keyed(value, &["do", "name", "nodes", "source", "target", "arrow"])?;
    let name = text_in(alloc, Field::Name, value)?;
    let nodes = nodes_at(alloc, value)?;
    let source = diagram_in(Field::Source, &nodes, value)?;
    let target = diagram_in(Field::Target, &nodes, value)?;
    let arrow = arrow_in(Field::Arrow, &nodes, value)?;
    Ok(Command::Bring {
        name,
        nodes: nodes.nodes,
        source,
        target,
        arrow,
    })
}

fn point_row(alloc: Global, value: &Value) -> Result<Command, FormFault>
    ensures { Gives (λ command. command) result (point_row (view value.now)) }
{
    Ok(Command::Generator {
        name: text_in(alloc, Field::Name, value)?,
        source: None,
        target: None,
    })
}

fn cell_row(alloc: Global, value: &Value) -> Result<Command, FormFault>
    ensures { Gives (λ command. command) result (cell_row (view value.now)) }
{
    keyed(value, &["do", "name", "source", "target"])?;
    Ok(Command::Generator {
        name: text_in(alloc, Field::Name, value)?,
        source: Some(text_in(alloc, Field::Source, value)?),
        target: Some(text_in(alloc, Field::Target, value)?),
    })
}

#[tactic(auto, unfolding(crate::specs::Commands::generator_row))]
fn generator_row(alloc: Global, value: &Value) -> Result<Command, FormFault>
    ensures { Gives (λ command. command) result (generator_row (view value.now)) }
{
    if has_keys(value, &["do", "name"]) {
        point_row(alloc, value)
    } else {
        cell_row(alloc, value)
    }
}

#[tactic(auto, unfolding(crate::specs::Commands::identity_row))]
fn identity_row(alloc: Global, value: &Value) -> Result<Command, FormFault>
    ensures { Gives (λ command. command) result (identity_row (view value.now)) }
{
    keyed(value, &["do", "name", "of"])?;
    Ok(Command::Identity {
        name: text_in(alloc, Field::Name, value)?,
        of: text_in(alloc, Field::Of, value)?,
    })
}

#[tactic(auto, unfolding(crate::specs::Commands::boundary_row))]
fn boundary_row(alloc: Global, value: &Value) -> Result<Command, FormFault>
    ensures { Gives (λ command. command) result (boundary_row (view value.now)) }
{
    keyed(value, &["do", "name", "of", "side"])?;
    Ok(Command::Boundary {
        name: text_in(alloc, Field::Name, value)?,
        of: text_in(alloc, Field::Of, value)?,
        side: side_in(value)?,
    })
}

#[tactic(auto, unfolding(crate::specs::Commands::slice_row))]
fn slice_row(alloc: Global, value: &Value) -> Result<Command, FormFault>
    ensures { Gives (λ command. command) result (slice_row (view value.now)) }
{
    keyed(value, &["do", "of", "path"])?;
    Ok(Command::Slice {
        of: text_in(alloc, Field::Of, value)?,
        path: heights_at(alloc, value)?,
    })
}

#[tactic(auto, unfolding(crate::specs::Commands::compose_row))]
fn compose_row(alloc: Global, value: &Value) -> Result<Command, FormFault>
    ensures { Gives (λ command. command) result (compose_row (view value.now)) }
{
    keyed(value, &["do", "name", "first", "then"])?;
    Ok(Command::Compose {
        name: text_in(alloc, Field::Name, value)?,
        first: text_in(alloc, Field::First, value)?,
        then_: text_in(alloc, Field::Then, value)?,
    })
}

#[tactic(auto, unfolding(crate::specs::Commands::normalise_row))]
fn normalise_row(alloc: Global, value: &Value) -> Result<Command, FormFault>
    ensures { Gives (λ command. command) result (normalise_row (view value.now)) }
{
    keyed(value, &["do", "name", "of", "legs"])?;
    Ok(Command::Normalise {
        name: text_in(alloc, Field::Name, value)?,
        of: text_in(alloc, Field::Of, value)?,
        legs: texts_in(alloc, Field::Legs, value)?,
    })
}

#[tactic(auto, unfolding(crate::specs::Commands::equal_row))]
fn equal_row(alloc: Global, value: &Value) -> Result<Command, FormFault>
    ensures { Gives (λ command. command) result (equal_row (view value.now)) }
{
    keyed(value, &["do", "one", "two"])?;
    Ok(Command::Equal {
        one: text_in(alloc, Field::One, value)?,
        two: text_in(alloc, Field::Two, value)?,
    })
}

#[tactic(auto, unfolding(crate::specs::Commands::drop_row))]
fn drop_row(alloc: Global, value: &Value) -> Result<Command, FormFault>
    ensures { Gives (λ command. command) result (drop_row (view value.now)) }
{
    keyed(value, &["do", "name"])?;
    Ok(Command::Drop {
        name: text_in(alloc, Field::Name, value)?,
    })
}

/// A command that is its word alone.
fn bare_row(command: Command, value: &Value) -> Result<Command, FormFault>
    ensures { GivesExactly (λ command. command) result (bare_row command (view value.now)) }
{
    keyed(value, &["do"])?;
    Ok(command)
}

#[tactic(auto, unfolding(crate::specs::Commands::row_of))]
fn row_of(alloc: Global, word: &str, value: &Value) -> Result<Command, FormFault>
    ensures { Gives (λ command. command) result (row_of word.now (view value.now)) }
{
    match word {
        "bring" => bring_row(alloc, value),
        "generator" => generator_row(alloc, value),
        "identity" => identity_row(alloc, value),
        "boundary" => boundary_row(alloc, value),
        "slice" => slice_row(alloc, value),
        "compose" => compose_row(alloc, value),
        "normalise" => normalise_row(alloc, value),
        "equal" => equal_row(alloc, value),
        "drop" => drop_row(alloc, value),
        "stats" => bare_row(Command::Stats, value),
        "save" => bare_row(Command::Save, value),
        "undo" => bare_row(Command::Undo, value),
        "redo" => bare_row(Command::Redo, value),
        _ => Err(field_fault(Field::Do)),
    }
}

#[tactic(auto, unfolding(crate::specs::Commands::command_of))]
fn command_of(alloc: Global, value: &Value) -> Result<Command, FormFault>
    ensures { Gives (λ command. command) result (command_of (view value.now)) }
{
    if !value.is_object() {
        return Err(field_fault(Field::Command));
    }
    row_of(alloc, str_in(Field::Do, value)?, value)
}

/// The command that a line is, which stands here without its newline. Else the fault is that of the
/// first test that fails: that it is JSON, an object, has one of the words at `do`, has exactly the keys
/// of that word, and then its fields in order. `NoMemory` may come in place of any answer. What is read
/// has the form of its command: the nodes of a map, and places of the right kind among them.
pub fn read_command(alloc: Global, line: &[u8]) -> Result<Command, FormFault>
    ensures exact { Gives (λ command. command) result (exact_command line.now) }
    ensures form { IfOk result HasForm }
{
    let value = value_of(alloc, line)?;
    command_of(alloc, &value)
}
