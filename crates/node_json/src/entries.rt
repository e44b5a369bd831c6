ghost use Rattle.std.specs.Prelude.{◌≡◌, ◌∷◌, [], map, IfOk};
ghost use Rattle.std.specs.List.{slice_get};
ghost use Rattle.serde_json.specs.View.{view};
ghost use Rattle.node_json.specs.Step.{Gives, GivesExactly};
ghost use Rattle.node_json.specs.Names.{has_name, also};
ghost use Rattle.node_json.specs.Entries.{is_diagram, is_arrow, diagram_place, arrow_place, point_entry, cell_entry, generator_entry, diagram_entry, map_entry, generator_names, diagram_names, map_names, generators_in, diagrams_in, maps_in};

use crate::document::{DiagramEntry, GeneratorEntry, MapEntry};
use crate::fault::{Field, FormFault};
use crate::names::name_in;
use crate::parts::{has_keys, keyed, number_at};
use diagram_terms::{Items, MAX_GENERATORS, Sort, Text};
use serde_json::Value;
use std::alloc::Global;
use std::collections::BTreeSet;

fn is_diagram(sorts: &[Sort], place: usize) -> bool
    ensures { result ≡ is_diagram (slice_get sorts.now place) }
{
    match sorts.get(place) {
        Some(Sort::Diagram(_)) => true,
        _ => false,
    }
}

fn is_arrow(sorts: &[Sort], place: usize) -> bool
    ensures { result ≡ is_arrow (slice_get sorts.now place) }
{
    match sorts.get(place) {
        Some(Sort::Arrow(_)) => true,
        _ => false,
    }
}

/// The place at a key, where a diagram stands; else the fault is `wrong`. It takes no memory.
pub fn diagram_place(
    wrong: FormFault,
    sorts: &[Sort],
    key: &str,
    value: &Value,
) -> Result<usize, FormFault>
    ensures { GivesExactly (λ place. place) result
        (diagram_place wrong sorts.now key.now (view value.now)) }
{
    let place = number_at(wrong, value, key)?;
    if is_diagram(sorts, place) {
        Ok(place)
    } else {
        Err(wrong)
    }
}

/// The place at a key, where an arrow stands; else the fault is `wrong`. It takes no memory.
pub fn arrow_place(
    wrong: FormFault,
    sorts: &[Sort],
    key: &str,
    value: &Value,
) -> Result<usize, FormFault>
    ensures { GivesExactly (λ place. place) result
        (arrow_place wrong sorts.now key.now (view value.now)) }
{
    let place = number_at(wrong, value, key)?;
    if is_arrow(sorts, place) {
        Ok(place)
    } else {
        Err(wrong)
    }
}

fn point_entry<'v>(
    alloc: Global,
    wrong: FormFault,
    names: &mut BTreeSet<&'v str>,
    value: &'v Value,
) -> Result<GeneratorEntry, FormFault>
    ensures entry { Gives (λ entry. entry) result
        (point_entry wrong (has_name names.old) (view value.now)) }
    ensures taken { IfOk result
        (λ entry. has_name names.new ≡ also (has_name names.old) (entry.name ∷ [])) }
{
    let name = name_in(wrong, names, value)?;
    Ok(GeneratorEntry {
        name: Text::from_str(alloc, name)?,
        boundary: None,
    })
}

fn cell_entry<'v>(
    alloc: Global,
    wrong: FormFault,
    sorts: &[Sort],
    names: &mut BTreeSet<&'v str>,
    value: &'v Value,
) -> Result<GeneratorEntry, FormFault>
    ensures entry { Gives (λ entry. entry) result
        (cell_entry wrong sorts.now (has_name names.old) (view value.now)) }
    ensures taken { IfOk result
        (λ entry. has_name names.new ≡ also (has_name names.old) (entry.name ∷ [])) }
{
    keyed(wrong, value, &["name", "source", "target"])?;
    let name = name_in(wrong, names, value)?;
    let source = diagram_place(wrong, sorts, "source", value)?;
    let target = diagram_place(wrong, sorts, "target", value)?;
    Ok(GeneratorEntry {
        name: Text::from_str(alloc, name)?,
        boundary: Some((source, target)),
    })
}

#[tactic(auto, unfolding(crate::specs::Entries::generator_entry))]
fn generator_entry<'v>(
    alloc: Global,
    wrong: FormFault,
    sorts: &[Sort],
    names: &mut BTreeSet<&'v str>,
    value: &'v Value,
) -> Result<GeneratorEntry, FormFault>
    ensures entry { Gives (λ entry. entry) result
        (generator_entry wrong sorts.now (has_name names.old) (view value.now)) }
    ensures taken { IfOk result
        (λ entry. has_name names.new ≡ also (has_name names.old) (entry.name ∷ [])) }
{
    if has_keys(value, &["name"]) {
        point_entry(alloc, wrong, names, value)
    } else {
        cell_entry(alloc, wrong, sorts, names, value)
    }
}

#[tactic(auto, unfolding(crate::specs::Entries::diagram_entry))]
fn diagram_entry<'v>(
    alloc: Global,
    wrong: FormFault,
    sorts: &[Sort],
    names: &mut BTreeSet<&'v str>,
    value: &'v Value,
) -> Result<DiagramEntry, FormFault>
    ensures entry { Gives (λ entry. entry) result
        (diagram_entry wrong sorts.now (has_name names.old) (view value.now)) }
    ensures taken { IfOk result
        (λ entry. has_name names.new ≡ also (has_name names.old) (entry.name ∷ [])) }
{
    keyed(wrong, value, &["name", "root"])?;
    let name = name_in(wrong, names, value)?;
    let root = diagram_place(wrong, sorts, "root", value)?;
    Ok(DiagramEntry {
        name: Text::from_str(alloc, name)?,
        root,
    })
}

#[tactic(auto, unfolding(crate::specs::Entries::map_entry))]
fn map_entry<'v>(
    alloc: Global,
    wrong: FormFault,
    sorts: &[Sort],
    names: &mut BTreeSet<&'v str>,
    value: &'v Value,
) -> Result<MapEntry, FormFault>
    ensures entry { Gives (λ entry. entry) result
        (map_entry wrong sorts.now (has_name names.old) (view value.now)) }
    ensures taken { IfOk result
        (λ entry. has_name names.new ≡ also (has_name names.old) (entry.name ∷ [])) }
{
    keyed(wrong, value, &["arrow", "name", "source", "target"])?;
    let name = name_in(wrong, names, value)?;
    let source = diagram_place(wrong, sorts, "source", value)?;
    let target = diagram_place(wrong, sorts, "target", value)?;
    let arrow = arrow_place(wrong, sorts, "arrow", value)?;
    Ok(MapEntry {
        name: Text::from_str(alloc, name)?,
        source,
        target,
        arrow,
    })
}

fn entry_fault(field: Field, entry: usize) -> FormFault
    ensures { result ≡ FormFault.Form field (Some entry) }
{
    FormFault::Form {
        field,
        entry: Some(entry),
    }
}

#[tactic(auto, unfolding(crate::specs::Entries::generator_at))]
pub(crate) fn generators_in<'v>(
    alloc: Global,
    sorts: &[Sort],
    names: &mut BTreeSet<&'v str>,
    list: &'v [Value],
) -> Result<Items<GeneratorEntry>, FormFault>
    ensures entries { Gives (λ entries. entries) result
        (generators_in sorts.now (has_name names.old) (map view list.now)) }
    ensures taken { IfOk result
        (λ entries. has_name names.new ≡ also (has_name names.old) (generator_names entries)) }
{
    let mut entries = Items::new(alloc);
    for value in list {
        let wrong = entry_fault(Field::Generators, entries.len());
        if entries.len() >= MAX_GENERATORS {
            return Err(wrong);
        }
        entries.push(generator_entry(alloc, wrong, sorts, names, value)?)?;
    }
    Ok(entries)
}

#[tactic(auto, unfolding(crate::specs::Entries::diagram_at))]
pub(crate) fn diagrams_in<'v>(
    alloc: Global,
    sorts: &[Sort],
    names: &mut BTreeSet<&'v str>,
    list: &'v [Value],
) -> Result<Items<DiagramEntry>, FormFault>
    ensures entries { Gives (λ entries. entries) result
        (diagrams_in sorts.now (has_name names.old) (map view list.now)) }
    ensures taken { IfOk result
        (λ entries. has_name names.new ≡ also (has_name names.old) (diagram_names entries)) }
{
    let mut entries = Items::new(alloc);
    for value in list {
        let wrong = entry_fault(Field::Diagrams, entries.len());
        entries.push(diagram_entry(alloc, wrong, sorts, names, value)?)?;
    }
    Ok(entries)
}

#[tactic(auto, unfolding(crate::specs::Entries::map_at))]
pub(crate) fn maps_in<'v>(
    alloc: Global,
    sorts: &[Sort],
    names: &mut BTreeSet<&'v str>,
    list: &'v [Value],
) -> Result<Items<MapEntry>, FormFault>
    ensures { Gives (λ entries. entries) result
        (maps_in sorts.now (has_name names.old) (map view list.now)) }
{
    let mut entries = Items::new(alloc);
    for value in list {
        let wrong = entry_fault(Field::Maps, entries.len());
        entries.push(map_entry(alloc, wrong, sorts, names, value)?)?;
    }
    Ok(entries)
}
