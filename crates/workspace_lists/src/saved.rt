ghost use Rattle.std.specs.Prelude.{◌≡◌, ◌≤◌, ◌+◌, ◌++◌, ℕ, IfOk, OnOk, count_by, length, map};
ghost use Rattle.hashcons.specs.declared.id.AnyId.{AnyId as Id};
ghost use Rattle.workspace_json.specs.Saved.{document_of, stats_of};
ghost use Rattle.workspace_json.specs.declared.reply.Reply.{Reply};
ghost use Rattle.workspace_lists.specs.Held.{IsHeld, workspace_in};
ghost use Rattle.workspace_lists.specs.Roots.{boundary_ids, diagram_ids, end_ids, ends_from, entry_from, generator_at, is_diagram_node, map_entry_at, named_at, part_ids, root_ids, top_ids};

use crate::counts::Stats;
use crate::workspace::{Generator, Named, NamedMap, Workspace};
use diagram_terms::{Items, Node, Text};
use hashcons::{AnyId, DiagramId, Store};
use std::alloc::{AllocError, Global};
use workspace_json::{DiagramEntry, Document, GeneratorEntry, MapEntry};

/// The document of a workspace. Each distinct subtree is looked at once.
pub fn document(alloc: Global, store: &Store, workspace: &Workspace) -> Result<Document, AllocError>
    requires { IsHeld store.now workspace.now }
    ensures { IfOk result (λ document. document ≡ document_of (workspace_in store.now workspace.now)) }
{
    let roots = roots_of(alloc, workspace)?;
    let (nodes, places) = store.list(&roots.ids)?;
    // the places come in the order of the roots
    let (front, parts) = places.split_at(roots.maps);
    let (ends, tops) = front.split_at(roots.diagrams);
    let generators = generator_entries(alloc, &workspace.generators, ends)?;
    let diagrams = diagram_entries(alloc, &workspace.diagrams, tops)?;
    let maps = map_entries(alloc, &workspace.maps, parts)?;
    Ok(Document {
        generators: Items::from_vec(generators),
        diagrams: Items::from_vec(diagrams),
        maps: Items::from_vec(maps),
        nodes: Items::from_vec(nodes),
    })
}

/// What a workspace holds, in numbers. Each distinct subtree is looked at once.
pub fn stats(alloc: Global, store: &Store, workspace: &Workspace) -> Result<Stats, AllocError>
    requires { IsHeld store.now workspace.now }
    ensures { IfOk result (λ s. stats_of (workspace_in store.now workspace.now)
        ≡ Reply.Stats s.arrows s.diagrams s.generators s.maps s.named) }
{
    let roots = roots_of(alloc, workspace)?;
    let (nodes, _) = store.list(&roots.ids)?;
    let diagrams = diagrams_among(&nodes);
    Ok(Stats {
        generators: workspace.generators.len(),
        named: workspace.diagrams.len(),
        maps: workspace.maps.len(),
        diagrams,
        arrows: nodes.len() - diagrams,
    })
}

/// The ids of the boundary of each generator, then of each diagram, and then of the ends and the arrow of
/// each map, and where those of the diagrams and of the maps begin.
#[derive(Drop)]
struct Roots {
    ids: Vec<AnyId>,
    diagrams: usize,
    maps: usize,
}

fn roots_of(alloc: Global, workspace: &Workspace) -> Result<Roots, AllocError>
    ensures ids { IfOk result (λ roots. roots.ids.items ≡ root_ids workspace.now) }
    ensures diagrams { IfOk result (λ roots. roots.diagrams ≡ length (end_ids workspace.now.generators.items)) }
    ensures maps { IfOk result (λ roots. roots.maps ≡ length (top_ids workspace.now)) }
{
    let mut ids = ends_of(alloc, &workspace.generators)?;
    let diagrams = ids.len();
    for diagram in &workspace.diagrams {
        ids.push(AnyId::Diagram(diagram.root))?;
    }
    let maps = ids.len();
    push_parts(&mut ids, &workspace.maps)?;
    Ok(Roots {
        ids,
        diagrams,
        maps,
    })
}

/// Adds the ids of the ends and of the arrow of each map.
fn push_parts(ids: &mut Vec<AnyId>, maps: &[NamedMap]) -> Result<(), AllocError>
    ensures { OnOk result (ids.new.items ≡ ids.old.items ++ part_ids maps.now) }
{
    for named in maps {
        ids.push(AnyId::Diagram(named.map.source))?;
        ids.push(AnyId::Diagram(named.map.target))?;
        ids.push(AnyId::Arrow(named.map.arrow))?;
    }
    Ok(())
}

/// The ids of the boundary of each generator.
fn ends_of(alloc: Global, generators: &[Generator]) -> Result<Vec<AnyId>, AllocError>
    ensures { IfOk result (λ ids. ids.items ≡ end_ids generators.now) }
{
    let mut ends = Vec::new(alloc);
    for generator in generators {
        if let Some((source, target)) = generator.boundary {
            ends.push(AnyId::Diagram(source))?;
            ends.push(AnyId::Diagram(target))?;
        }
    }
    Ok(ends)
}

/// The entries of generators, from the places of their boundaries.
fn generator_entries(
    alloc: Global,
    generators: &[Generator],
    places: &[usize],
) -> Result<Vec<GeneratorEntry>, AllocError>
    requires { length places.now ≡ length (end_ids generators.now) }
    ensures { IfOk result (λ entries. (place : Id → ℕ) → places.now ≡ map place (end_ids generators.now)
        → entries.items ≡ map (generator_at place) generators.now) }
{
    let mut entries = Vec::new(alloc);
    let mut at = 0;
    for generator in generators {
        let name = generator.name.copy(alloc)?;
        let boundary = places_from(generator.boundary, places, at);
        at += ends_in(generator.boundary);
        entries.push(GeneratorEntry { name, boundary })?;
    }
    Ok(entries)
}

/// How many ends a boundary has.
fn ends_in(boundary: Option<(DiagramId, DiagramId)>) -> usize
    ensures { result ≡ length (boundary_ids boundary) }
{
    match boundary {
        Some(_) => 2,
        None => 0,
    }
}

/// The places of a boundary, which stand from this one on.
fn places_from(
    boundary: Option<(DiagramId, DiagramId)>,
    places: &[usize],
    at: usize,
) -> Option<(usize, usize)>
    requires { at + length (boundary_ids boundary) ≤ length places.now }
    ensures { result ≡ ends_from places.now at boundary }
{
    match boundary {
        Some(_) => Some((places[at], places[at + 1])),
        None => None,
    }
}

/// The entries of diagrams, from the places of their roots.
fn diagram_entries(
    alloc: Global,
    diagrams: &[Named],
    places: &[usize],
) -> Result<Vec<DiagramEntry>, AllocError>
    requires { length places.now ≡ length diagrams.now }
    ensures { IfOk result (λ entries. (place : Id → ℕ) → places.now ≡ map place (diagram_ids diagrams.now)
        → entries.items ≡ map (named_at place) diagrams.now) }
{
    let mut entries = Vec::new(alloc);
    for (i, diagram) in diagrams.iter().enumerate() {
        let name = diagram.name.copy(alloc)?;
        let root = places[i];
        entries.push(DiagramEntry { name, root })?;
    }
    Ok(entries)
}

/// The entries of maps, from the places of their ends and arrows.
fn map_entries(
    alloc: Global,
    maps: &[NamedMap],
    places: &[usize],
) -> Result<Vec<MapEntry>, AllocError>
    requires { length places.now ≡ length (part_ids maps.now) }
    ensures { IfOk result (λ entries. (place : Id → ℕ) → places.now ≡ map place (part_ids maps.now)
        → entries.items ≡ map (map_entry_at place) maps.now) }
{
    let mut entries = Vec::new(alloc);
    let mut at = 0;
    for named in maps {
        let name = named.name.copy(alloc)?;
        let entry = map_entry(name, places, at);
        entries.push(entry)?;
        at += 3;
    }
    Ok(entries)
}

/// The entry of a map, whose places stand from this one on.
fn map_entry(name: Text, places: &[usize], at: usize) -> MapEntry
    requires { at + 3 ≤ length places.now }
    ensures { result ≡ entry_from places.now at name }
{
    MapEntry {
        name,
        source: places[at],
        target: places[at + 1],
        arrow: places[at + 2],
    }
}

/// How many of the nodes are diagrams, and not arrows.
fn diagrams_among(nodes: &[Node]) -> usize
    ensures { result ≡ count_by is_diagram_node nodes.now }
{
    nodes
        .iter()
        .filter(|node| matches!(node, Node::Label(_) | Node::Diagram { .. }))
        .count()
}
