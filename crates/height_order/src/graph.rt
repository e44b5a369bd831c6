ghost use Rattle.std.specs.Prelude.{◌≡◌, IfOk};
ghost use Rattle.diagram_terms.specs.HeightClasses.{IsHeightShape};
ghost use Rattle.height_order.specs.Graph.{IsGraph};
ghost use Rattle.height_order.specs.Shapes.{shape_of};

use crate::classes::classes;
use crate::height_map::HeightMap;
use crate::places::{Places, joins, place_members};
use crate::reach::{Edge, edges};
use std::alloc::{AllocError, Global};

/// The members of a shape, the class of each, and the steps between the classes.
#[derive(Drop)]
pub struct Graph {
    pub places: Places,
    pub classes: Vec<usize>,
    pub edges: Vec<Edge>,
}

/// The graph of the shape of these lengths and maps.
pub fn make_graph(alloc: Global, lengths: &[usize], maps: &[HeightMap]) -> Result<Graph, AllocError>
    requires { IsHeightShape (shape_of lengths.now maps.now) }
    ensures { IfOk result (λ g. IsGraph (shape_of lengths.now maps.now)
        g.places.first.items g.places.members.items g.classes.items g.edges.items) }
{
    let places = place_members(alloc, lengths)?;
    let joins = joins(alloc, &places, lengths, maps)?;
    let classes = classes(alloc, places.members.len(), &joins)?;
    let edges = edges(alloc, &places.members, &classes)?;
    Ok(Graph {
        places,
        classes,
        edges,
    })
}
