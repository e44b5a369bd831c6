ghost use Rattle.std.specs.Prelude.{◌≡◌, IfOk, length};
ghost use Rattle.height_order.specs.Shapes.{shape_of};
ghost use Rattle.height_order.specs.Places.{AreMembers, AreJoins};
ghost use Rattle.diagram_terms.specs.HeightClasses.{IsHeightShape};

use crate::classes::Join;
use crate::height_map::HeightMap;
use std::alloc::{AllocError, Global};

/// The members of a shape, object by object, and the place at which those of each object begin.
#[derive(Drop)]
pub struct Places {
    pub members: Vec<(usize, usize)>,
    pub first: Vec<usize>,
}

/// The places of the heights of objects with these lengths.
pub fn place_members(alloc: Global, lengths: &[usize]) -> Result<Places, AllocError>
    ensures { IfOk result (λ p. AreMembers lengths.now p.first.items p.members.items) }
{
    let mut members = Vec::new(alloc);
    let mut first = Vec::new(alloc);
    for object in 0..lengths.len() {
        first.push(members.len())?;
        for height in 0..lengths[object] {
            members.push((object, height))?;
        }
    }
    Ok(Places { members, first })
}

/// The places that the maps join.
pub fn joins(
    alloc: Global,
    places: &Places,
    lengths: &[usize],
    maps: &[HeightMap],
) -> Result<Vec<Join>, AllocError>
    requires members { AreMembers lengths.now places.now.first.items places.now.members.items }
    requires maps { IsHeightShape (shape_of lengths.now maps.now) }
    ensures { IfOk result (λ joins.
        AreJoins places.now.first.items (shape_of lengths.now maps.now).maps joins.items) }
{
    let mut joins = Vec::new(alloc);
    for map in maps {
        for (height, image) in map.heights.heights.as_slice().iter().enumerate() {
            joins.push(Join {
                one: places.first[map.from] + height,
                other: places.first[map.to] + *image,
            })?;
        }
    }
    Ok(joins)
}
