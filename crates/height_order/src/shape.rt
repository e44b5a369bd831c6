ghost use Rattle.std.specs.Prelude.{◌↔◌, [], IsTrue};
ghost use Rattle.diagram_terms.specs.HeightClasses.{IsHeightMap, IsHeightShape};
ghost use Rattle.height_order.specs.Shapes.{as_map, shape_of};

use crate::height_map::HeightMap;

/// Whether the maps go between objects with these lengths.
pub fn is_shape(lengths: &[usize], maps: &[HeightMap]) -> bool
    ensures { IsTrue result ↔ IsHeightShape (shape_of lengths.now maps.now) }
{
    for map in maps {
        if !is_between(lengths, map) {
            return false;
        }
    }
    true
}

fn is_between(lengths: &[usize], map: &HeightMap) -> bool
    ensures { IsTrue result ↔ IsHeightMap (shape_of lengths.now []) (as_map map.now) }
{
    if map.from >= lengths.len() || map.to >= lengths.len() {
        return false;
    }
    let heights = map.heights.heights.as_slice();
    heights.len() == lengths[map.from] && heights.iter().all(|height| *height < lengths[map.to])
}
