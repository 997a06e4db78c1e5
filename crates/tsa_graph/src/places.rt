//! The places of points in blocks.
ghost use Rattle.std.specs.Prelude.{◌≡◌, ◌<◌, ◌^◌, All, length, slice_set, IfOk};
ghost use Rattle.tsa_graph.specs.Placing.{AreSmall, IsPlaced, ArePut};

use crate::GraphBlock;
use crate::sequence::Place;
use std::alloc::Global;
use tsa_base::NoMemory;

/// Sets the place of a point.
fn put(places: &mut Vec<Place>, point: u32, place: Place)
    requires { point < length places.old.items }
    ensures { places.new.items ≡ slice_set places.old.items point place }
{
    places[point as usize] = place;
}

/// Sets the places of the points of a block, by its number.
fn place_block(places: &mut Vec<Place>, block: &GraphBlock, number: u32)
    requires count { length block.now.points.items < 2 ^ 32 }
    requires inside { All (λ p. p < length places.old.items) block.now.points.items }
    ensures { ArePut number block.now.points.items block.now.points.items places.old.items places.new.items }
{
    let count = block.points.len() as u32;
    'each: for index in 0..count {
        let place = Place {
            block: number,
            index,
        };
        put(places, block.points[index as usize], place);
    }
}

/// The places of so many points, by the blocks in which they stand.
pub fn places_of(alloc: Global, blocks: &[GraphBlock], points: u32) -> Result<Vec<Place>, NoMemory>
    requires { AreSmall points blocks.now }
    ensures size { IfOk result (λ places. length places.items ≡ points) }
    ensures placed { IfOk result (λ places. All (λ b. All (IsPlaced blocks.now places.items) b.points.items) blocks.now) }
{
    let mut places = vec![in alloc; Place { block: 0, index: 0 }; points as usize]?;
    let count = blocks.len() as u32;
    'each: for number in 0..count {
        place_block(&mut places, &blocks[number as usize], number);
    }
    Ok(places)
}
