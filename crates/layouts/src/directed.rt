// The square: a cell for each pair, the mirrored one apart.
ghost use Rattle.std.specs.Prelude.{◌≡◌};
ghost use Rattle.layouts.specs.Capacities.{size};
ghost use Rattle.layouts.specs.Square.{doubled, named, place, total, wide};
ghost use Rattle.layouts.specs.SquareLemmas.{every_pair, growing, placing};

use crate::{Capacity, EdgeType};
use std::cmp;

const MIN_CAPACITY: usize = 4;

#[derive(Clone, Copy, Debug, Default, PartialEq, Eq)]
pub struct Directed;

impl EdgeType for Directed {
    ghost total = { total };

    ghost place = { place };

    ghost named = { named };

    ghost wide = { wide };

    ghost every_pair = { every_pair };

    ghost placing = { placing };

    ghost growing = { growing };

    fn cell_count(self, capacity: Capacity) -> usize {
        let width = capacity.get();
        width * width
    }

    fn to_edge_position(self, capacity: Capacity, row: u8, column: u8) -> Option<usize> {
        let width = capacity.get();
        let (row, column) = (usize::from(row), usize::from(column));
        if cmp::max(row, column) >= width {
            return None;
        }
        Some(row * width + column)
    }

    fn to_pair(self, capacity: Capacity, position: usize) -> Option<(u8, u8)> {
        let width = capacity.get();
        if position >= self.cell_count(capacity) {
            return None;
        }
        // Exact, as both are below the width, which is at most 256; `try_from` is no plainer: it adds an error that can't occur.
        let row = (position / width) as u8;
        let column = (position % width) as u8;
        Some((row, column))
    }

    fn grown_capacity(self, node_count: Capacity) -> Capacity {
        Capacity::saturating(cmp::max(least_power(node_count), MIN_CAPACITY))
    }
}

// The least power of two that is at least so many.
fn least_power(node_count: Capacity) -> usize
    ensures { result ≡ doubled 8 1 (size node_count) }
{
    node_count.get().next_power_of_two()
}
