// Row 0 and column 0 are one; every other pair has a cell of its own.
ghost use Rattle.std.specs.Prelude.{◌≡◌, ℕ, ◌<◌, Some};
ghost use Rattle.layouts.specs.Capacities.{size};
ghost use Rattle.uneven.specs.Uneven.{Alike, Outer, cell, named, pair, place, total, wide};
ghost use Rattle.uneven.specs.UnevenLemmas.{every_pair, growing, placing};

use layouts::{Capacity, EdgeType};
use std::cmp;

#[derive(Clone, Copy, Debug, Default, PartialEq, Eq)]
pub struct Uneven;

impl EdgeType for Uneven {
    ghost total = { total };

    ghost place = { place };

    ghost named = { named };

    ghost wide = { wide };

    ghost every_pair = { every_pair };

    ghost placing = { placing };

    ghost growing = { growing };

    fn cell_count(self, capacity: Capacity) -> usize {
        let width = capacity.get();
        let inner = width.saturating_sub(1);
        width + inner * inner
    }

    fn to_edge_position(self, capacity: Capacity, row: u8, column: u8) -> Option<usize>
        ensures value { result ≡ place (size capacity) row column }
        ensures mirrored { Outer row column → result ≡ place (size capacity) column row }
        ensures alone { (a b k : ℕ) → result ≡ Some k → place (size capacity) a b ≡ Some k → Alike row column a b }
    {
        let (row, column) = (usize::from(row), usize::from(column));
        if cmp::max(row, column) >= capacity.get() {
            return None;
        }
        Some(cell_of(capacity, row, column))
    }

    fn to_pair(self, capacity: Capacity, position: usize) -> Option<(u8, u8)> {
        if position >= self.cell_count(capacity) {
            return None;
        }
        Some(pair_of(capacity, position))
    }

    fn grown_capacity(self, node_count: Capacity) -> Capacity {
        Capacity::saturating(node_count.get() + 3)
    }
}

// The cell of a pair below the capacity.
fn cell_of(capacity: Capacity, row: usize, column: usize) -> usize
    requires row_below { row < size capacity }
    requires column_below { column < size capacity }
    ensures { result ≡ cell (size capacity) row column }
{
    if row == 0 {
        return column;
    }
    if column == 0 {
        return row;
    }
    let width = capacity.get();
    width + (row - 1) * (width - 1) + (column - 1)
}

// The pair of a cell below the count.
fn pair_of(capacity: Capacity, position: usize) -> (u8, u8)
    requires { position < total (size capacity) }
    ensures { result ≡ pair (size capacity) position }
{
    // Each `as` is exact, as the numbers are below the width, which is at most 256; `try_from` is no plainer: it adds an error that can't occur.
    let width = capacity.get();
    if position < width {
        return (position as u8, 0);
    }
    let inner = position - width;
    let row = 1 + inner / (width - 1);
    let column = 1 + inner % (width - 1);
    (row as u8, column as u8)
}
