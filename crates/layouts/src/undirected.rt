// The triangle: one cell for a pair and its mirror.
ghost use Rattle.std.specs.Prelude.{◌≡◌, ℕ, ◌+◌, ◌<◌, ◌≤◌, Some};
ghost use Rattle.layouts.specs.Capacities.{size};
ghost use Rattle.layouts.specs.Triangle.{named, place, row, start, total, wide};
ghost use Rattle.layouts.specs.TriangleLemmas.{every_pair, growing, placing};

use crate::row_starts::{row_start, row_starts};
use crate::{Capacity, EdgeType};
use std::cmp;

#[derive(Clone, Copy, Debug, Default, PartialEq, Eq)]
pub struct Undirected;

impl EdgeType for Undirected {
    ghost total = { total };

    ghost place = { place };

    ghost named = { named };

    ghost wide = { wide };

    ghost every_pair = { every_pair };

    ghost placing = { placing };

    ghost growing = { growing };

    fn cell_count(self, capacity: Capacity) -> usize {
        row_start(capacity.get())
    }

    fn to_edge_position(self, capacity: Capacity, row: u8, column: u8) -> Option<usize>
        ensures value { result ≡ place (size capacity) row column }
        ensures mirrored { result ≡ place (size capacity) column row }
    {
        let larger = usize::from(cmp::max(row, column));
        let smaller = usize::from(cmp::min(row, column));
        if larger >= capacity.get() {
            return None;
        }
        Some(row_start(larger) + smaller)
    }

    fn to_pair(self, capacity: Capacity, position: usize) -> Option<(u8, u8)>
        ensures value { result ≡ named (size capacity) position }
        ensures lower { (row column : ℕ) → result ≡ Some (row, column) → column ≤ row }
    {
        if position >= self.cell_count(capacity) {
            return None;
        }
        let row = row_of(capacity, position);
        let column = position - row_start(row);
        // Exact, as both are below the capacity, which is at most 256; `try_from` is no plainer: it adds an error that can't occur.
        Some((row as u8, column as u8))
    }

    fn grown_capacity(self, node_count: Capacity) -> Capacity {
        node_count
    }
}

// The row of a cell below the count: the last that starts at the cell or before.
fn row_of(capacity: Capacity, position: usize) -> usize
    requires { position < total (size capacity) }
    ensures value { result ≡ row (size capacity) position }
    ensures before { start result ≤ position }
    ensures after { position ≤ start result + result }
    ensures within { result < size capacity }
{
    // Row 0 starts at cell 0, so only the later rows are searched.
    let starts = &row_starts()[1..capacity.get()];
    starts.partition_point(|&start| usize::from(start) <= position)
}
