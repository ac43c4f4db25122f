ghost use Rattle.std.specs.Prelude.{◌≡◌, ℕ, Option};
ghost use Rattle.layouts.specs.Capacities.{size};
ghost use Rattle.layouts.specs.Laws.{EveryPair, Growing, Placing};

use crate::Capacity;

// A layout of pairs, alike for every value of its kind.
pub trait EdgeType: Copy {
    // the count of cells at a capacity
    ghost total: { ℕ → ℕ };

    // the cell of a pair at a capacity: row, then column
    ghost place: { ℕ → ℕ → ℕ → Option ℕ };

    // the pair that a cell names at a capacity
    ghost named: { ℕ → ℕ → Option (ℕ × ℕ) };

    // the capacity grown to for so many ids
    ghost wide: { ℕ → ℕ };

    fn cell_count(self, capacity: Capacity) -> usize
        ensures { result ≡ total (size capacity) };

    fn to_edge_position(self, capacity: Capacity, row: u8, column: u8) -> Option<usize>
        ensures { result ≡ place (size capacity) row column };

    fn to_pair(self, capacity: Capacity, position: usize) -> Option<(u8, u8)>
        ensures { result ≡ named (size capacity) position };

    fn grown_capacity(self, node_count: Capacity) -> Capacity
        ensures { size result ≡ wide (size node_count) };

    ghost every_pair: { EveryPair place };

    ghost placing: { Placing total place named };

    ghost growing: { Growing total place wide };
}
