// Growth for any layout, by its laws alone: the cells move in runs that go equally far, the last run first.
ghost use Rattle.std.specs.Prelude.{◌≡◌, ℕ, ◌-◌, ◌<◌, ◌≤◌, length, IfSome, IfNone};
ghost use Rattle.layouts.specs.Capacities.{size};
ghost use Rattle.rows.specs.Rows.{grown, moves_by};
ghost use Rattle.rows.specs.Runs.{IsRun};

use crate::fill;
use crate::run::Run;
use cells::Nullable;
use layouts::{Capacity, EdgeType};

// Each pair of the old capacity gets its new cell with what it held; every other cell in use becomes empty.
pub fn grow<C: Nullable, L: EdgeType>(
    cells: &mut [C],
    layout: L,
    capacity: Capacity,
    node_count: Capacity,
) -> Capacity
    requires { (size capacity < size node_count) × (L.EdgeType.total (L.EdgeType.wide (size node_count)) ≤ length cells.old) }
    ensures capacity { size result ≡ L.EdgeType.wide (size node_count) }
    ensures cells { cells.new ≡ grown C.Nullable.own L.EdgeType (size capacity) (L.EdgeType.wide (size node_count)) cells.old }
{
    let growth = Growth {
        layout,
        from: capacity,
        to: layout.grown_capacity(node_count),
    };
    let mut end = layout.cell_count(growth.from);
    let mut top = layout.cell_count(growth.to);
    while let Some(run) = growth.last_run(end) {
        run.lift(cells, top);
        end = run.start;
        top = run.start + run.shift;
    }
    fill(&mut cells[end..top]);
    growth.to
}

// A layout that grows from one capacity to the next.
#[derive(Clone, Copy, Debug)]
struct Growth<L> {
    layout: L,
    from: Capacity,
    to: Capacity,
}

impl<L: EdgeType> Growth<L> {
    // The run that ends at `end`, unless its cells stay.
    fn last_run(self, end: usize) -> Option<Run>
        ensures some { IfSome result (λ run. (run.end ≡ end) × IsRun L.EdgeType (size self.from) (size self.to) run.start end run.shift) }
        ensures none { IfNone result (0 < end → moves_by L.EdgeType (size self.from) (size self.to) (end - 1) ≡ 0) }
    {
        let last = end.checked_sub(1)?;
        let shift = self.shift(last);
        if shift == 0 {
            return None;
        }
        let start = self.run_start(last, shift);
        Some(Run { start, end, shift })
    }

    // How far up a cell goes.
    fn shift(self, position: usize) -> usize
        ensures { result ≡ moves_by L.EdgeType (size self.from) (size self.to) position }
    {
        self.layout
            .to_pair(self.from, position)
            .and_then(|(row, column)| self.layout.to_edge_position(self.to, row, column))
            .map_or(0, |target| target.saturating_sub(position))
    }

    // A cell that goes so far, or farther, where the one before it does not.
    fn run_start(self, position: usize, distance: usize) -> usize
        requires { distance ≤ moves_by L.EdgeType (size self.from) (size self.to) position }
        ensures within { result ≤ position }
        ensures here { distance ≤ moves_by L.EdgeType (size self.from) (size self.to) result }
        ensures before { 0 < result → moves_by L.EdgeType (size self.from) (size self.to) (result - 1) < distance }
    {
        // By halves: `partition_point` would need a slice of the distances, and there is no heap to hold one.
        let mut low = 0;
        let mut high = position;
        while low < high {
            let middle = low.midpoint(high);
            if self.shift(middle) < distance {
                low = middle + 1;
            } else {
                high = middle;
            }
        }
        low
    }
}
