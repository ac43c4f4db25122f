ghost use Rattle.std.specs.Prelude.{◌≡◌, ◌+◌, ◌≤◌, length};
ghost use Rattle.rows.specs.Rows.{lifted};

use crate::fill;
use cells::Nullable;

// Cells in a row that go equally far up.
#[derive(Clone, Copy, Debug, PartialEq, Eq)]
pub(crate) struct Run {
    pub(crate) start: usize,
    pub(crate) end: usize,
    pub(crate) shift: usize,
}

impl Run {
    // Moves the cells up, and empties those from there to `top`.
    pub(crate) fn lift<C: Nullable>(self, cells: &mut [C], top: usize)
        requires { (self.start ≤ self.end) × ((self.end + self.shift ≤ top) × (top ≤ length cells.old)) }
        ensures { cells.new ≡ lifted C.Nullable.own self.start self.end self.shift top cells.old }
    {
        fill(&mut cells[self.end + self.shift..top]);
        cells.copy_within(self.start..self.end, self.start + self.shift);
    }
}
