ghost use Rattle.std.specs.Prelude.{◌≡◌, ◌≤◌, min};

use std::cmp;

// All ids below it can have cells: at most 256 of them. No `Model`: with a number as its value the bound would not be
// known behind a reference, and with the bound in the value equal capacities would not be found the same.
#[derive(Clone, Copy, Debug, PartialEq, Eq, PartialOrd, Ord)]
pub struct Capacity {
    value: usize,
    ghost small: { value ≤ 256 },
}

impl Capacity {
    ghost use Rattle.layouts.specs.Capacities.{size};

    // The greatest, 256, for every value above it.
    pub fn saturating(value: usize) -> Capacity
        ensures { size result ≡ min value 256 }
    {
        Capacity {
            value: cmp::min(value, 256),
        }
    }

    pub fn get(self) -> usize
        ensures value { result ≡ size self }
        ensures bound { result ≤ 256 }
    {
        self.value
    }
}
