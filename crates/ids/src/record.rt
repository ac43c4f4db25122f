ghost use Rattle.std.specs.Prelude.{◌≡◌, ℕ, ◌<◌, ◌≤◌, true, false, length, slice_index_or};
ghost use Rattle.ids.specs.Ids.{sound, live};
ghost use Rattle.ids.specs.Stack.{stack};

mod changes;
mod populate;
mod reads;

use crate::stack::Stack;

// All of its memory is fixed: no call allocates, and the places of weights are lent to each call. No `Model`:
// tried, and not proved, as that of a `Copy` type has to give its fields back, and `ids` forgets unused entries.
#[derive(Clone, Copy, Debug)]
pub struct IdStorage {
    upper_bound: usize,
    // the vacated ids
    removed_ids: Stack,
    // whether each id is live: without it a read walks the stack, and took ten times as long
    is_live: [bool; 256],
    ghost bounded: { upper_bound ≤ 255 },
    ghost fewer: { length (stack removed_ids) ≤ upper_bound },
    ghost once: { sound upper_bound (stack removed_ids) ≡ true },
    ghost table: { (k : ℕ) → k < 256 → slice_index_or is_live k false ≡ live (record { bound = upper_bound; stack = stack removed_ids }) k },
}
