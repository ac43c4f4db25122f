ghost use Rattle.std.specs.Prelude.{◌≡◌, length, replicate};

use cells::Nullable;

// Makes every cell of a part empty.
pub fn fill<C: Nullable>(part: &mut [C])
    ensures { part.new ≡ replicate (length part.old) C.Nullable.empty }
{
    // Not by `fill`: it clones, and no bound says that a clone of `C` is the same cell.
    let empty = C::default();
    part.fill_with(|| empty);
}
