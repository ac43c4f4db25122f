// Every weight but zero can be held: zero marks that there is none.
ghost use Rattle.std.specs.Prelude.{◌≡◌, if◌then◌else◌, Some, None};
ghost use Rattle.cells.specs.Marked.{marked};
ghost use Rattle.std.proofs.Common.{rules};

use crate::{Nullable, Zero};

#[derive(Clone, Copy, Debug, PartialEq, Eq)]
pub struct NotZero<T>(T);

// The sentinel, which need not be the weights' own `Default`, as a derive would take.
impl<T: Zero> Default for NotZero<T> {
    ghost is_default = { λ x. x ≡ record { 0 = T.sentinel } };

    fn default() -> NotZero<T> {
        NotZero(T::zero())
    }
}

impl<T: Zero> Nullable for NotZero<T> {
    type Wrapped = T;

    ghost means = { λ x. (if T.is_sentinel x.0 then None else Some x.0) };

    ghost empty = { record { 0 = T.sentinel } };

    ghost holding = { λ w. (if T.is_sentinel w then None else Some (record { 0 = w })) };

    ghost lawful = { marked _ _ T.sentinel_is T.sentinel_alone };

    ghost default_is_empty = { Prim.search rules };

    fn new(value: T) -> Option<NotZero<T>> {
        (!value.is_zero()).then_some(NotZero(value))
    }

    fn as_ref(&self) -> Option<&T> {
        (!self.is_null()).then_some(&self.0)
    }

    fn is_null(&self) -> bool {
        self.0.is_zero()
    }
}
