// Every weight can be held.
ghost use Rattle.std.specs.Prelude.{Some, None};
ghost use Rattle.std.proofs.Common.{rules};

use crate::Nullable;

impl<T: Copy> Nullable for Option<T> {
    type Wrapped = T;

    ghost means = { λ x. x };

    ghost empty = { None };

    ghost holding = { λ w. Some (Some w) };

    ghost lawful = { Prim.search rules };

    ghost default_is_empty = { Prim.search rules };

    fn new(value: T) -> Option<Option<T>> {
        Some(Some(value))
    }

    fn as_ref(&self) -> Option<&T> {
        self.as_ref()
    }

    fn is_null(&self) -> bool {
        self.is_none()
    }
}
