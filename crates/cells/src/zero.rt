ghost use Rattle.std.specs.Prelude.{◌≡◌, Bool, true};
ghost use Rattle.std.proofs.Common.{rules};

use num_traits::PrimInt;

// A kind of weights of which one value, the sentinel, marks that there is no edge.
pub trait Zero: Copy {
    ghost sentinel: { Self };

    ghost is_sentinel: { Self → Bool };

    fn zero() -> Self
        ensures { result ≡ sentinel };

    fn is_zero(&self) -> bool
        ensures { result ≡ is_sentinel self.now };

    ghost sentinel_is: { is_sentinel sentinel ≡ true };

    ghost sentinel_alone: { (x : Self) → is_sentinel x ≡ true → x ≡ sentinel };
}

// Of integers it is the number zero.
impl<T: PrimInt> Zero for T {
    ghost sentinel = { T.zero };

    ghost is_sentinel = { λ x. T.eq x T.zero };

    ghost sentinel_is = { Prim.search rules };

    ghost sentinel_alone = { Prim.search rules };

    fn zero() -> T {
        num_traits::Zero::zero()
    }

    fn is_zero(&self) -> bool {
        num_traits::Zero::is_zero(self)
    }
}
