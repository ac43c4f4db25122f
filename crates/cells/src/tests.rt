// What `Zero` says of each kind of integers: the sentinel is the kind's own 0, and `is_zero` tests for it.
ghost use Rattle.std.specs.Prelude.{◌≡◌, ℕ, ℤ, pos, IsTrue, ◌↔◌, ◌==◌};

use crate::Zero;

fn check_unsigned()
    ensures u8 { (⟦<u8 as Zero>⟧.sentinel ≡ 0) × ((x : ℕ) → ⟦<u8 as Zero>⟧.is_sentinel x ≡ (x == 0)) }
    ensures u16 { (⟦<u16 as Zero>⟧.sentinel ≡ 0) × ((x : ℕ) → ⟦<u16 as Zero>⟧.is_sentinel x ≡ (x == 0)) }
    ensures u32 { (⟦<u32 as Zero>⟧.sentinel ≡ 0) × ((x : ℕ) → ⟦<u32 as Zero>⟧.is_sentinel x ≡ (x == 0)) }
    ensures u64 { (⟦<u64 as Zero>⟧.sentinel ≡ 0) × ((x : ℕ) → ⟦<u64 as Zero>⟧.is_sentinel x ≡ (x == 0)) }
    ensures u128 { (⟦<u128 as Zero>⟧.sentinel ≡ 0) × ((x : ℕ) → ⟦<u128 as Zero>⟧.is_sentinel x ≡ (x == 0)) }
    ensures usize { (⟦<usize as Zero>⟧.sentinel ≡ 0) × ((x : ℕ) → ⟦<usize as Zero>⟧.is_sentinel x ≡ (x == 0)) }
{}

fn check_signed()
    ensures i8 { (⟦<i8 as Zero>⟧.sentinel ≡ pos 0) × ((x : ℤ) → IsTrue (⟦<i8 as Zero>⟧.is_sentinel x) ↔ (x ≡ pos 0)) }
    ensures i16 { (⟦<i16 as Zero>⟧.sentinel ≡ pos 0) × ((x : ℤ) → IsTrue (⟦<i16 as Zero>⟧.is_sentinel x) ↔ (x ≡ pos 0)) }
    ensures i32 { (⟦<i32 as Zero>⟧.sentinel ≡ pos 0) × ((x : ℤ) → IsTrue (⟦<i32 as Zero>⟧.is_sentinel x) ↔ (x ≡ pos 0)) }
    ensures i64 { (⟦<i64 as Zero>⟧.sentinel ≡ pos 0) × ((x : ℤ) → IsTrue (⟦<i64 as Zero>⟧.is_sentinel x) ↔ (x ≡ pos 0)) }
    ensures i128 { (⟦<i128 as Zero>⟧.sentinel ≡ pos 0) × ((x : ℤ) → IsTrue (⟦<i128 as Zero>⟧.is_sentinel x) ↔ (x ≡ pos 0)) }
    ensures isize { (⟦<isize as Zero>⟧.sentinel ≡ pos 0) × ((x : ℤ) → IsTrue (⟦<isize as Zero>⟧.is_sentinel x) ↔ (x ≡ pos 0)) }
{}

#[test]
fn each_kind_has_its_own_zero() {
    check_unsigned();
    check_signed();
}
