// What cells of each kind mean.
use cells::{NotZero, Nullable};
use weights::{StaggerCell, Tie, TieCell};

// The weight that is read from a cell of the kind that was made to hold it.
fn held<C: Nullable>(weight: C::Wrapped) -> Option<C::Wrapped> {
    let cell = C::new(weight)?;
    cell.as_ref().copied()
}

// Whether the default cell is null, and reads nothing.
fn default_is_null<C: Nullable>() -> bool {
    let cell = C::default();
    cell.is_null() && cell.as_ref().is_none()
}

#[test]
fn a_stagger_is_any_number_but_zero(rt: HostRuntime) {
    assert_eq!(rt; held::<StaggerCell>(-25), Some(-25));
    assert_eq!(rt; held::<StaggerCell>(1), Some(1));
    assert_eq!(rt; held::<StaggerCell>(-2147483648), Some(-2147483648));
    assert_eq!(rt; held::<StaggerCell>(2147483647), Some(2147483647));
    assert_eq!(rt; held::<StaggerCell>(0), None);
    assert!(rt; default_is_null::<StaggerCell>());
}

#[test]
fn a_tie_of_zeros_is_held(rt: HostRuntime) {
    let none = Tie {
        feeder: 0,
        length: 0,
    };
    let most = Tie {
        feeder: 255,
        length: 65535,
    };
    assert_eq!(rt; held::<TieCell>(none), Some(none));
    assert_eq!(rt; held::<TieCell>(most), Some(most));
    assert!(rt; default_is_null::<TieCell>());
}

#[test]
fn numbers_of_every_width_are_held(rt: HostRuntime) {
    assert_eq!(rt;
        held::<NotZero<u64>>(18446744073709551615),
        Some(18446744073709551615)
    );
    assert_eq!(rt; held::<NotZero<u64>>(0), None);
    assert_eq!(rt; held::<NotZero<i8>>(-128), Some(-128));
    assert_eq!(rt; held::<NotZero<i8>>(0), None);
    assert_eq!(rt; held::<Option<u8>>(0), Some(0));
}
