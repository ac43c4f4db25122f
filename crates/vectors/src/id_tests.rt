// Calls on ids at the limits of the record and of the places.
use errors::MatrixError;
use ids::IdStorage;

// Adds until the first `count` places are full, and answers how many ids are live then.
fn fill(ids: &mut IdStorage, places: &mut [u16], count: usize) -> usize {
    for _ in 0..count {
        let _ = add_to(ids, places, count);
    }
    ids.len()
}

// Adds with the first `count` places alone.
fn add_to(ids: &mut IdStorage, places: &mut [u16], count: usize) -> Result<u8, MatrixError> {
    let places = places.get_mut(..count).ok_or(MatrixError::ShortMemory)?;
    ids.add(places, 7)
}

#[test]
fn places_and_ids_run_out(rt: HostRuntime) {
    let mut ids = IdStorage::new();
    let mut places = [9u16; 256];
    assert_eq!(rt;
        add_to(&mut ids, &mut places, 0),
        Err(MatrixError::NoSpace(1))
    );
    assert_eq!(rt; fill(&mut ids, &mut places, 254), 254);
    assert_eq!(rt;
        add_to(&mut ids, &mut places, 254),
        Err(MatrixError::NoSpace(255))
    );
    assert_eq!(rt;
        add_to(&mut ids, &mut places, 253),
        Err(MatrixError::ShortMemory)
    );
    assert_eq!(rt; add_to(&mut ids, &mut places, 255), Ok(254));
    assert_eq!(rt;
        add_to(&mut ids, &mut places, 256),
        Err(MatrixError::NodeIxLimit)
    );
    assert_eq!(rt; ids.get(&places, 254), Ok(Some(7)));
    assert_eq!(rt; ids.get(&places, 255), Ok(None));
    assert_eq!(rt; places.last(), Some(&9));
}

#[test]
fn vacated_ids_are_handed_out_again(rt: HostRuntime) {
    let mut ids = IdStorage::new();
    let mut places = [9u16; 4];
    assert_eq!(rt; fill(&mut ids, &mut places, 4), 4);
    assert_eq!(rt; ids.remove(&places, 1), Ok(7));
    assert_eq!(rt; ids.remove(&places, 3), Ok(7));
    assert_eq!(rt; ids.remove(&places, 1), Err(MatrixError::NodeMissed(1)));
    assert_eq!(rt; ids.remove(&places[..2], 0), Err(MatrixError::ShortMemory));
    assert_eq!(rt; ids.node_bound(), 3);
    assert_eq!(rt; ids.len(), 2);
    assert_eq!(rt; ids.is_live(1), false);
    // An id is at hand, so no new place is wanted.
    assert_eq!(rt; add_to(&mut ids, &mut places, 3), Ok(1));
    assert_eq!(rt;
        add_to(&mut ids, &mut places, 3),
        Err(MatrixError::NoSpace(4))
    );
    ids.clear();
    assert_eq!(rt; ids.len(), 0);
    assert_eq!(rt;
        ids.remove(&places[..0], 0),
        Err(MatrixError::NodeMissed(0))
    );
    assert_eq!(rt; add_to(&mut ids, &mut places, 1), Ok(0));
}
