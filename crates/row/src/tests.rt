use crate::Row;
use std::test::Fail;
use store::{BucketStore, StoreFault};

// The refusal's number, if the index was turned away.
fn refusal(added: Result<(), StoreFault>) -> Option<u8> {
    added.err().map(|fault| fault.number())
}

#[test]
fn fills_to_the_brim(rt: HostRuntime) -> Result<(), Fail> {
    let mut row = Row::new();
    for index in 0..320 {
        assert!(rt; row.has_room(index));
        row.add(index)?;
    }
    assert_eq!(rt; row.size(), 320);
    assert!(rt; !row.has_room(320));
    assert_eq!(rt; refusal(row.add(320)), Some(7));
    row.add(0)?;
    assert_eq!(rt; row.size(), 320);
    assert_eq!(rt; row.pair(0), Some((0, 2)));
    assert_eq!(rt; row.pair(319), Some((319, 1)));
    Ok(())
}

#[test]
fn adds_in_any_order(rt: HostRuntime) -> Result<(), Fail> {
    let mut row = Row::new();
    for index in [5, -3, 9, 0, -3, 7] {
        row.add(index)?;
    }
    assert_eq!(rt; row.size(), 5);
    assert_eq!(rt; row.pair(0), Some((-3, 2)));
    assert_eq!(rt; row.take_lowest(), Some((-3, 2)));
    assert_eq!(rt; row.take_lowest(), Some((0, 1)));
    assert_eq!(rt; row.pair(2), Some((9, 1)));
    assert_eq!(rt; row.pair(3), None);
    Ok(())
}

#[test]
fn halves_across_zero(rt: HostRuntime) -> Result<(), Fail> {
    let mut row = Row::new();
    for index in [-3, -2, -1, 0, 1, 2, 3] {
        row.add(index)?;
    }
    row.halve();
    assert_eq!(rt; row.size(), 4);
    assert_eq!(rt; row.pair(0), Some((-1, 2)));
    assert_eq!(rt; row.pair(1), Some((0, 2)));
    assert_eq!(rt; row.pair(2), Some((1, 2)));
    assert_eq!(rt; row.pair(3), Some((2, 1)));
    Ok(())
}

#[test]
fn turned_away_and_cleared(rt: HostRuntime) -> Result<(), Fail> {
    let mut row = Row::new();
    row.add(262_145)?;
    assert_eq!(rt; refusal(row.add(262_146)), Some(8));
    assert_eq!(rt; refusal(row.add(-274_945)), Some(8));
    assert_eq!(rt; row.size(), 1);
    assert_eq!(rt; row.pair(0), Some((262_145, 1)));
    row.clear();
    assert_eq!(rt; row.size(), 0);
    assert_eq!(rt; row.take_lowest(), None);
    Ok(())
}
