use crate::Run;
use std::test::Fail;
use store::{BucketStore, StoreFault};

#[test]
fn takes_512_consecutive_indices(rt: HostRuntime) -> Result<(), Fail> {
    let mut run = Run::new();
    for index in -100..412 {
        run.add(index)?;
    }
    assert_eq!(rt; run.add(412), Err(StoreFault::NoRoom(412)));
    assert_eq!(rt; run.size(), 512);
    run.add(411)?;
    assert_eq!(rt; run.pair(511), Some((411, 2)));
    Ok(())
}

#[test]
fn halves_across_zero(rt: HostRuntime) -> Result<(), Fail> {
    let mut run = Run::new();
    for index in -2..2 {
        run.add(index)?;
    }
    run.halve();
    assert_eq!(rt; run.take_lowest(), Some((-1, 1)));
    assert_eq!(rt; run.take_lowest(), Some((0, 2)));
    assert_eq!(rt; run.pair(0), Some((1, 1)));
    Ok(())
}

#[test]
fn moves_its_window(rt: HostRuntime) -> Result<(), Fail> {
    let mut run = Run::new();
    run.add(0)?;
    run.add(511)?;
    assert!(rt; !run.has_room(512));
    assert_eq!(rt; run.take_lowest(), Some((0, 1)));
    assert!(rt; run.has_room(1022));
    Ok(())
}
