// Keeping the head.
use crate::{refused, served, state};
use one_hot::OneHot;
use snapshot::Snapshot;
use std::test::Fail;

#[test]
fn images(rt: HostRuntime) -> Result<(), Fail> {
    let s = state(4, 1, None);
    assert!(rt; OneHot(s).read(&[0, 0, 1, 0]) == served(state(4, 1, Some(2))));
    assert!(rt; refused(OneHot(s).read(&[0, 1, 0, 1]).outcome) == (10, 3));
    let mut image = [7; 4];
    let s = state(4, 1, Some(2));
    assert!(rt; OneHot(s).write(&mut image) == served(s));
    assert!(rt; image == [0, 0, 1, 0]);
    Ok(())
}

#[test]
fn snapshots_read(rt: HostRuntime) -> Result<(), Fail> {
    assert!(rt; Snapshot::read(&[3, 0, 2, 1, 0, 1]) == served(state(4, 2, Some(1))));
    assert!(rt; Snapshot::read(&[255, 3, 8, 255, 3, 1]) == served(state(1024, 8, Some(1023))));
    assert!(rt; refused(Snapshot::read(&[3, 0, 2, 1, 0, 2]).outcome) == (8, 5));
    assert!(rt; refused(Snapshot::read(&[0, 4, 1, 0, 0, 0]).outcome) == (1, 0));
    assert!(rt; refused(Snapshot::read(&[3, 0, 2, 0, 1, 0]).outcome) == (4, 0));
    assert!(rt; Snapshot::read(&[3, 2, 1, 1]) == served(state(4, 2, Some(1))));
    assert!(rt; refused(Snapshot::read(&[3, 2, 1, 2]).outcome) == (8, 3));
    assert!(rt; refused(Snapshot::read(&[3, 2, 1, 0]).outcome) == (4, 0));
    assert!(rt; refused(Snapshot::read(&[3, 0, 2, 1, 0]).outcome) == (5, 0));
    Ok(())
}

#[test]
fn snapshots_written(rt: HostRuntime) -> Result<(), Fail> {
    let mut snapshot = [7; 6];
    let s = state(4, 2, None);
    assert!(rt; Snapshot(s).write(&mut snapshot) == served(s));
    assert!(rt; snapshot == [3, 0, 2, 0, 0, 0]);
    assert!(rt; refused(Snapshot(s).write(&mut snapshot[..4]).outcome) == (6, 0));
    Ok(())
}
