// The model for the tests.
use reference::{Cycle, codes};
use std::test::Fail;

#[test]
fn counts_by_distance(rt: HostRuntime) -> Result<(), Fail> {
    let cycle = Cycle {
        width: 4,
        picks: 2,
        head: Some(2),
        requests: &[1, 1, 0, 1],
    };
    assert!(rt; (cycle.distance(1), cycle.distance(4)) == (3, 0));
    assert!(rt; (cycle.away(3), cycle.away(4)) == (1, 2));
    assert!(rt; (cycle.granted(3), cycle.granted(0), cycle.granted(1)) == (true, true, false));
    assert!(rt; (cycle.ahead(0), cycle.ahead(1)) == (1, 2));
    assert!(rt; (cycle.count(), cycle.more(), cycle.next()) == (2, true, 1));
    Ok(())
}

#[test]
fn moves_token_and_joins(rt: HostRuntime) -> Result<(), Fail> {
    let cycle = Cycle {
        width: 4,
        picks: 1,
        head: Some(2),
        requests: &[1, 1, 0, 0],
    };
    assert!(rt; (cycle.next_token(true), cycle.next_token(false)) == (3, 2));
    assert!(rt; (cycle.node(0, 4), cycle.node(0, 2)) == (2, 1));
    Ok(())
}

#[test]
fn sums_codes(rt: HostRuntime) -> Result<(), Fail> {
    assert!(rt; (codes::is_code(2, 0b11), codes::is_code(2, 0b10)) == (true, false));
    assert!(rt; codes::sum(2, 0b11, 0b01) == Some((0b11, true)));
    Ok(())
}
