//! Cycles, by value and in place.
use crate::{granted, refused, state};
use arbiter::engine::RoundRobin;
use arbiter::{Granted, decide};
use backlog::Backlog;
use engines::{Dispatch, Engine};
use kogge_stone::KoggeStone;
use packed_scan::PackedScan;
use scan::Scan;
use std::test::Fail;
use thermometer::Thermometer;
use token_bus::TokenBus;
use tree::Tree;

#[test]
fn scan_grants(rt: HostRuntime) -> Result<(), Fail> {
    let mut grants = [7; 4];
    let scan = Scan(state(4, 2, Some(3)));
    assert!(rt; scan.cycle(&[1, 1, 1, 1], &mut grants) == granted(2, state(4, 2, Some(1)), true));
    assert!(rt; grants == [1, 0, 0, 1]);
    assert!(rt; scan.cycle(&[1, 0, 0, 1], &mut grants) == granted(2, state(4, 2, Some(1)), false));
    assert!(rt; grants == [1, 0, 0, 1]);
    Ok(())
}

// In place, each engine and each buffer once more.
#[test]
fn scan_advances(rt: HostRuntime) -> Result<(), Fail> {
    let mut grants = [7; 4];
    let mut scan = Scan(state(4, 2, Some(3)));
    let granted = Granted {
        count: 2,
        more: true,
    };
    assert!(rt; scan.advance(&[1, 1, 1, 1], &mut grants) == Ok(granted));
    assert!(rt; (scan.0, grants) == (state(4, 2, Some(1)), [1, 0, 0, 1]));
    assert!(rt; refused(scan.advance(&[1, 2, 1, 1], &mut grants)) == (8, 1));
    assert!(rt; (scan.0, grants) == (state(4, 2, Some(1)), [1, 0, 0, 1]));
    Ok(())
}

#[test]
fn others_advance(rt: HostRuntime) -> Result<(), Fail> {
    let mut grants = [7; 4];
    let mut nodes = [7; 8];
    let granted = Granted {
        count: 1,
        more: true,
    };
    let mut tree = Tree(state(4, 1, Some(2)));
    assert!(rt; tree.advance(&[1, 1, 0, 0], &mut grants, &mut nodes) == Ok(granted));
    assert!(rt; tree.0 == state(4, 1, Some(1)));
    let mut bus = TokenBus(state(4, 1, Some(2)));
    assert!(rt; bus.advance(&[1, 1, 0, 0], &mut grants, 1) == Ok(granted));
    assert!(rt; bus.0 == state(4, 1, Some(3)));
    let mut packed = PackedScan(state(11, 1, Some(8)));
    assert!(rt; packed.advance(&[9, 0], &mut [7; 2]) == Ok(granted));
    assert!(rt; packed.0 == state(11, 1, Some(1)));
    let mut dispatch = Dispatch(state(4, 1, Some(2)));
    assert!(rt;
        dispatch.advance(Engine::Tree, &[1, 1, 0, 0], &mut grants, &mut nodes) == Ok(granted)
    );
    assert!(rt; dispatch.0 == state(4, 1, Some(1)));
    Ok(())
}

#[test]
fn backlog_advances(rt: HostRuntime) -> Result<(), Fail> {
    let mut waiting = [3, 0, 0, 0];
    let mut grants = [7; 4];
    let mut backlog = Backlog(state(4, 1, Some(2)));
    let arrivals = [0, 1, 0, 0];
    let outcome = backlog.advance(Engine::Scan, &arrivals, &mut waiting, &mut grants, &mut []);
    assert!(rt;
        outcome
            == Ok(Granted {
                count: 1,
                more: true
            })
    );
    assert!(rt; (backlog.0, waiting) == (state(4, 1, Some(1)), [2, 1, 0, 0]));
    Ok(())
}

// What a cycle decides, with the state left to be settled.
#[test]
fn arbitrates(rt: HostRuntime) -> Result<(), Fail> {
    let mut grants = [7; 4];
    let mut nodes = [7; 8];
    let s = state(4, 1, Some(2));
    let decided = decide(4, Some(2), 1, Some(0), true);
    assert!(rt; Scan::arbitrate(&s, &[1, 1, 0, 0], &mut grants) == Ok(decided));
    assert!(rt; Tree::arbitrate(&s, &[1, 1, 0, 0], &mut grants, &mut nodes) == Ok(decided));
    assert!(rt;
        TokenBus::arbitrate(&s, &[1, 1, 0, 0], &mut grants, 0).map(|d| d.next) == Ok(Some(2))
    );
    assert!(rt; PackedScan::arbitrate(&s, &[3], &mut [7; 1]) == Ok(decided));
    assert!(rt; Engine::Tree.arbitrate(&s, &[1, 1, 0, 0], &mut grants, &mut nodes) == Ok(decided));
    Ok(())
}

#[test]
fn tree_grants(rt: HostRuntime) -> Result<(), Fail> {
    let mut grants = [7; 4];
    let mut nodes = [7; 8];
    let tree = Tree(state(4, 1, Some(2)));
    let answer = tree.cycle(&[1, 1, 0, 0], &mut grants, &mut nodes);
    assert!(rt; answer == granted(1, state(4, 1, Some(1)), true));
    assert!(rt; grants == [1, 0, 0, 0]);
    assert!(rt; nodes == [0, 2, 1, 2, 1, 1, 2, 0]);
    Ok(())
}

#[test]
fn counting_arbiters_grant(rt: HostRuntime) -> Result<(), Fail> {
    let mut grants = [7; 4];
    let s = state(4, 2, Some(2));
    let expected = granted(2, state(4, 2, Some(1)), true);
    assert!(rt; Thermometer(s).cycle(&[1, 1, 0, 1], &mut grants) == expected);
    assert!(rt; grants == [1, 0, 0, 1]);
    grants = [7; 4];
    assert!(rt; KoggeStone(s).cycle(&[1, 1, 0, 1], &mut grants) == expected);
    assert!(rt; grants == [1, 0, 0, 1]);
    Ok(())
}

#[test]
fn bus_grants(rt: HostRuntime) -> Result<(), Fail> {
    let mut grants = [7; 4];
    let bus = TokenBus(state(4, 1, Some(2)));
    let answer = bus.cycle(&[1, 1, 0, 0], &mut grants, 1);
    assert!(rt; answer == granted(1, state(4, 1, Some(3)), true));
    assert!(rt; grants == [1, 0, 0, 0]);
    let answer = bus.cycle(&[1, 1, 0, 0], &mut grants, 0);
    assert!(rt; answer == granted(1, state(4, 1, Some(2)), true));
    Ok(())
}

#[test]
fn packed_scan_grants(rt: HostRuntime) -> Result<(), Fail> {
    let mut grants = [7; 2];
    let scan = PackedScan(state(11, 1, Some(8)));
    assert!(rt; scan.cycle(&[9, 0], &mut grants) == granted(1, state(11, 1, Some(1)), true));
    assert!(rt; grants == [1, 0]);
    assert!(rt; refused(scan.cycle(&[9, 8], &mut grants).outcome) == (14, 1));
    assert!(rt; grants == [1, 0]);
    Ok(())
}

#[test]
fn dispatcher_grants(rt: HostRuntime) -> Result<(), Fail> {
    let mut nodes = [7; 8];
    for engine in [
        Engine::Scan,
        Engine::Thermometer,
        Engine::KoggeStone,
        Engine::Tree,
    ] {
        let mut grants = [7; 4];
        let answer = Dispatch(state(4, 1, Some(2))).cycle(
            engine,
            &[1, 1, 0, 0],
            &mut grants,
            &mut nodes,
        );
        assert!(rt; answer == granted(1, state(4, 1, Some(1)), true));
        assert!(rt; grants == [1, 0, 0, 0]);
        if engine != Engine::Tree {
            assert!(rt; nodes == [7; 8]);
        }
    }
    assert!(rt; nodes == [0, 2, 1, 2, 1, 1, 2, 0]);
    Ok(())
}

#[test]
fn backlog_grants(rt: HostRuntime) -> Result<(), Fail> {
    let mut waiting = [3, 0, 0, 0];
    let mut grants = [7; 4];
    let backlog = Backlog(state(4, 1, Some(2)));
    let answer = backlog.cycle(
        Engine::Scan,
        &[0, 1, 0, 0],
        &mut waiting,
        &mut grants,
        &mut [],
    );
    assert!(rt; answer == granted(1, state(4, 1, Some(1)), true));
    assert!(rt; grants == [1, 0, 0, 0]);
    assert!(rt; waiting == [2, 1, 0, 0]);
    Ok(())
}

// At the most messages: no arrival, and one.
#[test]
fn backlog_overflows(rt: HostRuntime) -> Result<(), Fail> {
    for (arrival, refusal, left) in [(0, (0, 0), u32::MAX - 1), (1, (16, 1), u32::MAX)] {
        let mut waiting = [0, u32::MAX, 0, 0];
        let mut grants = [7; 4];
        let backlog = Backlog(state(4, 1, Some(2)));
        let answer = backlog.cycle(
            Engine::Scan,
            &[0, arrival, 0, 0],
            &mut waiting,
            &mut grants,
            &mut [],
        );
        assert!(rt; refused(answer.outcome) == refusal);
        assert!(rt; waiting == [0, left, 0, 0]);
    }
    Ok(())
}
