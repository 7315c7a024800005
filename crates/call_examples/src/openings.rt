// Openings.
use crate::{refused, served, state};
use arbiter::State;
use arbiter::engine::{Arbiter, RoundRobin};
use engines::{Dispatch, Engine};
use kogge_stone::KoggeStone;
use packed_scan::PackedScan;
use scan::Scan;
use std::test::Fail;
use thermometer::Thermometer;
use token_bus::TokenBus;
use tree::Tree;
use tree::question::nodes_length;

#[test]
fn opens_alike(rt: HostRuntime) -> Result<(), Fail> {
    assert!(rt; Scan::opening(4, 2, Some(3)) == served(state(4, 2, Some(3))));
    assert!(rt; refused(Scan::opening(4, 2, Some(4)).outcome) == (4, 0));
    assert!(rt; Scan::opening(4, 2, Some(4)).state == State::default());
    assert!(rt; refused(Scan::ask(&state(4, 2, Some(4)))) == (4, 0));
    assert!(rt; *Scan(state(4, 2, None)).state() == state(4, 2, None));
    Ok(())
}

#[test]
fn opens_scan_and_tree(rt: HostRuntime) -> Result<(), Fail> {
    assert!(rt; Scan::open(4, 2) == served(state(4, 2, None)));
    assert!(rt; refused(Scan::open(1025, 1).outcome) == (1, 0));
    assert!(rt; Scan::open_at(4, 2, 3) == served(state(4, 2, Some(3))));
    assert!(rt; refused(Scan::open_at(4, 2, 4).outcome) == (4, 0));
    assert!(rt; Tree::open(8, 1) == served(state(8, 1, None)));
    assert!(rt; refused(Tree::open(6, 1).outcome) == (2, 0));
    assert!(rt; refused(Tree::open(8, 2).outcome) == (3, 0));
    assert!(rt; Tree::open_at(4, 1, 2) == served(state(4, 1, Some(2))));
    Ok(())
}

#[test]
fn opens_counting_arbiters(rt: HostRuntime) -> Result<(), Fail> {
    assert!(rt; Thermometer::open(12, 3) == served(state(12, 3, None)));
    assert!(rt; refused(Thermometer::open(12, 9).outcome) == (3, 0));
    assert!(rt; Thermometer::open_at(4, 2, 2) == served(state(4, 2, Some(2))));
    assert!(rt; KoggeStone::open(12, 3) == served(state(12, 3, None)));
    assert!(rt; refused(KoggeStone::open(1025, 3).outcome) == (1, 0));
    assert!(rt; KoggeStone::open_at(4, 2, 2) == served(state(4, 2, Some(2))));
    assert!(rt; refused(KoggeStone::open_at(4, 2, 4).outcome) == (4, 0));
    Ok(())
}

#[test]
fn opens_bus_and_packed_scan(rt: HostRuntime) -> Result<(), Fail> {
    assert!(rt; refused(TokenBus::open(4, 1).outcome) == (4, 0));
    assert!(rt; TokenBus::open_at(4, 1, 0) == served(state(4, 1, Some(0))));
    assert!(rt; PackedScan::open(11, 1) == served(state(11, 1, None)));
    assert!(rt; refused(PackedScan::open(11, 2).outcome) == (3, 0));
    assert!(rt; PackedScan::open_at(11, 1, 8) == served(state(11, 1, Some(8))));
    assert!(rt; refused(PackedScan::open_at(11, 1, 11).outcome) == (4, 0));
    Ok(())
}

#[test]
fn opens_by_name(rt: HostRuntime) -> Result<(), Fail> {
    assert!(rt; Dispatch::open(Engine::Scan, 6, 2) == served(state(6, 2, None)));
    assert!(rt; refused(Dispatch::open(Engine::Tree, 6, 1).outcome) == (2, 0));
    assert!(rt; Dispatch::open_at(Engine::Tree, 4, 1, 2) == served(state(4, 1, Some(2))));
    assert!(rt; refused(Engine::Tree.ask(&state(6, 1, None))) == (2, 0));
    assert!(rt; refused(Engine::Tree.ask_nodes(4, 7)) == (7, 0));
    assert!(rt; refused(Engine::Scan.ask(&state(6, 1, None))) == (0, 0));
    assert!(rt; refused(Engine::Scan.ask_nodes(4, 7)) == (0, 0));
    assert!(rt; refused(nodes_length(4, 7)) == (7, 0));
    Ok(())
}
