// The six engines, four of them behind the dispatcher.
ghost use Rattle.std.specs.Prelude.{◌≤◌};

use crate::{compare, packed};
use arbiter::engine::Arbiter;
use arbiter::{Answer, Granted, State};
use engines::Dispatch;
use packed_scan::PackedScan;
use token_bus::TokenBus;

// The widest that is run, and its nodes.
pub(crate) const WIDEST: usize = 1024;

pub(crate) const NODES: usize = 2 * WIDEST;

// What grants: the packed scan by packing wires, the others by the wires themselves.
#[derive(Clone, Copy, Debug, PartialEq, Eq)]
pub enum Engine {
    RoundRobin(engines::Engine),
    Bus,
    Packed,
}

// The dispatcher's four by short names, since groups and comparisons name them often.
pub(crate) const SCAN: Engine = Engine::RoundRobin(engines::Engine::Scan);

pub(crate) const TREE: Engine = Engine::RoundRobin(engines::Engine::Tree);

pub(crate) const THERMOMETER: Engine = Engine::RoundRobin(engines::Engine::Thermometer);

pub(crate) const KOGGE_STONE: Engine = Engine::RoundRobin(engines::Engine::KoggeStone);

// The engines by number.
pub(crate) static ENGINES: [Engine; 6] = [
    SCAN,
    TREE,
    THERMOMETER,
    KOGGE_STONE,
    Engine::Bus,
    Engine::Packed,
];

// The dispatcher's four by number, the tree last.
pub(crate) static DISPATCHED: [engines::Engine; 4] = [
    engines::Engine::Scan,
    engines::Engine::Thermometer,
    engines::Engine::KoggeStone,
    engines::Engine::Tree,
];

impl Engine {
    // Whether it serves with such a head: the bus with none does not.
    pub(crate) fn takes(self, head: Option<usize>) -> bool {
        self != Engine::Bus || head.is_some()
    }

    // Whether it takes such a width, of those up to the widest: the tree only the powers of two above 1.
    pub(crate) fn takes_width(self, width: usize) -> bool {
        self != TREE || (width.is_power_of_two() && width > 1)
    }

    // The most picks that it takes for a width.
    pub(crate) fn most_picks(self, width: usize) -> usize
        ensures { result ≤ 8 }
    {
        match self {
            Engine::RoundRobin(engines::Engine::Tree) | Engine::Bus | Engine::Packed => 1,
            Engine::RoundRobin(_) => width.min(8),
        }
    }

    // Whether it takes the width and the picks of a state.
    pub(crate) fn takes_size(self, s: State) -> bool {
        self.takes_width(s.width) && s.picks <= self.most_picks(s.width)
    }

    // Opens with a state's width and picks, and with its head if it has one.
    pub(crate) fn open(self, s: State) -> Answer<()> {
        match self {
            Engine::RoundRobin(engine) => opened(
                s,
                |width, picks| Dispatch::open(engine, width, picks),
                |width, picks, head| Dispatch::open_at(engine, width, picks, head),
            ),
            Engine::Bus => opened(s, TokenBus::open, TokenBus::open_at),
            Engine::Packed => opened(s, PackedScan::open, PackedScan::open_at),
        }
    }

    // One cycle. The nodes are the tree's alone, and the acknowledge byte is the bus's. The packed scan's wires are packed for it.
    pub(crate) fn cycle(
        self,
        s: State,
        requests: &[u8],
        grants: &mut [u8],
        nodes: &mut [u8],
        acknowledge: u8,
    ) -> Answer<Granted> {
        match self {
            Engine::RoundRobin(engine) => Dispatch(s).cycle(engine, requests, grants, nodes),
            Engine::Bus => TokenBus(s).cycle(requests, grants, acknowledge),
            Engine::Packed => packed::cycle(s, requests, grants),
        }
    }
}

// What the opening without a head answers to a state, or where it has a head the opening with one.
fn opened<F: FnOnce(usize, usize) -> Answer<()>, G: FnOnce(usize, usize, usize) -> Answer<()>>(
    s: State,
    headless: F,
    headed: G,
) -> Answer<()>
    requires without_head { F.IsAlwaysCallable headless }
    requires with_head { G.IsAlwaysCallable headed }
{
    match s.head {
        None => headless(s.width, s.picks),
        Some(head) => headed(s.width, s.picks, head),
    }
}
