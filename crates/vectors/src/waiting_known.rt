// Known cycles with messages waiting, of 4 stations.
use crate::compare;
use crate::engine::{DISPATCHED, Engine};
use arbiter::{Answer, Granted, State};
use backlog::Backlog;

// A cycle with messages waiting: what it is given, and what it leaves, or the place that 16 refuses.
#[derive(Clone, Copy)]
struct KnownCycle {
    picks: usize,
    head: Option<usize>,
    waiting: [u32; 4],
    arrivals: [u8; 4],
    known: Result<Served, usize>,
}

// What a served cycle leaves: the grants and their count, the waiting numbers, the next head, and whether more are pending.
#[derive(Clone, Copy)]
struct Served {
    grants: [u8; 4],
    count: usize,
    left: [u32; 4],
    next: usize,
    more: bool,
}

// The known cycles: one pick, one for a station that waits by its arrivals alone, none where nobody waits, and two picks; then
// numbers at the end of their type.
static CYCLES: [KnownCycle; 15] = [
    KnownCycle {
        picks: 1,
        head: Some(2),
        waiting: [3, 0, 0, 0],
        arrivals: [0, 1, 0, 0],
        known: Ok(Served {
            grants: [1, 0, 0, 0],
            count: 1,
            left: [2, 1, 0, 0],
            next: 1,
            more: true,
        }),
    },
    KnownCycle {
        picks: 1,
        head: Some(3),
        waiting: [0, 0, 0, 0],
        arrivals: [0, 0, 1, 0],
        known: Ok(Served {
            grants: [0, 0, 1, 0],
            count: 1,
            left: [0, 0, 0, 0],
            next: 3,
            more: false,
        }),
    },
    KnownCycle {
        picks: 1,
        head: None,
        waiting: [0, 0, 0, 2],
        arrivals: [0, 0, 2, 0],
        known: Ok(Served {
            grants: [0, 0, 1, 0],
            count: 1,
            left: [0, 0, 1, 2],
            next: 3,
            more: true,
        }),
    },
    KnownCycle {
        picks: 1,
        head: Some(1),
        waiting: [0, 0, 0, 0],
        arrivals: [0, 0, 0, 0],
        known: Ok(Served {
            grants: [0, 0, 0, 0],
            count: 0,
            left: [0, 0, 0, 0],
            next: 1,
            more: false,
        }),
    },
    KnownCycle {
        picks: 1,
        head: None,
        waiting: [0, 0, 0, 0],
        arrivals: [0, 0, 0, 0],
        known: Ok(Served {
            grants: [0, 0, 0, 0],
            count: 0,
            left: [0, 0, 0, 0],
            next: 3,
            more: false,
        }),
    },
    KnownCycle {
        picks: 2,
        head: Some(1),
        waiting: [1, 0, 2, 0],
        arrivals: [0, 0, 0, 5],
        known: Ok(Served {
            grants: [0, 0, 1, 1],
            count: 2,
            left: [1, 0, 1, 4],
            next: 0,
            more: true,
        }),
    },
    KnownCycle {
        picks: 2,
        head: Some(3),
        waiting: [0, 7, 0, 0],
        arrivals: [0, 255, 0, 0],
        known: Ok(Served {
            grants: [0, 1, 0, 0],
            count: 1,
            left: [0, 261, 0, 0],
            next: 2,
            more: false,
        }),
    },
    KnownCycle {
        picks: 1,
        head: Some(0),
        waiting: [4294967295, 0, 0, 0],
        arrivals: [0, 0, 0, 0],
        known: Ok(Served {
            grants: [1, 0, 0, 0],
            count: 1,
            left: [4294967294, 0, 0, 0],
            next: 1,
            more: false,
        }),
    },
    KnownCycle {
        picks: 1,
        head: Some(0),
        waiting: [4294967295, 0, 0, 0],
        arrivals: [1, 0, 0, 0],
        known: Err(0),
    },
    KnownCycle {
        picks: 1,
        head: Some(3),
        waiting: [4, 4294967295, 4294967295, 0],
        arrivals: [9, 1, 1, 0],
        known: Err(1),
    },
    KnownCycle {
        picks: 2,
        head: None,
        waiting: [4294967295, 0, 0, 4294967295],
        arrivals: [0, 1, 0, 1],
        known: Err(3),
    },
    KnownCycle {
        picks: 1,
        head: Some(0),
        waiting: [4294967040, 5, 0, 0],
        arrivals: [255, 0, 0, 0],
        known: Ok(Served {
            grants: [1, 0, 0, 0],
            count: 1,
            left: [4294967294, 5, 0, 0],
            next: 1,
            more: true,
        }),
    },
    KnownCycle {
        picks: 1,
        head: Some(1),
        waiting: [4294967040, 5, 0, 0],
        arrivals: [255, 0, 0, 0],
        known: Ok(Served {
            grants: [0, 1, 0, 0],
            count: 1,
            left: [4294967295, 4, 0, 0],
            next: 2,
            more: true,
        }),
    },
    KnownCycle {
        picks: 1,
        head: Some(2),
        waiting: [0, 0, 4294967041, 0],
        arrivals: [1, 0, 255, 0],
        known: Err(2),
    },
    KnownCycle {
        picks: 1,
        head: Some(2),
        waiting: [0, 0, 4294967041, 0],
        arrivals: [1, 0, 254, 0],
        known: Ok(Served {
            grants: [0, 0, 1, 0],
            count: 1,
            left: [1, 0, 4294967294, 0],
            next: 3,
            more: true,
        }),
    },
];

// 15 cycles, 4 engines.
pub(crate) const CASES: usize = 15 * 4;

// The case of a number.
pub(crate) fn case(i: usize) -> Option<bool> {
    let cycle = CYCLES.get(i / 4)?;
    let engine = DISPATCHED[i % 4];
    let s = compare::state(4, cycle.picks, cycle.head);
    if !Engine::RoundRobin(engine).takes_size(s) {
        return None;
    }
    Some(cycle.ends_as_known(engine, s))
}

impl KnownCycle {
    // Whether it leaves what is known. An engine that is no tree is lent a node buffer of which it asks and to which it writes
    // nothing.
    fn ends_as_known(&self, engine: engines::Engine, s: State) -> bool {
        let is_tree = engine == engines::Engine::Tree;
        let mut waiting = self.waiting;
        let mut grants = [7u8; 4];
        let mut nodes = [7u8; 8];
        let a = Backlog(s).cycle(
            engine,
            &self.arrivals,
            &mut waiting,
            &mut grants,
            &mut nodes[..if is_tree { 8 } else { 3 }],
        );
        match self.known {
            Ok(served) => {
                served.is(a, s)
                    && waiting == served.left
                    && grants == served.grants
                    && (is_tree || nodes == [7; 8])
            }
            Err(place) => {
                compare::refuses(a, 16, place, s)
                    && waiting == self.waiting
                    && grants == [7; 4]
                    && nodes == [7; 8]
            }
        }
    }
}

impl Served {
    // Whether this is answered from this state.
    fn is(self, a: Answer<Granted>, s: State) -> bool {
        let next = compare::state(s.width, s.picks, Some(self.next));
        compare::grants(a, self.count, next, self.more)
    }
}
