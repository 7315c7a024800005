// The known turns of 01 that are not starred, and 000's worked example: openings and node buffers. The known sums are in `sums`.
use crate::engine::{self, ENGINES};
use crate::{compare, model, small, sums};

// The width and the picks of an opening, the number by which it is refused, if it is, and the same of the tree's. Widths 0, 1,025,
// 256 and 1,024, nine picks, and three of two stations; then the three widths that only the tree refuses.
static OPENINGS: [(usize, usize, Result<(), usize>, Result<(), usize>); 9] = [
    (0, 1, Err(1), Err(1)),
    (1025, 1, Err(1), Err(1)),
    (256, 1, Ok(()), Ok(())),
    (1024, 1, Ok(()), Ok(())),
    (16, 9, Err(3), Err(3)),
    (2, 3, Err(3), Err(3)),
    (257, 1, Ok(()), Err(2)),
    (1, 1, Ok(()), Err(2)),
    (6, 1, Ok(()), Err(2)),
];

// 9 openings, without a head and at head 0, 6 engines.
const OPENED: usize = 9 * 2 * 6;

// The openings, then a node buffer, then 4 sums. One number counts through them, since the group prints one line.
pub(crate) const CASES: usize = OPENED + 1 + 4;

// The case of a number.
pub(crate) fn case(i: usize) -> Option<bool> {
    if i < OPENED {
        return opening(i);
    }
    if i == OPENED {
        return Some(node_buffer(&NODE_BUFFER));
    }
    sums::KNOWN.get(i % 4).map(sums::known)
}

// One of the openings.
fn opening(i: usize) -> Option<bool> {
    let head = small::head(i / 9 % 2);
    let engine = ENGINES[i / 18 % 6];
    if !engine.takes(head) {
        return None;
    }
    let (width, picks, others, tree) = OPENINGS[i % 9];
    let expected = if engine == engine::TREE { tree } else { others };
    Some(compare::opening(engine, compare::state(width, picks, head), expected))
}

// A cycle of the tree with 4 stations, one pick and a head: who asks, the node buffer, the next head, and whether more are pending.
#[derive(Clone, Copy)]
pub struct KnownCycle {
    head: usize,
    requests: [u8; 4],
    nodes: [u8; 8],
    next: usize,
    more: bool,
}

// The cycles of 000's worked example. In it stations 0, 2 and 3 ask in each cycle. They are granted in turn.
pub(crate) static EXAMPLE: [KnownCycle; 3] = [
    KnownCycle {
        head: 0,
        requests: [1, 0, 1, 1],
        nodes: [0, 3, 3, 1, 3, 0, 1, 1],
        next: 1,
        more: true,
    },
    KnownCycle {
        head: 1,
        requests: [1, 0, 1, 1],
        nodes: [0, 3, 2, 1, 1, 2, 1, 1],
        next: 3,
        more: true,
    },
    KnownCycle {
        head: 3,
        requests: [1, 0, 1, 1],
        nodes: [0, 3, 1, 3, 1, 0, 1, 3],
        next: 0,
        more: true,
    },
];

// The node buffer of 01, with its cycle.
static NODE_BUFFER: KnownCycle = KnownCycle {
    head: 1,
    requests: [1, 0, 0, 0],
    nodes: [0, 2, 2, 0, 1, 2, 0, 0],
    next: 1,
    more: false,
};

// Whether the tree's cycle is the model's, and the model's is as is known.
pub(crate) fn node_buffer(cycle: &KnownCycle) -> bool {
    let s = compare::state(4, 1, Some(cycle.head));
    let ran = model::run(engine::TREE, s, &cycle.requests, 0);
    let noded = model::same_nodes(s, &cycle.requests, &cycle.nodes);
    ran.same && noded && ran.state.head == Some(cycle.next) && ran.more == cycle.more
}
