// The packed scan: known cycles, and the plain scan on the unpacked wires beside it. Wires are packed here by doubling.
ghost use Rattle.std.specs.Prelude.{◌≤◌};

use crate::engine::{Engine, WIDEST};
use crate::{compare, model, small};
use arbiter::{Answer, Granted, State};
use engines::Dispatch;
use packed_scan::PackedScan;

// A cycle with one pick, its wires packed, the next head, and whether more are pending.
#[derive(Clone, Copy)]
pub struct KnownCycle {
    width: usize,
    head: Option<usize>,
    requests: [u8; 2],
    grants: [u8; 2],
    count: usize,
    next: usize,
    more: bool,
}

// The known cycles. In the fourth the only request is in the head's own byte, below the head.
pub(crate) static CYCLES: [KnownCycle; 7] = [
    KnownCycle {
        width: 11,
        head: Some(8),
        requests: [9, 0],
        grants: [1, 0],
        count: 1,
        next: 1,
        more: true,
    },
    KnownCycle {
        width: 11,
        head: Some(1),
        requests: [9, 0],
        grants: [8, 0],
        count: 1,
        next: 4,
        more: true,
    },
    KnownCycle {
        width: 11,
        head: Some(4),
        requests: [9, 4],
        grants: [0, 4],
        count: 1,
        next: 0,
        more: true,
    },
    KnownCycle {
        width: 11,
        head: Some(4),
        requests: [8, 0],
        grants: [8, 0],
        count: 1,
        next: 4,
        more: false,
    },
    KnownCycle {
        width: 12,
        head: None,
        requests: [0, 0],
        grants: [0, 0],
        count: 0,
        next: 11,
        more: false,
    },
    KnownCycle {
        width: 16,
        head: Some(15),
        requests: [128, 128],
        grants: [0, 128],
        count: 1,
        next: 0,
        more: true,
    },
    KnownCycle {
        width: 9,
        head: Some(7),
        requests: [127, 1],
        grants: [0, 1],
        count: 1,
        next: 0,
        more: true,
    },
];

// The bytes of the widest.
const BYTES: usize = WIDEST / 8;

// Whether the packed scan's cycle is as is known.
pub(crate) fn known(cycle: &KnownCycle) -> bool {
    let s = compare::state(cycle.width, 1, cycle.head);
    let next = compare::state(cycle.width, 1, Some(cycle.next));
    let mut grants = [7u8; 2];
    let a = PackedScan(s).cycle(&cycle.requests, &mut grants);
    compare::grants(a, cycle.count, next, cycle.more) && grants == cycle.grants
}

// 4,096 sets of requests, 13 heads, 12 widths.
pub(crate) const CASES: usize = 4096 * 13 * 12;

// The case of a number.
pub(crate) fn case(i: usize) -> Option<bool> {
    let set = i % 4096;
    let head = small::head(i / 4096 % 13);
    let width = i / 53248 % 12 + 1;
    if 1 << width <= set || !small::is_within(head, width) {
        return None;
    }
    let s = compare::state(width, 1, head);
    let requests = small::spread::<16>(set);
    Some(model::run(Engine::Packed, s, requests.get(..width)?, 0).same)
}

// How many bytes hold the wires of so many stations.
pub(crate) fn size(n: usize) -> usize
    ensures { result ≤ 128 }
{
    n.min(WIDEST).div_ceil(8)
}

// A cycle by the packed scan, with the wires packed before and the grants unpacked afterwards.
pub(crate) fn cycle(s: State, requests: &[u8], grants: &mut [u8]) -> Answer<Granted> {
    let mut granted = [0u8; BYTES];
    let a = packed_cycle(s, requests, &mut granted);
    if a.outcome.is_ok() {
        unpack(&granted, grants);
    }
    a
}

// A cycle on the first of these bytes: as many as the wires take.
fn packed_cycle(s: State, requests: &[u8], granted: &mut [u8; BYTES]) -> Answer<Granted> {
    let size = size(requests.len());
    let mut packed = [0u8; BYTES];
    pack(requests, &mut packed);
    PackedScan(s).cycle(&packed[..size], &mut granted[..size])
}

// Whether the plain scan on the same wires answers and grants the same. All packed bytes are compared, those past the grant buffer
// too.
pub(crate) fn as_scan(s: State, requests: &[u8]) -> bool {
    let mut granted = [7u8; BYTES];
    let a = packed_cycle(s, requests, &mut granted);
    let mut grants = [0u8; WIDEST];
    let grants = &mut grants[..requests.len().min(WIDEST)];
    let b = Dispatch(s).cycle(engines::Engine::Scan, requests, grants, &mut [0]);
    let mut want = [7u8; BYTES];
    pack(grants, &mut want);
    a == b && granted == want
}

// Packs wires into the first of these bytes.
fn pack(wires: &[u8], packed: &mut [u8; BYTES]) {
    for (byte, eight) in packed.iter_mut().zip(wires.chunks(8)) {
        *byte = eight
            .iter()
            .rev()
            .fold(0, |byte: u8, wire| (byte << 1) | u8::from(*wire == 1));
    }
}

// Unpacks these bytes into wires.
fn unpack(packed: &[u8; BYTES], wires: &mut [u8]) {
    for (i, wire) in wires.iter_mut().enumerate() {
        *wire = packed.get(i / 8).map_or(0, |byte| (*byte >> (i % 8)) % 2);
    }
}
