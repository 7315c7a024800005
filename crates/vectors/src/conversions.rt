// The one-hot image and the snapshot, each way, for every head and none of several widths; the short form of the snapshot, which is
// read alone; and snapshots of both forms that are written down.
use crate::engine::WIDEST;
use crate::{compare, small};
use arbiter::State;
use one_hot::OneHot;
use snapshot::Snapshot;

// The widths.
static WIDTHS: [usize; 16] = [
    1, 2, 3, 8, 9, 64, 127, 128, 255, 256, 257, 511, 512, 513, 1023, 1024,
];

// 1,025 heads, 16 widths.
pub(crate) const CASES: usize = 1025 * 16;

// The widest that the four bytes of a short snapshot hold.
pub(crate) const SHORT_WIDEST: usize = 256;

// The case of a number: whether a state no wider than `widest`, with as many picks as it may have, is converted as it should be.
pub(crate) fn case<F: FnOnce(State) -> bool>(i: usize, widest: usize, is_same: F) -> Option<bool>
    requires { F.IsAlwaysCallable is_same }
{
    let width = WIDTHS[i / 1025 % 16];
    let head = small::head(i % 1025);
    if !small::is_within(head, width) || widest < width {
        return None;
    }
    Some(is_same(compare::state(width, width.min(8), head)))
}

// Whether a state's image is zeros but for the head's byte, and is read into a state with another head.
pub(crate) fn images(s: State) -> bool {
    let width = s.width.min(WIDEST);
    let mut known = [0u8; WIDEST];
    if let Some(byte) = s.head.and_then(|station| known.get_mut(station)) {
        *byte = 1;
    }
    let known = &known[..width];
    let mut image = [7u8; WIDEST];
    let image = &mut image[..width];
    let other = compare::state(s.width, s.picks, Some(0));
    compare::serves(OneHot(s).write(image), s)
        && compare::serves(OneHot(other).read(known), s)
        && &*image == known
}

// Whether a state is written as its snapshot, and this is read as the state.
pub(crate) fn snapshots(s: State) -> bool {
    let snapshot = snapshot(s);
    is_read(s, &snapshot) && is_written(s, &snapshot)
}

// Whether a state's short snapshot is read as the state.
pub(crate) fn short_snapshots(s: State) -> bool {
    is_read(s, &short(s))
}

// Whether these bytes are read as a state.
fn is_read(s: State, known: &[u8]) -> bool {
    compare::serves(Snapshot::read(known), s)
}

// Whether a state is written as these bytes.
fn is_written(s: State, known: &[u8]) -> bool {
    let mut written = [7u8; 6];
    compare::serves(Snapshot(s).write(&mut written), s) && written.as_slice() == known
}

// The width less one, low byte first, the picks, the head or 0, low byte first, and 1 if there is a head.
fn snapshot(s: State) -> [u8; 6] {
    let head = s.head;
    let station = head.unwrap_or(0);
    let last = s.width.saturating_sub(1);
    [
        byte(last),
        byte(last / 256),
        byte(s.picks),
        byte(station),
        byte(station / 256),
        u8::from(head.is_some()),
    ]
}

// The same in four bytes, apart from the six so that either layout can be held to the paper's byte by byte.
fn short(s: State) -> [u8; 4] {
    let head = s.head;
    [
        byte(s.width.saturating_sub(1)),
        byte(s.picks),
        byte(head.unwrap_or(0)),
        u8::from(head.is_some()),
    ]
}

// The low byte of a number. The cast loses nothing, and there is no `From` for it.
pub(crate) fn byte(n: usize) -> u8 {
    (n % 256) as u8
}

// A snapshot that is written down, and the state that it holds.
#[derive(Clone, Copy)]
pub struct Saved {
    bytes: &'static [u8],
    state: State,
}

// Five of four bytes, as they were saved when there was no other form, and five of six.
pub(crate) static SAVED: [Saved; 10] = [
    Saved {
        bytes: &[3, 2, 1, 1],
        state: State {
            width: 4,
            picks: 2,
            head: Some(1),
        },
    },
    Saved {
        bytes: &[0, 1, 0, 0],
        state: State {
            width: 1,
            picks: 1,
            head: None,
        },
    },
    Saved {
        bytes: &[15, 8, 0, 1],
        state: State {
            width: 16,
            picks: 8,
            head: Some(0),
        },
    },
    Saved {
        bytes: &[254, 1, 0, 0],
        state: State {
            width: 255,
            picks: 1,
            head: None,
        },
    },
    Saved {
        bytes: &[255, 8, 255, 1],
        state: State {
            width: 256,
            picks: 8,
            head: Some(255),
        },
    },
    Saved {
        bytes: &[3, 0, 2, 1, 0, 1],
        state: State {
            width: 4,
            picks: 2,
            head: Some(1),
        },
    },
    Saved {
        bytes: &[0, 1, 1, 0, 1, 1],
        state: State {
            width: 257,
            picks: 1,
            head: Some(256),
        },
    },
    Saved {
        bytes: &[255, 1, 8, 0, 0, 0],
        state: State {
            width: 512,
            picks: 8,
            head: None,
        },
    },
    Saved {
        bytes: &[231, 3, 3, 88, 2, 1],
        state: State {
            width: 1000,
            picks: 3,
            head: Some(600),
        },
    },
    Saved {
        bytes: &[255, 3, 8, 255, 3, 1],
        state: State {
            width: 1024,
            picks: 8,
            head: Some(1023),
        },
    },
];

// Whether one is read as its state, and is what the state is written as, unless it has four bytes: these are read alone.
pub(crate) fn known(saved: &Saved) -> bool {
    let Saved { bytes, state } = *saved;
    is_read(state, bytes) && (bytes.len() == 4 || is_written(state, bytes))
}
