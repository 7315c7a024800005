// Every refusal of every call, and every order of them. Each call is made with every set of the faults that it asks about, in three
// variants of each fault, and must refuse by the first.
ghost use Rattle.std.specs.Prelude.{◌<◌, ◌≤◌};

use crate::engine::{self, ENGINES, Engine};
use crate::{compare, packed};
use arbiter::{Answer, State};
use backlog::Backlog;
use one_hot::OneHot;
use packed_scan::PackedScan;
use snapshot::Snapshot;
use thermometer::adder;

// The calls that refuse. They are an enum and no closures: what a call asks and how it is made depend on the engine too.
#[derive(Clone, Copy, Debug, PartialEq, Eq)]
pub enum Call {
    Open,
    OpenAt,
    Cycle,
    ReadOneHot,
    WriteOneHot,
    ReadSnapshot,
    WriteSnapshot,
    Add,
    ReadShortSnapshot,
    Backlog,
}

// What is wrong with an input, as the number of the refusal.
#[derive(Clone, Copy, Debug, PartialEq, Eq)]
enum Fault {
    Width = 1,
    TreeWidth = 2,
    Picks = 3,
    Head = 4,
    Read = 5,
    Write = 6,
    Nodes = 7,
    Bit = 8,
    Acknowledge = 9,
    SecondOne = 10,
    Code = 13,
    Unused = 14,
    Waiting = 15,
    Overflow = 16,
}

// The faults in the order of the questions.
static FAULTS: [Fault; 14] = [
    Fault::Width,
    Fault::TreeWidth,
    Fault::Picks,
    Fault::Head,
    Fault::Read,
    Fault::Write,
    Fault::Waiting,
    Fault::Nodes,
    Fault::Bit,
    Fault::Acknowledge,
    Fault::SecondOne,
    Fault::Code,
    Fault::Unused,
    Fault::Overflow,
];

impl Fault {
    // The number of its refusal. The numbers are the kinds' own, so the cast is what gives them.
    fn number(self) -> usize
        ensures { result < 17 }
    {
        self as usize
    }
}

// A set of faults: the bit of a fault's number is 1. It is a number, since the number of a case counts through all sets.
#[derive(Clone, Copy, Debug, PartialEq, Eq)]
struct Faults(usize);

impl Faults {
    // These faults alone.
    fn of(faults: &[Fault]) -> Faults {
        Faults(0).with(faults)
    }

    // These faults too.
    fn with(self, faults: &[Fault]) -> Faults {
        faults
            .iter()
            .fold(self, |set, fault| Faults(set.0 | 1 << fault.number()))
    }

    // Whether it has a fault.
    fn has(self, fault: Fault) -> bool {
        (self.0 >> fault.number()) % 2 == 1
    }

    // Whether another set has all of them.
    fn is_within(self, other: Faults) -> bool {
        self.0 & other.0 == self.0
    }
}

// An input with these faults, in one of three variants. The state, which is made from it, and the number of bytes, which each call
// has of its own, go beside it.
#[derive(Clone, Copy)]
struct Faulty {
    faults: Faults,
    variant: usize,
}

impl Faulty {
    // Whether it has a fault.
    fn has(self, fault: Fault) -> bool {
        self.faults.has(fault)
    }

    // The right value or, by a fault, the wrong one of the variant.
    fn value<T: Copy>(self, fault: Fault, right: T, wrong: [T; 3]) -> T {
        if self.has(fault) {
            return wrong[self.variant % 3];
        }
        right
    }

    // A length, of no more than there is room for: by a fault one more, one less or 0.
    fn length(self, fault: Fault, right: usize) -> usize
        ensures { result ≤ 2048 }
    {
        let wrong = [right.saturating_add(1), last(right), 0];
        self.value(fault, right, wrong).min(ROOM)
    }

    // Where a fault of a byte stands in `n` bytes, which may be at `first`.
    fn spot(self, fault: Fault, n: usize, first: usize) -> usize {
        self.value(fault, 0, [first, last(n), n / 2])
    }

    // The first fault, in the order of the questions.
    fn first(self) -> Option<Fault> {
        FAULTS.iter().copied().find(|fault| self.has(*fault))
    }

    // What a call should answer: the number of the first fault, if there is one.
    fn expected(self) -> Result<(), usize> {
        match self.first() {
            None => Ok(()),
            Some(fault) => Err(fault.number()),
        }
    }

    // The place that is refused in `n` bytes: the first byte that is not a bit, the second 1, the last byte of packed wires, or the
    // first number that does not fit.
    fn place(self, n: usize) -> usize {
        match self.first() {
            Some(Fault::Bit) => self.spot(Fault::Bit, n, 0),
            Some(Fault::SecondOne) => self.spot(Fault::SecondOne, n, 1),
            Some(Fault::Unused) => last(n),
            Some(Fault::Overflow) => self.spot(Fault::Overflow, n, 0),
            _ => 0,
        }
    }

    // Whether a call on `n` bytes refuses by the first fault, and leaves this state.
    fn refused<T: Drop>(self, a: Answer<T>, n: usize, s: State) -> bool {
        match self.first() {
            Some(fault) => compare::refuses(a, fault.number(), self.place(n), s),
            None => false,
        }
    }
}

// How long the longest buffers are.
const ROOM: usize = engine::NODES;

// The byte with which buffers are filled that a refused call must leave alone.
const KEPT: u8 = 7;

// 3 variants, 131,072 sets of faults, 6 engines. The calls that are no engine's are made with the first of these.
pub(crate) const CASES: usize = 3 * 131072 * 6;

// The case of a number, by a call.
pub(crate) fn case(call: Call, i: usize) -> Option<bool> {
    let faults = Faults(i / 3 % 131072);
    let engine = ENGINES[i / 393216 % 6];
    if engine != engine::SCAN && !is_engines(call) {
        return None;
    }
    if faults == Faults(0) || !faults.is_within(asked(call, engine)) {
        return None;
    }
    let input = Faulty {
        faults,
        variant: i % 3,
    };
    Some(refuses(call, engine, input, state(engine, input)))
}

// Whether a call is an engine's, and made by each of them.
fn is_engines(call: Call) -> bool {
    matches!(
        call,
        Call::Open | Call::OpenAt | Call::Cycle | Call::Backlog
    )
}

// The questions that a call by an engine asks. The packed scan's cycle asks 14 in place of 8. A cycle with messages waiting is
// asked of the dispatcher's engines alone.
fn asked(call: Call, engine: Engine) -> Faults {
    let state = Faults::of(&[Fault::Width, Fault::Picks, Fault::Head]);
    let asked = match call {
        Call::Open => Faults::of(&[Fault::Width, Fault::Picks]),
        Call::OpenAt => state,
        Call::Cycle if engine == Engine::Packed => {
            state.with(&[Fault::Read, Fault::Write, Fault::Unused])
        }
        Call::Cycle => state.with(&[Fault::Read, Fault::Write, Fault::Bit]),
        Call::ReadOneHot => state.with(&[Fault::Read, Fault::Bit, Fault::SecondOne]),
        Call::WriteOneHot | Call::WriteSnapshot => state.with(&[Fault::Write]),
        Call::ReadSnapshot => state.with(&[Fault::Read, Fault::Bit]),
        Call::ReadShortSnapshot => {
            Faults::of(&[Fault::Read, Fault::Bit, Fault::Picks, Fault::Head])
        }
        Call::Add => Faults::of(&[Fault::Picks, Fault::Code]),
        Call::Backlog if matches!(engine, Engine::Bus | Engine::Packed) => Faults(0),
        Call::Backlog => {
            state.with(&[Fault::Read, Fault::Write, Fault::Waiting, Fault::Overflow])
        }
    };
    asked.with(engine_asks(call, engine))
}

// The questions that only the tree asks, and only the bus.
fn engine_asks(call: Call, engine: Engine) -> &'static [Fault] {
    match (call, engine) {
        (Call::Open | Call::OpenAt, Engine::RoundRobin(engines::Engine::Tree)) => &[
            Fault::TreeWidth,
        ],
        (Call::Cycle | Call::Backlog, Engine::RoundRobin(engines::Engine::Tree)) => &[
            Fault::TreeWidth,
            Fault::Nodes,
        ],
        (Call::Open, Engine::Bus) => &[Fault::Head],
        (Call::Cycle, Engine::Bus) => &[Fault::Acknowledge],
        _ => &[],
    }
}

// Whether a call refuses as it should.
fn refuses(call: Call, engine: Engine, f: Faulty, s: State) -> bool {
    let n = stations(s.width);
    match call {
        Call::Open => open(engine, f, s),
        Call::OpenAt => compare::opening(engine, s, f.expected()),
        Call::Cycle if engine == Engine::Packed => packed_cycle(f, s, packed::size(n)),
        Call::Cycle => cycle(engine, f, s, n),
        Call::ReadOneHot => read_image(f, s, n),
        Call::WriteOneHot => writes(f, s, n, |image| OneHot(s).write(image)),
        Call::WriteSnapshot => writes(f, s, 6, |snapshot| Snapshot(s).write(snapshot)),
        Call::ReadSnapshot => read_snapshot(f),
        Call::ReadShortSnapshot => read_short(f),
        Call::Add => add(f),
        Call::Backlog => backlog(engine, f, s, n),
    }
}

// A state of 4 stations with these faults, for the packed scan of 12, which take two bytes. The last picks are one more than the
// engine takes, and the last head is no token where the engine wants one.
fn state(engine: Engine, f: Faulty) -> State {
    let right = if engine == Engine::Packed { 12 } else { 4 };
    let tree_width = f.value(Fault::TreeWidth, right, [1, 6, 1023]);
    let width = f.value(Fault::Width, tree_width, [0, 1025, 5000]);
    let picks = f.value(Fault::Picks, 1, [0, 9, engine.most_picks(4) + 1]);
    let last = (engine != Engine::Bus).then_some(5000);
    let head = f.value(Fault::Head, Some(0), [Some(width), Some(1000000), last]);
    compare::state(width, picks, head)
}

// An opening without a head, which the bus refuses by 4 if by nothing before.
fn open(engine: Engine, mut f: Faulty, s: State) -> bool {
    if !engine.takes(None) {
        f.faults = f.faults.with(&[Fault::Head]);
    }
    let headless = compare::state(s.width, s.picks, None);
    compare::opening(engine, headless, f.expected())
}

// A cycle of an engine with `n` stations.
fn cycle(engine: Engine, f: Faulty, s: State, n: usize) -> bool
    requires { n ≤ 1024 }
{
    let requests = spoilt(f, n, 1);
    let mut grants = [KEPT; ROOM];
    let mut nodes = [KEPT; ROOM];
    let a = engine.cycle(
        s,
        &requests[..f.length(Fault::Read, n)],
        &mut grants[..f.length(Fault::Write, n)],
        &mut nodes[..f.length(Fault::Nodes, 2 * n)],
        f.value(Fault::Acknowledge, 1, [2, 255, 3]),
    );
    f.refused(a, n, s) && grants == [KEPT; ROOM] && nodes == [KEPT; ROOM]
}

// A cycle with messages waiting, by one of the dispatcher's engines with `n` stations.
fn backlog(engine: Engine, f: Faulty, s: State, n: usize) -> bool
    requires { n ≤ 1024 }
{
    let Engine::RoundRobin(engine) = engine else {
        return false;
    };
    let (arrivals, before) = overfull(f, n);
    let mut waiting = before;
    let mut grants = [KEPT; ROOM];
    let mut nodes = [KEPT; ROOM];
    let a = Backlog(s).cycle(
        engine,
        &arrivals[..f.length(Fault::Read, n)],
        &mut waiting[..f.length(Fault::Waiting, n)],
        &mut grants[..f.length(Fault::Write, n)],
        &mut nodes[..f.length(Fault::Nodes, 2 * n)],
    );
    f.refused(a, n, s) && waiting == before && grants == [KEPT; ROOM] && nodes == [KEPT; ROOM]
}

// Arrivals and waiting numbers, each of which becomes the largest of its type by its one arrival. By the fault one number does not fit:
// it has one arrival more, or it is 254 less than the largest and has 255, or it has 255 and the last station has one more too.
fn overfull(f: Faulty, n: usize) -> ([u8; ROOM], [u32; ROOM]) {
    let number = u32::MAX - 1;
    let mut arrivals = [1u8; ROOM];
    let mut waiting = [number; ROOM];
    let spot = f.spot(Fault::Overflow, n, 0);
    put(
        &mut arrivals,
        last(n),
        f.value(Fault::Overflow, 1, [1, 1, 2]),
    );
    put(
        &mut arrivals,
        spot,
        f.value(Fault::Overflow, 1, [2, 255, 255]),
    );
    if let Some(at) = waiting.get_mut(spot) {
        *at = f.value(Fault::Overflow, number, [number, u32::MAX - 254, number]);
    }
    (arrivals, waiting)
}

// A cycle of the packed scan on `n` bytes, the first of them 1. The fault is the first bit past the stations, the last, or all.
fn packed_cycle(f: Faulty, s: State, n: usize) -> bool {
    let unused = f.value(Fault::Unused, 0, [16, 128, 240]);
    let mut requests = [0u8; ROOM];
    put(&mut requests, 0, 1);
    put(&mut requests, last(n), unused % 255 + 1);
    let mut grants = [KEPT; ROOM];
    let a = PackedScan(s).cycle(
        &requests[..f.length(Fault::Read, n)],
        &mut grants[..f.length(Fault::Write, n)],
    );
    f.refused(a, n, s) && grants == [KEPT; ROOM]
}

// Reading an image of `n` bytes.
fn read_image(f: Faulty, s: State, n: usize) -> bool {
    let image = spoilt(f, n, 0);
    let read = f.length(Fault::Read, n);
    f.refused(OneHot(s).read(&image[..read]), n, s)
}

// Writing a state as `n` bytes.
fn writes<F: FnOnce(&mut [u8]) -> Answer<()>>(f: Faulty, s: State, n: usize, write: F) -> bool
    requires { F.IsAlwaysCallable write }
{
    let mut written = [KEPT; ROOM];
    let a = write(&mut written[..f.length(Fault::Write, n)]);
    f.refused(a, n, s) && written == [KEPT; ROOM]
}

// Six bytes. The width is too large by one, by all its bits, and by its high byte; the head is past the end by its low byte, by its
// high byte, and then there is a high byte of a head that is marked as none.
fn read_snapshot(f: Faulty) -> bool {
    let snapshot = [
        f.value(Fault::Width, 3, [0, 255, 3]),
        f.value(Fault::Width, 0, [4, 255, 5]),
        f.value(Fault::Picks, 2, [0, 9, 5]),
        f.value(Fault::Head, 3, [4, 0, 0]),
        f.value(Fault::Head, 0, [0, 1, 1]),
        f.value(Fault::Bit, f.value(Fault::Head, 1, [1, 1, 0]), [2, 255, 3]),
        0,
    ];
    unread(f, &snapshot, 6)
}

// Four bytes, with a head past the end twice, and then one that is marked as none. They stand apart from the six, in which the
// width and the head have two bytes each and other faults.
fn read_short(f: Faulty) -> bool {
    let snapshot = [
        3,
        f.value(Fault::Picks, 2, [0, 9, 5]),
        f.value(Fault::Head, 3, [4, 255, 1]),
        f.value(Fault::Bit, f.value(Fault::Head, 1, [1, 1, 0]), [2, 255, 3]),
        0,
    ];
    unread(f, &snapshot, 4)
}

// Whether a snapshot of so many bytes, after which comes one more, is refused by the first fault. Reading it asks 5, 8 of the last
// byte, 1, 3 and 4, in this order.
fn unread(f: Faulty, snapshot: &[u8], size: usize) -> bool {
    let length = f.length(Fault::Read, size).min(snapshot.len());
    let a = Snapshot::read(&snapshot[..length]);
    if f.has(Fault::Read) {
        return compare::makes_nothing(a, Fault::Read.number(), 0);
    }
    if f.has(Fault::Bit) {
        return compare::makes_nothing(a, Fault::Bit.number(), last(size));
    }
    f.first()
        .is_some_and(|fault| compare::makes_nothing(a, fault.number(), 0))
}

// With 3 picks: a left and a right byte with a gap, and a code that is too long.
fn add(f: Faulty) -> bool {
    let picks = f.value(Fault::Picks, 3, [0, 9, 1000]);
    let left = f.value(Fault::Code, 1, [2, 1, 15]);
    let right = f.value(Fault::Code, 1, [1, 2, 1]);
    compare::sum(
        adder::add(picks, left, right),
        f.expected().map(|()| (0, false)),
    )
}

// How many bytes go with a width: as many, or 4 where it is too large or none.
fn stations(width: usize) -> usize
    ensures { result ≤ 1024 }
{
    if 1 <= width && width <= 1024 {
        width
    } else {
        4
    }
}

// The last of `n` places, 0 where there is none.
fn last(n: usize) -> usize {
    n.saturating_sub(1)
}

// Bytes with a 1 at the first place: by the faults a second 1 and a byte that is not a bit, in the third variant with another
// after it.
fn spoilt(f: Faulty, n: usize, byte: u8) -> [u8; ROOM] {
    let mut bytes = [byte; ROOM];
    put(&mut bytes, 0, 1);
    put(
        &mut bytes,
        f.value(Fault::SecondOne, 0, [0, last(n), last(n)]),
        1,
    );
    put(&mut bytes, f.spot(Fault::SecondOne, n, 1), 1);
    if f.has(Fault::Bit) {
        put(&mut bytes, last(n), f.value(Fault::Bit, 0, [1, 255, 9]));
        put(
            &mut bytes,
            f.spot(Fault::Bit, n, 0),
            f.value(Fault::Bit, 0, [2, 255, 2]),
        );
    }
    bytes
}

// Writes a byte at a place, if there is such a place.
fn put(bytes: &mut [u8], place: usize, byte: u8) {
    if let Some(at) = bytes.get_mut(place) {
        *at = byte;
    }
}
