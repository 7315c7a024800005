// Runs with messages waiting, on every width against the model: arrivals, engines, heads and picks come from a generator, and each
// cycle starts from the state and the waiting numbers that the last one left. After each run no message is lost or made.
use crate::conversions::byte;
use crate::engine::{DISPATCHED, Engine, NODES, WIDEST};
use crate::runs::{self, Generator};
use crate::{compare, waiting};
use arbiter::State;

// 64 cycles and the balance, 3 runs, 256 widths and the wide ones. Of those a run has 8 cycles.
pub(crate) const CASES: usize = 65 * 3 * (256 + 16);

// To how many of 1,024 stations messages come in a cycle, from run to run.
static CHANCES: [usize; 6] = [1, 4, 16, 64, 256, 1024];

// The state and the waiting numbers that the last cycle left, the chance of the run, and for each station how many messages it was
// given, those that waited at the start too, and how often it was granted; and the sum of the answers' counts.
#[derive(Drop)]
pub struct Run {
    state: State,
    waiting: [u32; WIDEST],
    chance: usize,
    given: [u64; WIDEST],
    granted: [u32; WIDEST],
    count: usize,
    generator: Generator,
}

impl Run {
    // Before the first run.
    pub(crate) fn new() -> Run {
        Run {
            state: compare::state(0, 0, None),
            waiting: [0; WIDEST],
            chance: 0,
            given: [0; WIDEST],
            granted: [0; WIDEST],
            count: 0,
            generator: Generator::new(),
        }
    }

    // The case of a number. The numbers come in order.
    pub(crate) fn case(&mut self, i: usize) -> Option<bool> {
        let width = runs::width(i / 195 % 272);
        let step = i % 65;
        if step == 64 {
            return Some(self.balances());
        }
        if 256 < width && 7 < step {
            return None;
        }
        if step == 0 {
            self.start(width, i % 195 == 0);
        }
        Some(self.cycle())
    }

    // Starts a run. The first of three has no head, and one pick, so that the tree takes it where it takes the width.
    fn start(&mut self, width: usize, first_run: bool) {
        let draw = self.generator.next() / 256;
        let picks = if first_run { 1 } else { draw % 8 + 1 };
        let station = (draw / 8 % WIDEST).min(width.saturating_sub(1));
        self.state = compare::state(width, picks.min(width), (!first_run).then_some(station));
        self.chance = CHANCES[draw / 8192 % 6];
        self.waiting = [0; WIDEST];
        for number in self.waiting.iter_mut().take(width) {
            *number = first_number(self.generator.next() / 4096);
        }
        self.given = [0; WIDEST];
        self.granted = [0; WIDEST];
        self.count = 0;
        self.add_waiting();
    }

    // Counts the messages that wait at a run's start.
    fn add_waiting(&mut self) {
        for (given, number) in self.given.iter_mut().zip(&self.waiting) {
            *given = given.saturating_add(u64::from(*number));
        }
    }

    // One cycle of a run.
    fn cycle(&mut self) -> bool {
        let s = self.state;
        let width = s.width.min(WIDEST);
        let mut arrivals = [0u8; WIDEST];
        let arrivals = &mut arrivals[..width];
        for arrived in arrivals.iter_mut() {
            *arrived = self.draw();
        }
        cut(arrivals, &self.waiting);
        let engine = self.engine();
        let mut grants = [7u8; WIDEST];
        let grants = &mut grants[..width];
        let waiting = &mut self.waiting[..width];
        let cycle = waiting::run::<NODES>(engine, s, arrivals, waiting, grants);
        self.state = cycle.answer.state;
        self.count = self
            .count
            .saturating_add(cycle.answer.outcome.map_or(0, |granted| granted.count));
        self.add(arrivals, grants);
        cycle.same
    }

    // The arrivals of a station: mostly none or one message, and any number now and then.
    fn draw(&mut self) -> u8 {
        if self.chance <= self.generator.next() / 4096 % 1024 {
            return 0;
        }
        let draw = self.generator.next() / 4096;
        if draw % 16 == 0 { byte(draw / 16) } else { 1 }
    }

    // An engine that takes the state. The tree, which does not take every state, is the last of them.
    fn engine(&mut self) -> engines::Engine {
        let draw = self.generator.next() / 4096;
        if Engine::RoundRobin(engines::Engine::Tree).takes_size(self.state) {
            return DISPATCHED[draw % 4];
        }
        DISPATCHED[draw % 3]
    }

    // Counts a cycle's messages.
    fn add(&mut self, arrivals: &[u8], grants: &[u8]) {
        for (given, arrived) in self.given.iter_mut().zip(arrivals) {
            *given = given.saturating_add(u64::from(*arrived));
        }
        for (granted, grant) in self.granted.iter_mut().zip(grants) {
            *granted = granted.saturating_add(u32::from(*grant));
        }
    }

    // Whether each station was given as many messages as were granted and wait, and all of them together too, by the answers' counts.
    // The sums saturate in place of wrapping; they come nowhere near that.
    fn balances(&self) -> bool {
        let parts = self.granted.iter().zip(&self.waiting);
        let each = self.given.iter().zip(parts).all(|(given, (granted, waiting))| *given
            == u64::from(*granted) + u64::from(*waiting));
        let given = self
            .given
            .iter()
            .fold(0, |sum: u64, n| sum.saturating_add(*n));
        let waiting = self
            .waiting
            .iter()
            .fold(0, |sum: u64, n| sum.saturating_add(u64::from(*n)));
        each && given == waiting.saturating_add(self.count as u64)
    }
}

// The number of a station at a run's start: for most 0, for some up to 3, and for few one of the 256 largest of the type.
fn first_number(draw: usize) -> u32 {
    match draw % 16 {
        0 => u32::MAX - u32::from(byte(draw / 16)),
        1..=4 => u32::from(byte(draw / 16 % 4)),
        _ => 0,
    }
}

// Cuts arrivals down to what the numbers have room for: in a run no cycle is refused.
fn cut(arrivals: &mut [u8], waiting: &[u32]) {
    for (arrived, number) in arrivals.iter_mut().zip(waiting) {
        let room = u8::try_from(u32::MAX - *number).unwrap_or(u8::MAX);
        *arrived = (*arrived).min(room);
    }
}
