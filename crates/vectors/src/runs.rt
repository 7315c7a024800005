// Runs on every width against the model: requests, heads and picks come from a generator, and each cycle starts from the state
// that the last one left.
use crate::conversions::byte;
use crate::engine::{Engine, WIDEST};
use crate::{compare, model};
use arbiter::State;

// Widths above 256: about the powers of two and their sums, and others between.
static WIDE: [usize; 16] = [
    257, 258, 319, 384, 500, 511, 512, 513, 640, 767, 768, 769, 900, 1000, 1023, 1024,
];

// 64 cycles, 3 runs, 256 widths and the wide ones. Of those a run has 8 cycles, since the model counts all pairs of stations.
pub(crate) const CASES: usize = 64 * 3 * (256 + 16);

// An engine, the state that its last cycle left, and the generator.
#[derive(Clone, Copy)]
pub struct Run {
    engine: Engine,
    state: State,
    generator: Generator,
}

impl Run {
    // Before the first run.
    pub(crate) fn new(engine: Engine) -> Run {
        Run {
            engine,
            state: compare::state(0, 0, None),
            generator: Generator::new(),
        }
    }

    // The case of a number. The numbers come in order.
    pub(crate) fn case(&mut self, i: usize) -> Option<bool> {
        let width = width(i / 192 % 272);
        if !self.engine.takes_width(width) || (256 < width && 7 < i % 64) {
            return None;
        }
        if i % 64 == 0 {
            self.state = self.first(width, i % 192 == 0);
        }
        Some(self.cycle())
    }

    // The state at a run's start. The picks are as many as the engine takes, or fewer. The first run of three has no head, if the
    // engine takes none.
    fn first(&self, width: usize, first_run: bool) -> State {
        let draw = self.generator.0 / 256;
        let picks = (draw % 8 + 1).min(self.engine.most_picks(width));
        let station = (draw / 8 % WIDEST).min(width.saturating_sub(1));
        let headless = first_run && self.engine.takes(None);
        compare::state(width, picks, (!headless).then_some(station))
    }

    // One cycle of a run.
    fn cycle(&mut self) -> bool {
        let mut requests = [0u8; WIDEST];
        let requests = &mut requests[..self.state.width.min(WIDEST)];
        self.generator.draw(requests);
        let acknowledge = byte(self.generator.0 / 512 % 2);
        let cycle = model::run(self.engine, self.state, requests, acknowledge);
        self.state = cycle.state;
        cycle.same
    }
}

// The widths by number: 1 to 256, and then the wide ones.
pub(crate) fn width(i: usize) -> usize {
    if i < 256 {
        return i + 1;
    }
    WIDE[(i - 256) % 16]
}

// A linear congruence modulo 2 to the 31st, by its last number.
#[derive(Clone, Copy)]
pub struct Generator(usize);

impl Generator {
    // Before the first number.
    pub(crate) fn new() -> Generator {
        Generator(1)
    }

    // The next number.
    pub(crate) fn next(&mut self) -> usize {
        self.0 = (self.0 % 2147483648 * 1103515245 + 12345) % 2147483648;
        self.0
    }

    // Draws requests. From cycle to cycle none, one, two or three in four of them ask, or all.
    fn draw(&mut self, requests: &mut [u8]) {
        let dense = self.next() / 1024 % 5;
        for request in requests.iter_mut() {
            *request = u8::from(self.next() / 4096 % 4 < dense);
        }
    }
}
