// A model of the rules for tests, written apart from the engines and by other means: by each station's distance from the start of
// the order, and by counting. Every public function answers for any input.
#![tactic(auto)]

pub mod codes;
mod tally;

ghost use Rattle.std.specs.Prelude.{◌≡◌, ◌+◌, ◌≤◌};
ghost use Rattle.reference.specs.Turns as Turns;

// A cycle: the number of stations, the most grants, the head, and the request bytes. On the bus the head is the token.
#[derive(Clone, Copy)]
pub struct Cycle<'a> {
    pub width: usize,
    pub picks: usize,
    pub head: Option<usize>,
    pub requests: &'a [u8],
}

impl Cycle<'_> {
    // Where the order starts: at the head, or at 0 where there is none.
    fn start(&self) -> usize
        ensures { result ≡ Turns.start self.now }
    {
        self.head.unwrap_or(0)
    }

    // How far a station is from the start, going up and round: as far as to the end, and `station` more. Of 4 stations, 1 is 3 away
    // from 2. Where either is no station it is 0.
    #[tactic(auto, unfolding(crate::specs::Turns::distance))]
    pub fn distance(&self, station: usize) -> usize
        ensures { result ≡ Turns.distance self.now station }
    {
        let start = self.start();
        if start < self.width && station < self.width {
            wrapped_sum(self.width, self.width - start, station)
        } else {
            0
        }
    }

    // The station that is `far` away from the start, at most a whole round: of 4 stations, 3 away from 2 is 1. It is the start itself
    // where that is no station.
    #[tactic(auto, unfolding(crate::specs::Turns::away))]
    pub fn away(&self, far: usize) -> usize
        ensures { result ≡ Turns.away self.now far }
    {
        let start = self.start();
        if start < self.width {
            wrapped_sum(self.width, start, far)
        } else {
            start
        }
    }

    // Whether the cycle grants a station: it asks, and fewer than `picks` that ask are nearer to the start. False where either is no
    // station.
    #[tactic(auto, unfolding(crate::specs::Turns::granted))]
    pub fn granted(&self, station: usize) -> bool
        ensures { result ≡ Turns.granted self.now station }
    {
        self.start() < self.width
            && station < self.width
            && self.asks(station)
            && self.nearer(station) < self.picks
    }

    // A station's count: how many that ask are nearer to the start, `picks` at the most.
    #[tactic(auto, unfolding(crate::specs::Turns::ahead))]
    pub fn ahead(&self, station: usize) -> usize
        ensures { result ≡ Turns.ahead self.now station }
    {
        self.picks.min(self.nearer(station))
    }

    // How many the cycle grants: `picks`, or all that ask if these are fewer.
    #[tactic(auto, unfolding(crate::specs::Turns::count))]
    pub fn count(&self) -> usize
        ensures { result ≡ Turns.count self.now }
    {
        self.picks.min(self.asking(0, self.width))
    }

    // Whether more are pending: more ask than are granted.
    #[tactic(auto, unfolding(crate::specs::Turns::more))]
    pub fn more(&self) -> bool
        ensures { result ≡ Turns.more self.now }
    {
        self.count() < self.asking(0, self.width)
    }

    // The next head: one past the granted station that is farthest from the start. If no one is granted a head stays, and no head
    // becomes the last station.
    #[tactic(auto, using(crate::specs::Turns::Laws::reach_le), unfolding(crate::specs::Turns::next, crate::specs::Turns::idle))]
    pub fn next(&self) -> usize
        ensures { result ≡ Turns.next self.now }
    {
        let last = self.width.saturating_sub(1);
        match self.reach() {
            None => self.head.unwrap_or(last),
            Some(far) => self.away(far + 1),
        }
    }

    // The next token: one past the token if someone asks and the grant is acknowledged. Else, and where the token is no station, it
    // is the same token.
    #[tactic(auto, unfolding(crate::specs::Turns::next_token))]
    pub fn next_token(&self, acknowledged: bool) -> usize
        ensures { result ≡ Turns.next_token self.now acknowledged }
    {
        if self.asking(0, self.width) > 0 && acknowledged {
            self.away(1)
        } else {
            self.start()
        }
    }

    // The value of a tree node over the stations from `from` up to `to`: 2 if the head is among them, and 1 more if one of them asks.
    // If the head is among them, those before it do not count.
    #[tactic(auto, unfolding(crate::specs::Turns::node, crate::specs::Turns::valued, crate::specs::Turns::some))]
    pub fn node(&self, from: usize, to: usize) -> u8
        ensures { result ≡ Turns.node self.now from to }
    {
        match self.head {
            Some(head) if (from..to).contains(&head) => 2 + u8::from(self.asking(head, to) > 0),
            _ => u8::from(self.asking(from, to) > 0),
        }
    }

    // The farthest distance of a granted station. None where no one is granted.
    #[tactic(auto, unfolding(crate::specs::Turns::reach))]
    fn reach(&self) -> Option<usize>
        ensures { result ≡ Turns.reach self.now }
    {
        (0..self.width)
            .filter(|i| self.granted(*i))
            .map(|i| self.distance(i))
            .max()
    }
}

// The sum of two numbers on the round, less a whole round where it is that much or more. Of 4 stations, 2 and 3 give 1.
#[tactic(auto, unfolding(crate::specs::Turns::wrapped))]
fn wrapped_sum(width: usize, left: usize, right: usize) -> usize
    requires { left ≤ width }
    ensures { result ≡ Turns.wrapped width (left + right) }
{
    if right < width - left {
        left + right
    } else {
        right - (width - left)
    }
}
