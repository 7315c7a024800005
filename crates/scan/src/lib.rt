// The plain scan: it walks the stations in order from the head and grants those that ask, until the picks are used up.
#![tactic(auto)]

ghost use Rattle.std.specs.Prelude.{◌≡◌, ◌≤◌, length};
ghost use Rattle.rules.specs.Walk.{Ran};
ghost use Rattle.arbiter.specs.Decisions.{requested};
ghost use Rattle.arbiter.specs.Questions as Questions;

use arbiter::engine::{Arbiter, RoundRobin, ServedCycle};
use arbiter::question::{self, Verdict};
use arbiter::refusal::Refusal;
use arbiter::{Decision, Granted, State, decide, first_station};
use search::first_one;

// A state that the plain scan serves.
#[derive(Clone, Copy)]
pub struct Scan(pub State);

// How far a walk has come: how many it has granted, and whom it granted last.
#[derive(Clone, Copy)]
struct Walk {
    count: usize,
    last: Option<usize>,
}

impl Arbiter for Scan {
    ghost questions = { Questions.state_questions };

    // Asks 1, 3 and 4.
    fn ask(state: &State) -> Verdict {
        question::state(state)
    }
}

impl RoundRobin for Scan {
    ghost state_of = { λ scan. scan.0 };

    fn state(&self) -> &State {
        &self.0
    }

    fn settle(&mut self, decided: Result<Decision, Refusal>) -> Result<Granted, Refusal> {
        self.0.settle(decided)
    }

    // Walks the stations once round: from the head to the last, and then from 0 up to the head.
    fn grant(cycle: &mut ServedCycle<'_>) -> Decision {
        let width = cycle.requests.len();
        cycle.grants.fill(0);
        let first = first_station(cycle.head);
        let begun = Walk {
            count: 0,
            last: None,
        };
        let half = walk_run(
            cycle.picks,
            cycle.requests,
            cycle.grants,
            first,
            width,
            begun,
        );
        let walk = walk_run(cycle.picks, cycle.requests, cycle.grants, 0, first, half);
        let more = cycle.pending(walk.count);
        decide(width, cycle.head, walk.count, walk.last, more)
    }
}

// Grants those that ask of the stations from `from` up to `to`, in that order, until the picks are used up: it searches for one
// after the other, each from behind the station found last, so no range counts `i`. `walk` is how far the walk has come before, and the
// result how far it has come then. A run takes the buffers and not the cycle, of which it would have to promise what stays.
#[tactic(auto, using(crate::proofs::Searches::found_high))]
fn walk_run(
    picks: usize,
    requests: &[u8],
    grants: &mut [u8],
    from: usize,
    to: usize,
    walk: Walk,
) -> Walk
    requires from_le_to { from ≤ to }
    requires to_in_bounds { to ≤ length requests.now }
    requires to_in_bounds_2 { to ≤ length grants.old }
    requires count_le_picks { walk.count ≤ picks }
    ensures { Ran picks (requested requests.now) from to walk.count walk.last grants.old result.count result.last grants.new }
{
    let run = &requests[..to];
    let mut walk = walk;
    let mut i = from;
    for count in walk.count..picks {
        let Some(station) = first_one(i, run) else {
            return walk;
        };
        grants[station] = 1;
        walk = Walk {
            count: count + 1,
            last: Some(station),
        };
        i = station + 1;
    }
    walk
}
