// The thermometer arbiter: it carries the saturated count of the asking stations along the order as a thermometer code, and
// grants each station that asks and has fewer than the picks before it.
#![tactic(auto)]

pub mod adder;
pub mod theorems;

ghost use Rattle.std.specs.Prelude.{true, ◌≡◌, ◌≤◌, length};
ghost use Rattle.rules.specs.Thermometer.{is_code};
ghost use Rattle.search.specs.Places.{Bits};
ghost use Rattle.arbiter.specs.Questions as Questions;
ghost use Rattle.thermometer.specs.Runs.{Ran};

use adder::Picks;
use arbiter::engine::{Arbiter, RoundRobin, ServedCycle};
use arbiter::question::{self, Verdict};
use arbiter::refusal::Refusal;
use arbiter::{Decision, Granted, State, decide, first_station};

// A state that the thermometer arbiter serves.
#[derive(Clone, Copy)]
pub struct Thermometer(pub State);

// How far a walk has come: the code of how many it has counted, whom it granted last, and whether the adder has cut anything off.
#[derive(Clone, Copy)]
struct Walk {
    code: u8,
    last: Option<usize>,
    more: bool,
}

impl Arbiter for Thermometer {
    ghost questions = { Questions.state_questions };

    // Asks 1, 3 and 4.
    fn ask(state: &State) -> Verdict {
        question::state(state)
    }
}

impl RoundRobin for Thermometer {
    ghost state_of = { λ thermometer. thermometer.0 };

    fn state(&self) -> &State {
        &self.0
    }

    fn settle(&mut self, decided: Result<Decision, Refusal>) -> Result<Granted, Refusal> {
        self.0.settle(decided)
    }

    // Goes once round, from the head to the last station, and then from 0 up to the head: what it has counted then is the number
    // of grants. It stands beside the scan's, which is like it: the theorem `two_runs` reads off this code that there are two runs, by
    // the name of the run, of which `one_step` says what a turn is. Of a run that is a parameter it could say neither.
    fn grant(cycle: &mut ServedCycle<'_>) -> Decision {
        let width = cycle.requests.len();
        cycle.grants.fill(0);
        let first = first_station(cycle.head);
        let begun = Walk {
            code: 0,
            last: None,
            more: false,
        };
        let half = count_run(
            cycle.picks,
            cycle.requests,
            cycle.grants,
            first,
            width,
            begun,
        );
        let walk = count_run(cycle.picks, cycle.requests, cycle.grants, 0, first, half);
        let count = adder::count(walk.code);
        decide(width, cycle.head, count, walk.last, walk.more)
    }
}

// Goes along the stations from `from` up to `to`, one adder step for each: a station is granted if the count rises, which it does
// if the station asks and the count before it is below the picks. `reach` is the code of the largest whole sum of the run: above that of
// the picks, it says that a step has cut something off. `walk` is how far the walk has come before, and the result how far it has come
// then. A run takes the buffers and not the cycle, of which it would have to promise what stays.
// Not in line: in line, cycles of 64 stations and more took a fifth longer where the code happened to stand badly.
#[inline(never)]
#[tactic(auto, using(rules::proofs::Thermometer::Laws::full_is_code, rules::proofs::Thermometer::Laws::full_ones))]
fn count_run(
    picks: usize,
    requests: &[u8],
    grants: &mut [u8],
    from: usize,
    to: usize,
    walk: Walk,
) -> Walk
    requires from_le_to { from ≤ to }
    requires to_in_bounds { to ≤ length requests.now }
    requires to_in_bounds_2 { to ≤ length grants.old }
    requires picked { 1 ≤ picks }
    requires picks_bound { picks ≤ Questions.max_picks }
    requires code_value { is_code picks walk.code ≡ true }
    requires bits { Bits requests.now }
    ensures { Ran picks requests.now from to walk grants.old result grants.new }
{
    // no call of `Picks::new`: a run calls the adder's `code` and `step` alone, as its proof reads off this code
    let full = Picks {
        code: adder::code(picks),
    };
    let mut walk = walk;
    let mut reach = 0;
    for i in from..to {
        let sum = adder::step(full, walk.code, requests[i]);
        reach |= sum.whole;
        if sum.code != walk.code {
            grants[i] = 1;
            walk.code = sum.code;
            walk.last = Some(i);
        }
    }
    walk.more |= (full.code as u32) < reach;
    walk
}
