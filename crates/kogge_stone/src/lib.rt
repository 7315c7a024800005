// The Kogge-Stone arbiter: the thermometer arbiter's counts by a network of joinings at distances 1, 2, 4 and so on, and the grants
// read off these counts.
#![tactic(auto)]

mod network;

ghost use Rattle.std.specs.Prelude.{◌==◌, position, true, ◌&&◌, ◌≡◌, ◌+◌, ◌≤◌, ◌<◌, eqb, ltb, length};
ghost use Rattle.std.specs.Int.Count.{ones};
ghost use Rattle.rules.specs.Lists.{bit, before};
ghost use Rattle.rules.specs.KoggeStone as KoggeStoneRule;
ghost use Rattle.rules.specs.RoundRobin as RoundRobinRule;
ghost use Rattle.rules.specs.RoundRobin.{start};
ghost use Rattle.rules.specs.Thermometer as ThermometerRule;
ghost use Rattle.arbiter.specs.Decisions.{requested, decision};
ghost use Rattle.search.specs.Places.{Bits};
ghost use Rattle.arbiter.specs.Questions as Questions;
ghost use Rattle.arbiter.specs.Questions.{max_width};
ghost use Rattle.kogge_stone.specs.Steps as KoggeStoneSteps;

use arbiter::engine::{Arbiter, RoundRobin, ServedCycle};
use arbiter::question::{self, Verdict};
use arbiter::refusal::Refusal;
use arbiter::{Decision, Granted, MAX_WIDTH, State, decide, first_station, idle};
use thermometer::adder::{self, Picks};

// One count more than there are stations.
const MAX_COUNTS: usize = MAX_WIDTH + 1;

// A cycle with no more counts than these makes a small array of them.
const FEW_COUNTS: usize = 65;

// A state that the Kogge-Stone arbiter serves.
#[derive(Clone, Copy)]
pub struct KoggeStone(pub State);

impl Arbiter for KoggeStone {
    ghost questions = { Questions.state_questions };

    // Asks 1, 3 and 4.
    fn ask(state: &State) -> Verdict {
        question::state(state)
    }
}

impl RoundRobin for KoggeStone {
    ghost state_of = { λ arbiter. arbiter.0 };

    fn state(&self) -> &State {
        &self.0
    }

    fn settle(&mut self, decided: Result<Decision, Refusal>) -> Result<Granted, Refusal> {
        self.0.settle(decided)
    }

    // Counts by the network and grants by the counts. A small cycle does not clear the large array.
    fn grant(cycle: &mut ServedCycle<'_>) -> Decision {
        if cycle.requests.len() < FEW_COUNTS {
            return count_round(cycle, &mut [0u8; FEW_COUNTS]);
        }
        count_round(cycle, &mut [0u8; MAX_COUNTS])
    }
}

// Counts by the network, and grants by the counts. `room` has room for a count before each position of the order and one past the last.
// The network takes the grant buffer for the room that it needs: all its bytes are written afterwards.
fn count_round(cycle: &mut ServedCycle<'_>, room: &mut [u8]) -> Decision
    requires room_bound { length cycle.old.requests.now < length room.old }
    ensures value { result ≡ decision (length cycle.old.requests.now) cycle.old.picks cycle.old.head (requested cycle.old.requests.now) }
    ensures same_picks { cycle.new.picks ≡ cycle.old.picks }
    ensures same_head { cycle.new.head ≡ cycle.old.head }
    ensures same_requests { cycle.new.requests.now ≡ cycle.old.requests.now }
    ensures same_reference { cycle.new.grants.ghost_name ≡ cycle.old.grants.ghost_name }
    ensures grants_after { cycle.new.grants.now ≡ RoundRobinRule.grants (length cycle.old.requests.now) cycle.old.picks cycle.old.head (requested cycle.old.requests.now) }
{
    let counts = &mut room[..cycle.requests.len() + 1];
    let picks = Picks::new(cycle.picks);
    counts[0] = 0;
    let more = network::run(
        picks,
        cycle.head,
        cycle.requests,
        &mut counts[1..],
        cycle.grants,
    );
    read_off(cycle, picks, counts, more)
}

// Reads the grants off the running codes, of which there is one before each position of the order and one past the last, and decides.
// The station whose own request brings the count to that of all is granted last; `more` is whether the network cut anything off.
fn read_off(cycle: &mut ServedCycle<'_>, picks: Picks, counts: &[u8], more: bool) -> Decision
    requires picks_value { ones picks.code ≡ cycle.old.picks }
    requires counts_value { counts.now ≡ ThermometerRule.running_codes (length cycle.old.requests.now) cycle.old.picks cycle.old.head (requested cycle.old.requests.now) }
    requires counts_len { length counts.now ≡ length cycle.old.requests.now + 1 }
    requires more_value { more ≡ KoggeStoneRule.network_cuts (length cycle.old.requests.now) cycle.old.picks cycle.old.head (requested cycle.old.requests.now) }
    ensures value { result ≡ decision (length cycle.old.requests.now) cycle.old.picks cycle.old.head (requested cycle.old.requests.now) }
    ensures same_picks { cycle.new.picks ≡ cycle.old.picks }
    ensures same_head { cycle.new.head ≡ cycle.old.head }
    ensures same_requests { cycle.new.requests.now ≡ cycle.old.requests.now }
    ensures same_reference { cycle.new.grants.ghost_name ≡ cycle.old.grants.ghost_name }
    ensures grants_after { cycle.new.grants.now ≡ RoundRobinRule.grants (length cycle.old.requests.now) cycle.old.picks cycle.old.head (requested cycle.old.requests.now) }
{
    let width = cycle.requests.len();
    let first = first_station(cycle.head);
    grant_round(
        picks.code,
        first,
        cycle.requests,
        &counts[..width],
        cycle.grants,
    );
    let total = counts[width];
    let count = adder::count(total);
    if count == 0 {
        return idle(width, cycle.head);
    }
    let position = first_place(total, &counts[1..]);
    decide(
        width,
        cycle.head,
        count,
        position.map(|p| station(width, first, p)),
        more,
    )
}

// The station at a position of the order. The model for the tests has this by itself, since an engine and its test share no code.
fn station(width: usize, first: usize, position: usize) -> usize
    requires { first ≤ width }
    ensures { result ≡ KoggeStoneSteps.station width first position }
{
    let high = width - first;
    if position < high {
        return first + position;
    }
    position - high
}

// Writes the grants: `counts` has the count before each position of the order that starts at station `first`, and `full` is the code
// of the picks. The stations from `first` on have the first positions, and those below it the others.
fn grant_round(full: u8, first: usize, requests: &[u8], counts: &[u8], grants: &mut [u8])
    requires first_in_bounds { first ≤ length requests.now }
    requires counts_len { length counts.now ≡ length requests.now }
    requires grants_len { length grants.old ≡ length requests.now }
    ensures { grants.new ≡ KoggeStoneSteps.grants full first requests.now counts.now }
{
    let (low, high) = requests.split_at(first);
    let (high_counts, low_counts) = counts.split_at(high.len());
    let (low_grants, high_grants) = grants.split_at_mut(first);
    grant_run(full, high, high_counts, high_grants);
    grant_run(full, low, low_counts, low_grants);
}

// Writes the grants of a run of stations, of which `counts` has the count before each. By index, since what is written through `zip` a
// proof knows by its length alone.
fn grant_run(full: u8, requests: &[u8], counts: &[u8], grants: &mut [u8])
    requires counts_len { length counts.now ≡ length requests.now }
    requires grants_len { length grants.old ≡ length requests.now }
    ensures { grants.new ≡ KoggeStoneSteps.grants_run full requests.now counts.now }
{
    for i in 0..requests.len() {
        grants[i] = grant(full, requests[i], counts[i]);
    }
}

// The grant byte of a station: 1 if it asks and the count before it is below the picks.
fn grant(full: u8, request: u8, count: u8) -> u8
    ensures { result ≡ bit (eqb request 1 && ltb count full) }
{
    u8::from((request == 1) & (count < full))
}

// The first place that holds this byte, or none.
fn first_place(byte: u8, bytes: &[u8]) -> Option<usize>
    ensures { result ≡ position (λ b. byte == b) bytes.now }
{
    bytes.iter().position(|b| byte == *b)
}
